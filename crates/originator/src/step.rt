//! A frame is taken.
ghost use Rattle.std.specs.Prelude.{◌≡◌, OnSome};
ghost use Rattle.originator.specs.Readers.{link_of, KeepsLink};
ghost use Rattle.originator.specs.Cts.{led};
ghost use Rattle.originator.specs.Step.{on_end, on_cm, stepped};

use crate::endings::Ending;
use crate::states::{OutState, Stepped};
use tp_wire::{CmFrame, Kind, Wire};

impl OutState {
    /// An end acknowledgement of so many bytes is taken.
    fn take_end(&self, size: u32) -> Option<Ending>
        ensures { on_end self.now size ≡ led result self.now }
    {
        if size == self.link().len() && self.is_all_queued() {
            return Some(Ending::Acknowledged);
        }
        None
    }

    /// A connection management frame is taken.
    #[inline]
    fn take_cm(&mut self, frame: &CmFrame, now: u64) -> Option<Ending>
        ensures step { on_cm self.old frame.now now ≡ led result self.new }
        ensures link { link_of self.new ≡ link_of self.old }
        ensures kept { OnSome result (self.new ≡ self.old) }
    {
        match frame {
            CmFrame::Cts { granted, next, pgn } => {
                if self.is_of(Kind::Tp, *pgn) {
                    self.take_cts(*granted, u32::from(*next), now)
                } else {
                    None
                }
            }
            CmFrame::EtpCts { granted, next, pgn } => {
                if self.is_of(Kind::Etp, *pgn) {
                    self.take_cts(*granted, *next, now)
                } else {
                    None
                }
            }
            CmFrame::EndOfMsgAck { size, packets, pgn } => {
                if self.is_of(Kind::Tp, *pgn) && u32::from(*packets) == self.link().packets() {
                    self.take_end(u32::from(*size))
                } else {
                    None
                }
            }
            CmFrame::EtpEoma { size, pgn } => {
                if self.is_of(Kind::Etp, *pgn) {
                    self.take_end(*size)
                } else {
                    None
                }
            }
            _ => None,
        }
    }

    /// Takes a frame of the destination at tick `now`, and changes the state in place. A CTS or an end acknowledgement of its
    /// transport and PGN counts; every other frame leaves the message unchanged. If the frame ends the message, it returns how
    /// and changes nothing: `end` is left to do.
    #[inline]
    pub fn take(&mut self, wire: &Wire<'_>, now: u64) -> Option<Ending>
        ensures step { stepped self.old wire.now now ≡ led result self.new }
        ensures link { link_of self.new ≡ link_of self.old }
        ensures kept { OnSome result (self.new ≡ self.old) }
    {
        match wire {
            Wire::Cm(frame) => self.take_cm(frame, now),
            _ => None,
        }
    }

    /// `take`, by value.
    pub fn step(mut self, wire: &Wire<'_>, now: u64) -> Stepped
        ensures value { result ≡ stepped self wire.now now }
        ensures link { KeepsLink (link_of self) result }
    {
        let Wire::Cm(frame) = wire else {
            return Stepped::On(self);
        };
        match self.take_cm(frame, now) {
            None => Stepped::On(self),
            Some(ending) => Stepped::Over(self.end(ending)),
        }
    }
}
