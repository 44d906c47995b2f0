//! The end acknowledgements of messages that were given.
ghost use Rattle.std.specs.Prelude.{◌≡◌, [], OnOk, IfOk};
ghost use Rattle.log_courses.specs.Awaited.{is_open, is_to_all, awaiting, awaiting_each, met_at, cm_met, wire_met, met};
ghost use Rattle.log_courses.specs.Strays.{stray_left};

use crate::courses::key_between;
use bus_frame::Frame;
use indexmap::IndexMap;
use log_fields::Iface;
use log_reports::{Key, Stray, Told};
use pgn_ids::{Address, Pgn, WirePgn};
use std::alloc::{AllocError, Global};
use std::marker::Model;
use tp_wire::{CmFrame, Kind, Wire, read};

/// A message that was given to one node.
#[derive(Clone, Copy)]
pub(crate) struct Last {
    pub(crate) pgn: Pgn,
    /// Its size in bytes.
    pub(crate) size: u64,
    /// Whether its end acknowledgement was seen.
    pub(crate) is_met: bool,
}

/// The messages that were given last, and whether the end acknowledgement of each was seen: it follows the report on its message.
pub struct Awaited {
    last: IndexMap<Key, Last>,
}

impl Model for Awaited {
    ghost use Rattle.log_courses.specs.Awaited.{Awaited};

    ghost Value = { Awaited };

    ghost view = { λ a. a.last.entries };
}

impl Drop for Awaited {
    fn drop(self) {
        let Awaited { last: _ } = self;
    }
}

/// Whether an end acknowledgement of this PGN and size is that of a message, and the first one.
fn is_open(last: &Last, pgn: WirePgn, size: u64) -> bool
    ensures { result ≡ is_open last.now pgn size }
{
    !last.is_met && pgn.clean() == last.pgn && size == last.size
}

fn is_to_all(key: &Key) -> bool
    ensures { result ≡ is_to_all key.now }
{
    key.to == Address::GLOBAL
}

impl Awaited {
    /// No message was given. It takes no memory.
    pub fn new(alloc: Global) -> Awaited
        ensures { result ≡ [] }
    {
        Awaited {
            last: IndexMap::new(alloc),
        }
    }

    fn add(&mut self, told: &Told) -> Result<(), AllocError>
        ensures { OnOk result (self.new ≡ awaiting told.now self.old) }
    {
        match told {
            Told::Given { key, pgn, bytes } => {
                if is_to_all(key) {
                    return Ok(());
                }
                let last = Last {
                    pgn: *pgn,
                    size: bytes.len() as u64,
                    is_met: false,
                };
                self.last.insert(*key, last)?;
                Ok(())
            }
            Told::Aborted { .. } => Ok(()),
            Told::Lost { .. } => Ok(()),
        }
    }

    /// Adds the reports. Each message that was given to one node is to be acknowledged. It fails only if memory is refused; what it leaves then
    /// is not specified.
    pub fn add_each(&mut self, told: &[Told]) -> Result<(), AllocError>
        ensures { OnOk result (self.new ≡ awaiting_each told.now self.old) }
    {
        for one in told {
            self.add(one)?;
        }
        Ok(())
    }

    /// The receiver of a message acknowledges one of this PGN and size.
    fn meet_at(&mut self, key: Key, pgn: WirePgn, size: u64) -> Result<bool, AllocError>
        ensures { IfOk result (λ is. (self.new, is) ≡ met_at key pgn size self.old) }
    {
        let last = match self.last.get(&key) {
            None => return Ok(false),
            Some(last) => *last,
        };
        if !is_open(&last, pgn, size) {
            return Ok(false);
        }
        let met = Last {
            is_met: true,
            ..last
        };
        self.last.insert(key, met)?;
        Ok(true)
    }

    #[tactic(auto, unfolding(crate::specs::Awaited::cm_met))]
    fn meet_cm(
        &mut self,
        iface: Iface,
        from: Address,
        to: Address,
        frame: &CmFrame,
    ) -> Result<bool, AllocError>
        ensures { IfOk result (λ is. (self.new, is) ≡ cm_met iface from to frame.now self.old) }
    {
        let (tp, etp) = (
            key_between(iface, to, from, Kind::Tp),
            key_between(iface, to, from, Kind::Etp),
        );
        match frame {
            CmFrame::Rts { .. } => Ok(false),
            CmFrame::Cts { .. } => Ok(false),
            CmFrame::EndOfMsgAck { size, pgn, .. } => self.meet_at(tp, *pgn, u64::from(*size)),
            CmFrame::Bam { .. } => Ok(false),
            CmFrame::Abort { .. } => Ok(false),
            CmFrame::EtpRts { .. } => Ok(false),
            CmFrame::EtpCts { .. } => Ok(false),
            CmFrame::EtpDpo { .. } => Ok(false),
            CmFrame::EtpEoma { size, pgn } => self.meet_at(etp, *pgn, u64::from(*size)),
            CmFrame::EtpAbort { .. } => Ok(false),
        }
    }

    #[tactic(auto, unfolding(crate::specs::Awaited::wire_met))]
    fn meet_wire(
        &mut self,
        iface: Iface,
        from: Address,
        to: Address,
        wire: &Wire<'_>,
    ) -> Result<bool, AllocError>
        ensures { IfOk result (λ is. (self.new, is) ≡ wire_met iface from to wire.now self.old) }
    {
        match wire {
            Wire::Cm(frame) => self.meet_cm(iface, from, to, frame),
            Wire::Packet { .. } => Ok(false),
            Wire::Request { .. } => Ok(false),
            Wire::Ack { .. } => Ok(false),
        }
    }

    /// A frame is seen on an interface. Returns whether it is the end acknowledgement of the message that was given last between its nodes by its
    /// transport: one of the same PGN and size, and the first. It fails only if memory is refused; what it leaves then is not specified.
    pub fn meet(&mut self, iface: Iface, frame: &Frame) -> Result<bool, AllocError>
        ensures { IfOk result (λ is. (self.new, is) ≡ met iface frame.now self.old) }
    {
        let Some((wire, from, to)) = read(frame) else {
            return Ok(false);
        };
        self.meet_wire(iface, from, to, &wire)
    }

    /// The kind of a frame whose message isn't under way. The end acknowledgement of the message that was given last belongs to that, and is
    /// none. It fails only if memory is refused; what it leaves then is not specified.
    pub fn left(
        &mut self,
        stray: Option<Stray>,
        iface: Iface,
        frame: &Frame,
    ) -> Result<Option<Stray>, AllocError>
        ensures { IfOk result (λ left. (self.new, left) ≡ stray_left stray iface frame.now self.old) }
    {
        match stray {
            None => Ok(None),
            Some(Stray::Packet) => Ok(stray),
            Some(Stray::Window) => Ok(stray),
            Some(Stray::Acknowledgement) => {
                if self.meet(iface, frame)? {
                    return Ok(None);
                }
                Ok(stray)
            }
        }
    }
}
