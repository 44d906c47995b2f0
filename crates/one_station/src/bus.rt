//! Frames from the bus and for the bus.
ghost use Rattle.std.specs.Prelude.{◌≡◌, None, Ok, IfOk, IfErr, OnOk, OnErr};
ghost use Rattle.std.specs.Bool.{OnTrue, OnFalse};
ghost use Rattle.one_station.specs.declared.error.Fed.TheVariants.{Taken};
ghost use Rattle.segment_law.specs.Readers.{front_at, next_pump};
ghost use Rattle.one_station.specs.declared.error.NodeError.TheVariants.{OutOfMemory};
ghost use Rattle.segment_law.specs.declared.call.Call.TheVariants.{Pump};
ghost use Rattle.one_station.specs.Node.{Did};
ghost use Rattle.one_station.specs.Answers.{IsAnswered, IsFed, IsTakenIn, IsSent, IsPassedBy, first_cause, front_calls};

use crate::error::{Fed, NodeError};
use crate::look::{look, pass, put};
use crate::node::{Node, make_one};
use broadcast_law::stations_queue_their_own;
use bus_frame::Frame;
use node_parts::comes_from;
use pgn_ids::Address;
use segment_core::{Call, Events, Refusal};
use std::alloc::AllocError;
use tx_queue::MAX_FRAMES;

impl Node {
    /// Feeds a frame of another node, read from the bus, and the node looks at it: with room for what it brings, or without if there
    /// is no memory (`Fed::WithoutRoom`).
    ///
    /// What was under way when frames were missed ends first, if it has yet to. If that finds no memory, the frame is passed by
    /// (`Fed::PassedBy`).
    ///
    /// Refused as `StationAddress` if the frame has the node's own source address, as `TxFull` if the transmit queue has no place for
    /// an answer, and else as `OutOfMemory` if there is no place for its events and memory is refused. `send` makes the place of an
    /// outcome. The node doesn't have the frame then: feed it again before any other, or report it by `missed`.
    pub fn feed(&mut self, frame: Frame) -> Result<Fed, NodeError>
        ensures { IsFed self.old frame self.new result }
    {
        if !self.make_ready() {
            return Ok(Fed::PassedBy);
        }
        match self.early_refusal(&frame) {
            Some(error) => Err(error),
            None => self.take_in(frame),
        }
    }

    // Why a frame isn't fed, whatever the inner bus says to it.
    fn early_refusal(&self, frame: &Frame) -> Option<NodeError>
        ensures { result ≡ first_cause self.now frame.now None }
    {
        if comes_from(frame, self.address) {
            return Some(NodeError::Refused(Refusal::StationAddress));
        }
        if self.segment.queue_len(self.address) >= MAX_FRAMES {
            return Some(NodeError::Refused(Refusal::TxFull));
        }
        None
    }

    // Any other frame is put on the inner bus, unless that refuses it, and the station takes it. Usually both are done at once.
    #[inline(always)]
    fn take_in(&mut self, frame: Frame) -> Result<Fed, NodeError>
        requires { first_cause self.old frame None ≡ None }
        ensures { IsTakenIn self.old frame self.new result }
    {
        match self.take_at_once(&frame) {
            Ok(true) => Ok(Fed::Taken),
            Ok(false) => self.take_apart(frame, true),
            Err(_) => self.take_apart(frame, false),
        }
    }

    // It is put and taken at once, with room, if there is a place for its events, and the bus does that. False if not; then, and if memory
    // is refused, nothing changes.
    #[inline(always)]
    fn take_at_once(&mut self, frame: &Frame) -> Result<bool, AllocError>
        requires { first_cause self.old frame.now None ≡ None }
        ensures taken { IfOk result (λ is_taken. OnTrue is_taken (IsTakenIn self.old frame.now self.new (Ok Taken))) }
        ensures other { IfOk result (λ is_taken. OnFalse is_taken (self.new ≡ self.old)) }
        ensures err { OnErr result (self.new ≡ self.old) }
    {
        if !self.told.has_place_to_give() {
            return Ok(false);
        }
        let mut events = Events::none(self.alloc);
        match self
            .segment
            .inject_and_take(self.address, frame, &mut events)
        {
            Ok(true) => {}
            Ok(false) => return Ok(false),
            Err(error) => return Err(error),
        }
        if !events.is_empty() {
            self.told.keep(events);
        }
        Ok(true)
    }

    // It is put, and then taken: with room, if it is to be tried, or without.
    #[inline(never)]
    fn take_apart(&mut self, frame: Frame, room: bool) -> Result<Fed, NodeError>
        requires { first_cause self.old frame None ≡ None }
        ensures { IsTakenIn self.old frame self.new result }
    {
        match make_one(&self.segment, &mut self.told, &frame) {
            Ok(()) => {}
            Err(error) => return Err(error),
        }
        if let Err(cause) = put(&mut self.segment, Call::Inject { frame }) {
            return Err(NodeError::Refused(cause));
        }
        let station = self.address;
        Ok(look(self.alloc, &mut self.segment, &mut self.told, station, room))
    }

    /// The first frame of the transmit queue, or none if that is empty. It is what `front` returns then, and stays the first until
    /// `sent` says that it was put.
    pub fn queued(&self) -> Option<Frame>
        ensures { result ≡ front_at self.now.segment self.now.address }
    {
        self.segment.front(self.address)
    }

    /// The lowest destination, 0 to 255, that `pump` has something to queue to now, or none. It is the one that `front` chooses.
    pub fn next_pump(&self) -> Option<Address>
        ensures { result ≡ next_pump self.now.segment self.now.address }
    {
        self.segment.next_pump(self.address)
    }

    /// Queues the next frames of the lane to a destination: at most eight. It is for a program that chooses itself which lane is next;
    /// else `front` does it.
    ///
    /// Refused as `NoSuchStation` for address 254; as `NothingToSend` if no message is pending or it awaits a frame; as `NotYet` if it
    /// is too soon for the next frame of a broadcast; as `TxFull` if fewer than eight places of the transmit queue are free; and else
    /// as `OutOfMemory` if memory is refused.
    pub fn pump(&mut self, to: Address) -> Result<(), NodeError>
        ensures { IsAnswered self.old (Pump self.old.address to) self.new result }
    {
        let station = self.address;
        self.make(Call::Pump { station, to })
    }

    /// The next frame for the bus, or none if there is nothing to put now. It stays the next until `sent` says that it was put. If the
    /// transmit queue is empty, it queues the next frames of the lowest lane that has some.
    ///
    /// Refused as `OutOfMemory` if memory is refused.
    #[tactic(auto, using(crate::proofs::Fronts::front_memory))]
    pub fn front(&mut self) -> Result<Option<Frame>, NodeError>
        ensures frame { IfOk result (λ frame. frame ≡ front_at self.new.segment self.old.address) }
        ensures calls { OnOk result (Did self.old (front_calls self.old) self.new) }
        ensures memory { IfErr result (λ error. error ≡ OutOfMemory) }
        ensures err { OnErr result (self.new ≡ self.old) }
    {
        if let Some(frame) = self.queued() {
            return Ok(Some(frame));
        }
        let Some(to) = self.next_pump() else {
            return Ok(None);
        };
        if let Err(error) = self.pump(to) {
            return Err(error);
        }
        Ok(self.queued())
    }

    /// The frame that `front` returned was put on the bus. The station doesn't look at its own frames, and passes it by. That takes no
    /// memory.
    ///
    /// What was under way when frames were missed ends first, if it has yet to. If that finds no memory, it is refused as
    /// `OutOfMemory`: make the call again then, since the frame must not be put twice. Else refused as `NothingToSend` if the transmit
    /// queue is empty.
    pub fn sent(&mut self) -> Result<(), NodeError>
        ensures { IsSent self.old self.new result }
    {
        if !self.make_ready() {
            return Err(NodeError::OutOfMemory);
        }
        self.pass_own()
    }

    // The first frame of the transmit queue is put on the inner bus. It is the station's own, which passes it by: usually at once.
    #[inline(always)]
    fn pass_own(&mut self) -> Result<(), NodeError>
        ensures { IsPassedBy self.old self.new result }
    {
        if self.segment.transmit_and_take(self.address) {
            return Ok(());
        }
        self.pass_apart()
    }

    // It is put, and then passed by.
    #[inline(never)]
    fn pass_apart(&mut self) -> Result<(), NodeError>
        ensures { IsPassedBy self.old self.new result }
    {
        // A law: the frame is the station's own. The call does nothing.
        stations_queue_their_own();
        let station = self.address;
        let _at_most_full = self.segment.queue_len(station);
        if let Err(cause) = put(&mut self.segment, Call::Transmit { station }) {
            return Err(NodeError::Refused(cause));
        }
        pass(&mut self.segment, station);
        Ok(())
    }
}
