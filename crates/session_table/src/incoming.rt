//! The state of an incoming session, whatever its kind.
ghost use Rattle.std.specs.Prelude.{◌≡◌, ◌<◌, length};
ghost use Rattle.tick_timers.specs.Timers.{is_due as is_due_at};
ghost use Rattle.tx_queue.specs.Queue.{queue_limit};
ghost use Rattle.session_table.specs.Incoming.{kind_of, pgn_of, timer_of, ending_frame};
ghost use Rattle.session_table.specs.Leading.{BroadcastLeads, by_frame, by_timer};

mod image;

use crate::key::SessionKind;
use bam_session::{BamIn, BamLeft};
use bus_frame::Frame;
pub use image::IncomingImage;
use pgn_ids::WirePgn;
use responder::{Flow, Left, Receiver};
use tick_timers::Timer;
use tp_wire::{AbortReason, Wire};
use tx_queue::TxQueue;

/// The state of an incoming session, whatever its kind. It must be spent.
pub enum Incoming {
    /// A broadcast message.
    Broadcast(BamIn),
    /// A connection of either transport.
    Connection(Receiver),
}

impl Incoming {
    /// The kind of its session.
    pub fn kind(&self) -> SessionKind
        ensures { result ≡ kind_of self.now }
    {
        match self {
            Incoming::Broadcast(_) => SessionKind::Broadcast,
            Incoming::Connection(state) => SessionKind::of(state.kind()),
        }
    }

    /// The PGN field of its BAM or RTS, as received.
    pub fn pgn(&self) -> WirePgn
        ensures { result ≡ pgn_of self.now }
    {
        match self {
            Incoming::Broadcast(state) => state.pgn(),
            Incoming::Connection(state) => state.peer().pgn(),
        }
    }

    /// Its timer.
    pub fn timer(&self) -> Timer
        ensures { result ≡ timer_of self.now }
    {
        match self {
            Incoming::Broadcast(state) => state.timer(),
            Incoming::Connection(state) => state.timer(),
        }
    }

    /// Whether its timer is due at tick `now`.
    pub fn is_due(&self, now: u64) -> bool
        ensures { result ≡ is_due_at (timer_of self.now) now }
    {
        match self {
            Incoming::Broadcast(state) => state.is_due(now),
            Incoming::Connection(state) => state.is_due(now),
        }
    }

    /// Takes a frame of its source at tick `now`, and changes in place, by the first row that fits (SAE J1939-21, TP.DT; ISO
    /// 11783-3, ETP.DT, ETP.CM_DPO). The step's answer is queued behind the frames of a queue. If this returns anything but
    /// `Nothing`, nothing has changed yet: its message is complete, it is to be ended, or memory for a window is missing. Only a
    /// connection asks for `room` and `flow`.
    #[inline(always)]
    pub fn take(
        &mut self,
        wire: &Wire<'_>,
        room: bool,
        flow: Flow,
        now: u64,
        queue: &mut TxQueue,
    ) -> Left
        requires { length queue.old < queue_limit }
        ensures { by_frame wire.now room flow now self.old result self.new queue.old queue.new }
    {
        match self {
            Incoming::Broadcast(state) => take_broadcast(state, wire, now),
            Incoming::Connection(state) => state.take(wire, room, flow, now, queue),
        }
    }

    /// Its timer fires at tick `now` (SAE J1939-21, timers T1, T2 and Th): a connection on hold asks again or continues, and its
    /// frame is queued behind the frames of a queue; any other session is to be ended. If this returns anything but `Nothing`,
    /// nothing has changed yet.
    pub fn fire(&mut self, flow: Flow, now: u64, queue: &mut TxQueue) -> Left
        requires { length queue.old < queue_limit }
        ensures { by_timer flow now self.old result self.new queue.old queue.new }
    {
        match self {
            Incoming::Broadcast(_) => Left::Abort(AbortReason::Timeout),
            Incoming::Connection(state) => state.fire(flow, now, queue),
        }
    }

    /// It ends before its message is whole: a connection by the abort for a reason, which is to be queued, a broadcast without a
    /// frame.
    pub fn end(self, reason: AbortReason) -> Option<Frame>
        ensures { result ≡ ending_frame self reason }
    {
        match self {
            Incoming::Broadcast(state) => {
                state.close();
                None
            }
            Incoming::Connection(state) => Some(state.end(reason)),
        }
    }

    /// Frames were missed: it ends, and nothing is queued.
    pub fn overrun(self) {
        match self {
            Incoming::Broadcast(state) => state.overrun(),
            Incoming::Connection(state) => state.overrun(),
        }
    }
}

// A broadcast takes a frame of its source: one whose packets are out of order is to be ended.
#[inline(always)]
fn take_broadcast(state: &mut BamIn, wire: &Wire<'_>, now: u64) -> Left
    ensures { BroadcastLeads state.old wire.now now result state.new }
{
    match state.take(wire, now) {
        BamLeft::Nothing => Left::Nothing,
        BamLeft::Message => Left::Message,
        BamLeft::Dropped => Left::Abort(AbortReason::Other),
    }
}
