//! The receiver of a connection, which changes in place (SAE J1939-21, TP.DT; ISO 11783-3, ETP.CM_DPO, ETP.DT).
ghost use Rattle.std.specs.Prelude.{◌≡◌, ℕ, ◌+◌, ◌*◌, ◌<◌, ◌≤◌, Bool, true, false, None, length};
ghost use Rattle.std.specs.Bool.{OnTrue, OnFalse};
ghost use Rattle.tick_timers.specs.Timers.{is_due as is_due_at};
ghost use Rattle.tx_queue.specs.Queue.{queue_limit};
ghost use Rattle.tp_wire.specs.Reason.{reason_byte};
ghost use Rattle.tp_wire.specs.Sizes.{IsSizeOf};
ghost use Rattle.tp_wire.specs.declared.constants.TheConstants.{ETP_MAX_WINDOW};
ghost use Rattle.tp_wire.specs.declared.wire.Kind.{Kind};
ghost use Rattle.tp_wire.specs.declared.reason.AbortReason.TheVariants.{Other};
ghost use Rattle.tp_wire.specs.declared.wire.Kind.TheVariants.{Tp, Etp};
ghost use Rattle.tp_wire.specs.declared.wire.Wire.TheVariants.{Cm, Packet};
ghost use Rattle.tp_wire.specs.declared.wire.CmFrame.TheVariants.{EtpDpo};
ghost use Rattle.seg_cut.specs.Packets.{packet_count};
ghost use Rattle.seg_cut.specs.Join.{held, wants_last};
ghost use Rattle.responder.specs.Answers.{abort_frame};
ghost use Rattle.responder.specs.Unfinished.{begun, finished, with_packet};
ghost use Rattle.responder.specs.Readers.{unfinished_of, timer_of, is_holding};
ghost use Rattle.responder.specs.Asking.{asking, asked};
ghost use Rattle.responder.specs.Steps.{completes as completes_at};
ghost use Rattle.responder.specs.AwaitPacket.{aborted};
ghost use Rattle.responder.specs.Room.{HasRoom};
ghost use Rattle.responder.specs.Receiver.{is_inner, prepared_step, awaits_last, Leads, Fires, Answers, EndsWindow};
ghost use Rattle.responder.specs.StateFields.{FitsWindow};
ghost use Rattle.responder.specs.declared.flow.Flow.{Flow};
ghost use Rattle.responder.specs.declared.received.Received.TheVariants.{On, Complete};

mod image;

use crate::finished::Finished;
use crate::flow::Flow;
use crate::peer::Peer;
use crate::stage::{Stage, ask};
use crate::unfinished::Unfinished;
use bus_frame::Frame;
pub use image::ReceiverImage;
use pgn_ids::WirePgn;
use seg_cut::Join;
use std::marker::Model;
use tick_timers::{T1, Timer};
use tp_wire::{AbortReason, CmFrame, Kind, Wire};
use tx_queue::TxQueue;

/// The receiver of a connection: it awaits the packets that it granted, or is on hold and has granted none. It must be spent.
pub struct Receiver {
    pub(crate) message: Unfinished,
    pub(crate) stage: Stage,
    pub(crate) timer: Timer,
}

impl Model for Receiver {
    ghost use Rattle.responder.specs.declared.in_state.InState.{InState};

    ghost Value = { InState };

    ghost use Rattle.responder.specs.StateFields.{receiver_value, IsReceiver};

    ghost view = { receiver_value };

    ghost invariant = { IsReceiver };
}

/// What is left to do after a frame, or a timer that fired. If it is anything but `Nothing`, nothing has changed yet.
#[derive(Clone, Copy, Debug, PartialEq, Eq)]
pub enum Left {
    /// The step is made, and its answer is queued.
    Nothing,
    /// The frame completes the message: `complete` ends the receiver with it.
    Message,
    /// The session is to be ended by an abort for this reason, which `end` makes.
    Abort(AbortReason),
    /// No memory was found for the next window of ETP.
    NoMemory,
}

/// Accepts an RTS of a kind at tick `now`: the receiver, and the frame to be queued, which is the first CTS, or a hold if the session
/// is held (SAE J1939-21, TP.CM_CTS; ISO 11783-3, ETP.CM_CTS).
///
/// A CTS grants `most` packets at most. The join is that of a message of a size that the kind carries, and has no packet yet. In TP
/// it has room for all packets, so that no later call takes memory. In ETP it has room for the first window if the session is open
/// and needs none if it is held, and has room for 64 packets at most.
pub fn begin(
    kind: Kind,
    peer: Peer,
    most: u8,
    join: Join,
    flow: Flow,
    now: u64,
) -> (Receiver, Frame)
    requires size { IsSizeOf kind join.size }
    requires empty { join.next ≡ 1 }
    requires some { 0 < most }
    requires narrow { most ≤ ETP_MAX_WINDOW }
    requires whole { kind ≡ Tp → packet_count join.size ≤ join.room }
    requires first_window { HasRoom flow (begun kind peer most join) }
    requires within_window { kind ≡ Etp → join.room ≤ ETP_MAX_WINDOW }
    ensures state { result.0 ≡ asking (begun kind peer most join) flow now }
    ensures frame { result.1 ≡ asked (begun kind peer most join) flow }
{
    Receiver::asking(Unfinished::new(kind, peer, most, join), flow, now)
}

impl Receiver {
    /// Asks for the window from the next packet on, or asks the peer to hold.
    pub(crate) fn asking(message: Unfinished, flow: Flow, now: u64) -> (Receiver, Frame)
        requires room { HasRoom flow message }
        requires within_window { FitsWindow message }
        ensures state { result.0 ≡ asking message flow now }
        ensures frame { result.1 ≡ asked message flow }
    {
        let (stage, timer, frame) = ask(&message, flow, now);
        let receiver = Receiver {
            message,
            stage,
            timer,
        };
        (receiver, frame)
    }

    /// Takes a frame of its peer at tick `now`, by the first row that fits (SAE J1939-21, TP.DT; ISO 11783-3, ETP.CM_DPO,
    /// ETP.DT): a packet of its kind, and in ETP a DPO; everything else leaves it as it is.
    ///
    /// When a window ends, `room` says whether the message still has room at its ports. Without it the session is to be ended by
    /// an abort for want of resources. With it the next window is granted, or a hold is sent if `flow` says that the session is
    /// held; the frame is queued behind those of a queue. In ETP the window's memory is taken first. The last packet completes
    /// the message whatever they say.
    #[inline(always)]
    pub fn take(
        &mut self,
        wire: &Wire<'_>,
        room: bool,
        flow: Flow,
        now: u64,
        queue: &mut TxQueue,
    ) -> Left
        requires { length queue.old < queue_limit }
        ensures { Leads self.old wire.now room flow now result self.new queue.old queue.new }
    {
        match wire {
            Wire::Packet {
                kind,
                sequence,
                bytes,
            } => {
                if self.accept(*kind, *sequence, bytes.array(), now) {
                    return Left::Nothing;
                }
                self.take_other(*kind, *sequence, bytes.array(), room, flow, now, queue)
            }
            Wire::Cm(frame) if !self.take_cm(frame) => Left::Abort(AbortReason::Other),
            _ => Left::Nothing,
        }
    }

    /// Accepts a packet inside a window, as most frames are. For any other frame it returns false, and nothing has changed.
    #[inline(always)]
    pub(crate) fn accept(&mut self, kind: Kind, sequence: u8, bytes: &[u8; 7], now: u64) -> bool
        ensures value { result ≡ is_inner self.old (Packet kind sequence bytes.now) }
        ensures step { OnTrue result ((room : Bool) (flow : Flow) → prepared_step self.old (Packet kind sequence bytes.now) room flow now ≡ On self.new None) }
        ensures other { OnFalse result (self.new ≡ self.old) }
    {
        let Stage::Awaiting { granted: _, until } = self.stage else {
            return false;
        };
        if !self.message.is_next(kind, sequence) || self.message.next() >= until {
            return false;
        }
        self.message.put(bytes);
        self.timer = Timer::start(now, T1);
        true
    }

    // Takes a packet that isn't inside a window, and queues the answer. Out of line, since such packets are few.
    #[inline(never)]
    #[tactic(auto, using(crate::proofs::Receivers::queued, crate::proofs::Receivers::not_queued))]
    fn take_other(
        &mut self,
        kind: Kind,
        sequence: u8,
        bytes: &[u8; 7],
        room: bool,
        flow: Flow,
        now: u64,
        queue: &mut TxQueue,
    ) -> Left
        requires place { length queue.old < queue_limit }
        requires other { is_inner self.old (Packet kind sequence bytes.now) ≡ false }
        ensures { Leads self.old (Packet kind sequence bytes.now) room flow now result self.new queue.old queue.new }
    {
        let mut answer = None;
        let left = self.take_packet(kind, sequence, bytes, room, flow, now, &mut answer);
        match answer {
            Some(frame) => queue.push_free(frame),
            None => {}
        }
        left
    }

    /// Takes a packet that isn't inside a window.
    pub(crate) fn take_packet(
        &mut self,
        kind: Kind,
        sequence: u8,
        bytes: &[u8; 7],
        room: bool,
        flow: Flow,
        now: u64,
        answer: &mut Option<Frame>,
    ) -> Left
        requires other { is_inner self.old (Packet kind sequence bytes.now) ≡ false }
        requires silent { answer.old ≡ None }
        ensures { Answers self.old (Packet kind sequence bytes.now) room flow now result self.new answer.new }
    {
        let (number, next) = (self.message.number(sequence), self.message.next());
        if !self.message.is_of(kind) || number < next {
            return Left::Nothing;
        }
        let Stage::Awaiting { granted: _, until } = self.stage else {
            return Left::Abort(AbortReason::Other);
        };
        if number > next || next > until {
            return Left::Abort(AbortReason::Other);
        }
        if self.message.wants_last() {
            return Left::Message;
        }
        if !room {
            return Left::Abort(AbortReason::Resources);
        }
        self.end_window(bytes, flow, now, answer)
    }

    // Accepts the last packet of a window, which is not the last of the message, and asks for the next window.
    fn end_window(
        &mut self,
        bytes: &[u8; 7],
        flow: Flow,
        now: u64,
        answer: &mut Option<Frame>,
    ) -> Left
        requires to_come { wants_last (unfinished_of self.old).join ≡ false }
        requires room { 0 < (unfinished_of self.old).join.room }
        requires silent { answer.old ≡ None }
        ensures { EndsWindow self.old bytes.now flow now result self.new answer.new }
    {
        if flow == Flow::Open && self.message.make_window_room(1).is_err() {
            return Left::NoMemory;
        }
        self.message.put(bytes);
        let (stage, timer, frame) = ask(&self.message, flow, now);
        self.stage = stage;
        self.timer = timer;
        *answer = Some(frame);
        Left::Nothing
    }

    /// Takes a connection management frame; only a DPO of ETP is for a receiver. If it is wrong, this returns false, nothing has
    /// changed, and the session must be ended.
    #[inline(never)]
    pub(crate) fn take_cm(&mut self, frame: &CmFrame) -> bool
        ensures step { OnTrue result ((room : Bool) (flow : Flow) (now : ℕ) → prepared_step self.old (Cm frame.now) room flow now ≡ On self.new None) }
        ensures wrong { OnFalse result ((room : Bool) (flow : Flow) (now : ℕ) → prepared_step self.old (Cm frame.now) room flow now ≡ aborted (unfinished_of self.old) Other) }
        ensures kept { OnFalse result (self.new ≡ self.old) }
    {
        match frame {
            CmFrame::EtpDpo {
                packets,
                offset,
                pgn,
            } => self.take_dpo(*packets, *offset, *pgn),
            _ => true,
        }
    }

    // Takes a DPO.
    fn take_dpo(&mut self, packets: u8, offset: u32, pgn: WirePgn) -> bool
        ensures step { OnTrue result ((room : Bool) (flow : Flow) (now : ℕ) → prepared_step self.old (Cm (EtpDpo packets offset pgn)) room flow now ≡ On self.new None) }
        ensures wrong { OnFalse result ((room : Bool) (flow : Flow) (now : ℕ) → prepared_step self.old (Cm (EtpDpo packets offset pgn)) room flow now ≡ aborted (unfinished_of self.old) Other) }
        ensures kept { OnFalse result (self.new ≡ self.old) }
    {
        if !self.message.is_of(Kind::Etp) || self.message.is_of_another(pgn) {
            return true;
        }
        let next = self.message.next();
        let granted = match self.stage {
            Stage::Awaiting { granted, until: _ } => granted,
            Stage::OnHold => next - 1,
        };
        if packets == 0 || offset > next - 1 || offset + u32::from(packets) > granted {
            return false;
        }
        let until = offset + u32::from(packets);
        self.message.set_offset(offset);
        if until >= next {
            self.stage = Stage::Awaiting { granted, until };
        }
        true
    }

    /// Ends with the last packet, which `take` left: the message with all its packets, in the size that was announced.
    #[tactic(auto, using(crate::proofs::Receivers::has_room))]
    pub fn complete(self, packet: &[u8; 7]) -> Finished
        requires { awaits_last self ≡ true }
        ensures value { result ≡ finished (with_packet (unfinished_of self) packet.now) }
        ensures step { (kind : Kind) (sequence : ℕ) (room : Bool) (flow : Flow) (now : ℕ) → completes_at self (Packet kind sequence packet.now) ≡ true
            → prepared_step self (Packet kind sequence packet.now) room flow now ≡ Complete result }
        ensures size { result.size ≡ (unfinished_of self).join.size }
    {
        let Receiver {
            message,
            stage: _,
            timer: _,
        } = self;
        message.finish(packet)
    }

    /// Ends by an abort, which is to be queued: for the reason that a call left, or since nobody takes the message any more.
    pub fn end(self, reason: AbortReason) -> Frame
        ensures { result ≡ abort_frame (unfinished_of self).kind (unfinished_of self).peer (reason_byte reason) }
    {
        self.into_message().abort_with(reason)
    }

    /// Its timer fires at tick `now`. T1 and T2 leave an abort for the timeout. At the end of a hold the next window is granted, or a
    /// hold is sent again if the session is still held; the frame is queued behind those of a queue. In ETP the window's memory is
    /// taken first.
    pub fn fire(&mut self, flow: Flow, now: u64, queue: &mut TxQueue) -> Left
        requires { length queue.old < queue_limit }
        ensures { Fires self.old flow now result self.new queue.old queue.new }
    {
        let Stage::OnHold = self.stage else {
            return Left::Abort(AbortReason::Timeout);
        };
        if flow == Flow::Open && self.message.make_window_room(0).is_err() {
            return Left::NoMemory;
        }
        let (stage, timer, frame) = ask(&self.message, flow, now);
        self.stage = stage;
        self.timer = timer;
        queue.push_free(frame);
        Left::Nothing
    }

    /// Its abort was taken: it ends, and nothing is queued.
    pub fn abort(self) {
        self.into_message().end();
    }

    /// Frames were missed: it ends, and nothing is queued.
    pub fn overrun(self) {
        self.into_message().end();
    }

    /// The message under way, whose receiver is spent.
    pub(crate) fn into_message(self) -> Unfinished
        ensures { result ≡ unfinished_of self }
    {
        let Receiver {
            message,
            stage: _,
            timer: _,
        } = self;
        message
    }

    /// The kind of connection that carries the message.
    pub fn kind(&self) -> Kind
        ensures { result ≡ (unfinished_of self.now).kind }
    {
        self.message.kind()
    }

    /// The peer that sends the message.
    pub fn peer(&self) -> Peer
        ensures { result ≡ (unfinished_of self.now).peer }
    {
        self.message.peer()
    }

    /// The size of the message in bytes.
    pub fn size(&self) -> u32
        ensures { result ≡ (unfinished_of self.now).join.size }
    {
        self.message.size()
    }

    /// Whether a step with this frame would complete the message.
    pub fn completes(&self, wire: &Wire<'_>) -> bool
        ensures { result ≡ completes_at self.now wire.now }
    {
        let Stage::Awaiting { granted: _, until } = self.stage else {
            return false;
        };
        match wire {
            Wire::Packet {
                kind,
                sequence,
                bytes: _,
            } => {
                self.message.is_next(*kind, *sequence)
                    && self.message.wants_last()
                    && self.message.next() <= until
            }
            _ => false,
        }
    }

    /// How many bytes of memory it holds. In ETP those are the bytes received and a window at most, and, while a step is prepared,
    /// the packet that the step accepts.
    pub fn memory(&self) -> usize
        ensures value { result ≡ held (unfinished_of self.now).join }
        ensures small { (unfinished_of self.now).kind ≡ Etp → result ≤ length (unfinished_of self.now).join.bytes + 7 * (1 + ETP_MAX_WINDOW) }
    {
        self.message.memory()
    }

    /// Its timer: T1 after a packet, T2 after a CTS, TH on hold.
    pub fn timer(&self) -> Timer
        ensures { result ≡ timer_of self.now }
    {
        self.timer
    }

    /// Whether it is on hold.
    pub fn is_holding(&self) -> bool
        ensures { result ≡ is_holding self.now }
    {
        match self.stage {
            Stage::Awaiting { .. } => false,
            Stage::OnHold => true,
        }
    }

    /// Whether its timer is due at tick `now`.
    pub fn is_due(&self, now: u64) -> bool
        ensures { result ≡ is_due_at (timer_of self.now) now }
    {
        self.timer.is_due(now)
    }
}
