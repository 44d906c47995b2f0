//! The receiver of a connection as typed states, by value.
ghost use Rattle.std.specs.Prelude.{◌≡◌, ◌<◌, OnOk, OnErr};
ghost use Rattle.tick_timers.specs.Timers.{is_due as is_due_at};
ghost use Rattle.tp_wire.specs.Reason.{reason_byte};
ghost use Rattle.tp_wire.specs.declared.reason.AbortReason.TheVariants.{Resources};
ghost use Rattle.tp_wire.specs.declared.wire.Kind.TheVariants.{Etp};
ghost use Rattle.tp_wire.specs.declared.wire.Wire.TheVariants.{Cm, Packet};
ghost use Rattle.seg_cut.specs.Join.{held};
ghost use Rattle.responder.specs.Answers.{abort_frame};
ghost use Rattle.responder.specs.Readers.{unfinished_of, timer_of};
ghost use Rattle.responder.specs.Steps.{stepped, expired};
ghost use Rattle.responder.specs.Room.{IsPrepared, IsPreparedToExpire, grants_next as grants_next_at, prepared, prepared_to_expire};

use crate::flow::Flow;
use crate::received::Received;
use crate::receiver::{Left, Receiver};
use crate::stage::Stage;
use crate::states::{AwaitPacket, Holding};
use bus_frame::Frame;
use std::alloc::AllocError;
use tp_wire::{AbortReason, CmFrame, Kind, Wire};

/// The receiver of a connection, in whichever state it is. It must be spent.
pub enum InState {
    /// The receiver awaits the packets that it granted.
    AwaitPacket(AwaitPacket),
    /// The receiver is on hold, and has granted none.
    Holding(Holding),
}

impl Receiver {
    /// This receiver as the state that it is in.
    pub fn into_state(self) -> InState
        ensures { result ≡ self }
    {
        let Receiver {
            message,
            stage,
            timer,
        } = self;
        match stage {
            Stage::Awaiting { granted, until } => InState::AwaitPacket(AwaitPacket {
                message,
                granted,
                until,
                timer,
            }),
            Stage::OnHold => InState::Holding(Holding { message, timer }),
        }
    }
}

impl InState {
    /// This receiver in the form that changes in place.
    pub fn into_receiver(self) -> Receiver
        ensures { result ≡ self }
    {
        match self {
            InState::AwaitPacket(state) => {
                let AwaitPacket {
                    message,
                    granted,
                    until,
                    timer,
                } = state;
                Receiver {
                    message,
                    stage: Stage::Awaiting { granted, until },
                    timer,
                }
            }
            InState::Holding(state) => {
                let Holding { message, timer } = state;
                Receiver {
                    message,
                    stage: Stage::OnHold,
                    timer,
                }
            }
        }
    }

    /// Makes the room that the step with this frame needs: in ETP that of the next window, if the step grants it. TP has room for
    /// the whole message since it began. An error changes nothing.
    pub fn prepare(&mut self, wire: &Wire<'_>, room: bool, flow: Flow) -> Result<(), AllocError>
        ensures etp_alone { OnErr result ((unfinished_of self.old).kind ≡ Etp) }
        ensures ok { OnOk result (self.new ≡ prepared self.old wire.now room flow) }
        ensures ready { OnOk result (IsPrepared self.new wire.now room flow) }
        ensures full { OnErr result (held (unfinished_of self.old).join < held (unfinished_of (prepared self.old wire.now room flow)).join) }
        ensures err { OnErr result (self.new ≡ self.old) }
    {
        match self {
            InState::AwaitPacket(state) if grants_next(state, wire, room, flow) => {
                state.message.make_window_room(1)
            }
            _ => Ok(()),
        }
    }

    /// Takes a frame of its peer at tick `now`, as `Receiver::take` does (SAE J1939-21, TP.DT; ISO 11783-3, ETP.CM_DPO,
    /// ETP.DT). It takes no memory, and asks that `prepare` made what it needs.
    pub fn step(self, wire: &Wire<'_>, room: bool, flow: Flow, now: u64) -> Received
        requires { IsPrepared self wire.now room flow }
        ensures { result ≡ stepped self wire.now room flow now }
    {
        match wire {
            Wire::Packet {
                kind,
                sequence,
                bytes,
            } => self.step_packet(*kind, *sequence, bytes.array(), room, flow, now),
            Wire::Cm(frame) => self.step_cm(frame, room, flow, now),
            _ => Received::On(self, None),
        }
    }

    // Takes a connection management frame.
    fn step_cm(self, frame: &CmFrame, room: bool, flow: Flow, now: u64) -> Received
        requires { IsPrepared self (Cm frame.now) room flow }
        ensures { result ≡ stepped self (Cm frame.now) room flow now }
    {
        let mut receiver = self.into_receiver();
        if receiver.take_cm(frame) {
            return Received::On(receiver.into_state(), None);
        }
        Received::Ended(Some(receiver.end(AbortReason::Other)))
    }

    // Takes a packet.
    #[tactic(auto, using(crate::proofs::Receivers::stays_prepared))]
    fn step_packet(
        self,
        kind: Kind,
        sequence: u8,
        bytes: &[u8; 7],
        room: bool,
        flow: Flow,
        now: u64,
    ) -> Received
        requires { IsPrepared self (Packet kind sequence bytes.now) room flow }
        ensures { result ≡ stepped self (Packet kind sequence bytes.now) room flow now }
    {
        let mut receiver = self.into_receiver();
        if receiver.accept(kind, sequence, bytes, now) {
            return Received::On(receiver.into_state(), None);
        }
        let mut answer = None;
        match receiver.take_packet(kind, sequence, bytes, room, flow, now, &mut answer) {
            Left::Nothing => Received::On(receiver.into_state(), answer),
            Left::Message => Received::Complete(receiver.complete(bytes)),
            Left::Abort(reason) => Received::Ended(Some(receiver.end(reason))),
            Left::NoMemory => unreachable!(),
        }
    }

    /// Whether its timer is due at tick `now`.
    pub fn is_due(&self, now: u64) -> bool
        ensures { result ≡ is_due_at (timer_of self.now) now }
    {
        match self {
            InState::AwaitPacket(state) => state.timer.is_due(now),
            InState::Holding(state) => state.timer.is_due(now),
        }
    }

    /// Makes the room that its firing timer needs: in ETP that of the next window, if a hold ends. An error changes nothing.
    pub fn prepare_expire(&mut self, flow: Flow) -> Result<(), AllocError>
        ensures etp_alone { OnErr result ((unfinished_of self.old).kind ≡ Etp) }
        ensures ok { OnOk result (self.new ≡ prepared_to_expire self.old flow) }
        ensures ready { OnOk result (IsPreparedToExpire self.new flow) }
        ensures full { OnErr result (held (unfinished_of self.old).join < held (unfinished_of (prepared_to_expire self.old flow)).join) }
        ensures err { OnErr result (self.new ≡ self.old) }
    {
        match (self, flow) {
            (InState::Holding(state), Flow::Open) => state.message.make_window_room(0),
            _ => Ok(()),
        }
    }

    /// Its timer fired at tick `now`, as the `expire` of its state says: it ends by an abort, or sends a hold or a CTS. It takes
    /// no memory, and asks that `prepare_expire` made what it needs.
    pub fn expire(self, flow: Flow, now: u64) -> Received
        requires { IsPreparedToExpire self flow }
        ensures { result ≡ expired self flow now }
    {
        match self {
            InState::AwaitPacket(state) => Received::Ended(Some(state.expire())),
            InState::Holding(state) => {
                let (next, frame) = state.expire(flow, now);
                Received::On(next, Some(frame))
            }
        }
    }

    /// Nobody takes its message any more: it ends by the abort for want of resources, which is to be queued.
    pub fn close(self) -> Frame
        ensures { result ≡ abort_frame (unfinished_of self).kind (unfinished_of self).peer (reason_byte Resources) }
    {
        self.into_receiver().end(AbortReason::Resources)
    }

    /// Its abort was taken: it ends, and nothing is queued.
    pub fn abort(self) {
        self.into_receiver().abort();
    }

    /// Frames were missed: it ends, and nothing is queued.
    pub fn overrun(self) {
        self.into_receiver().overrun();
    }
}

// Whether the step with this frame grants a further window.
fn grants_next(state: &AwaitPacket, wire: &Wire<'_>, room: bool, flow: Flow) -> bool
    ensures { result ≡ grants_next_at state.now wire.now room flow }
{
    match (wire, flow) {
        (
            Wire::Packet {
                kind,
                sequence,
                bytes: _,
            },
            Flow::Open,
        ) => {
            state.message.is_next(*kind, *sequence)
                && state.until == state.message.next()
                && !state.message.wants_last()
                && room
        }
        _ => false,
    }
}
