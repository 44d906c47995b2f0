//! The two states of a receiver, each as a type of its own.
ghost use Rattle.std.specs.Prelude.{◌≡◌};
ghost use Rattle.tp_wire.specs.Reason.{reason_byte};
ghost use Rattle.tp_wire.specs.declared.reason.AbortReason.TheVariants.{Timeout};
ghost use Rattle.responder.specs.Answers.{abort_frame};
ghost use Rattle.responder.specs.Asking.{asking, asked};
ghost use Rattle.responder.specs.Room.{HasRoom};

use crate::flow::Flow;
use crate::in_state::InState;
use crate::receiver::Receiver;
use crate::unfinished::Unfinished;
use bus_frame::Frame;
use std::marker::Model;
use tick_timers::Timer;
use tp_wire::AbortReason;

/// A receiver that awaits the packets that it granted: T2 after the CTS, T1 after a packet. It must be spent.
pub struct AwaitPacket {
    pub(crate) message: Unfinished,
    pub(crate) granted: u32,
    pub(crate) until: u32,
    pub(crate) timer: Timer,
}

impl Model for AwaitPacket {
    ghost use Rattle.responder.specs.States.{AwaitPacket};

    ghost Value = { AwaitPacket };

    ghost use Rattle.responder.specs.StateFields.{view_await_packet, IsAwaiting};

    ghost view = { view_await_packet };

    ghost invariant = { IsAwaiting };
}

impl AwaitPacket {
    /// Its timer fired: it ends by the abort for a timeout, which is to be queued.
    pub fn expire(self) -> Frame
        ensures { result ≡ abort_frame self.message.kind self.message.peer (reason_byte Timeout) }
    {
        InState::AwaitPacket(self)
            .into_receiver()
            .end(AbortReason::Timeout)
    }
}

/// A receiver on hold: it has granted no packet, and repeats its hold until the session is no longer held. It must be
/// spent.
pub struct Holding {
    pub(crate) message: Unfinished,
    pub(crate) timer: Timer,
}

impl Model for Holding {
    ghost use Rattle.responder.specs.States.{Holding};

    ghost Value = { Holding };

    ghost use Rattle.responder.specs.StateFields.{view_holding, IsHolding};

    ghost view = { view_holding };

    ghost invariant = { IsHolding };
}

impl Holding {
    /// Its timer fired at tick `now`: the frame to be queued is a hold again if the session is still held, else the CTS of the
    /// window from the next packet on.
    pub fn expire(self, flow: Flow, now: u64) -> (InState, Frame)
        requires { HasRoom flow self.message }
        ensures state { result.0 ≡ asking self.message flow now }
        ensures frame { result.1 ≡ asked self.message flow }
    {
        let Holding { message, timer: _ } = self;
        let (receiver, frame) = Receiver::asking(message, flow, now);
        (receiver.into_state(), frame)
    }
}
