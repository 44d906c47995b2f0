//! Whether a receiver awaits packets, and what it asks for (SAE J1939-21, TP.CM_CTS; ISO 11783-3, ETP.CM_CTS).
ghost use Rattle.std.specs.Prelude.{◌≡◌};
ghost use Rattle.responder.specs.Asking.{asking, asked};
ghost use Rattle.responder.specs.Image.{state_at};
ghost use Rattle.responder.specs.Room.{HasRoom};
ghost use Rattle.responder.specs.StateFields.{IsAt, FitsWindow};

use crate::flow::Flow;
use crate::unfinished::Unfinished;
use bus_frame::Frame;
use tick_timers::{T2, TH, Timer};

/// Whether a receiver awaits packets.
#[derive(Clone, Copy, Debug, PartialEq, Eq)]
pub(crate) enum Stage {
    /// The receiver awaits packets: the last one granted, and the last one announced.
    Awaiting { granted: u32, until: u32 },
    /// The receiver is on hold.
    OnHold,
}

/// Asks for the window from the next packet on, or asks the peer to hold: the stage that follows, the timer that starts, and
/// the frame.
#[inline(always)]
pub(crate) fn ask(message: &Unfinished, flow: Flow, now: u64) -> (Stage, Timer, Frame)
    requires room { HasRoom flow message.now }
    requires within_window { FitsWindow message.now }
    ensures state { state_at message.now result.0 result.1 ≡ asking message.now flow now }
    ensures valid { IsAt message.now result.0 }
    ensures frame { result.2 ≡ asked message.now flow }
{
    match flow {
        Flow::Open => {
            let packets = message.next_window();
            let granted = message.next() - 1 + u32::from(packets);
            let until = message.announced_at_first(granted);
            let stage = Stage::Awaiting { granted, until };
            (stage, Timer::start(now, T2), message.cts(packets))
        }
        Flow::Held => (Stage::OnHold, Timer::start(now, TH), message.cts(0)),
    }
}
