//! The state in which a CTS is awaited.
ghost use Rattle.std.specs.Prelude.{◌≡◌};
ghost use Rattle.tick_timers.specs.Timers.{is_due as is_due_at};
ghost use Rattle.originator.specs.Endings.{expired};

use crate::link::Link;
use crate::states::OutOver;
use std::marker::Model;
use tick_timers::Timer;

/// A CTS is awaited: there is no window, and packets were never queued. It must be spent.
pub struct AwaitCts {
    pub(crate) link: Link,
    pub(crate) unsent: u32,
    pub(crate) resends: u8,
    pub(crate) timer: Timer,
}

impl Model for AwaitCts {
    ghost use Rattle.originator.specs.States.{AwaitCts};

    ghost Value = { AwaitCts };

    ghost use Rattle.originator.specs.StateFields.{view_await_cts, IsAwaitCts};

    ghost view = { view_await_cts };

    ghost invariant = { IsAwaitCts };
}

impl AwaitCts {
    /// Whether its timer (T3, after a hold T4) is due at tick `now`.
    pub fn is_due(&self, now: u64) -> bool
        ensures { result ≡ is_due_at self.now.timer now }
    {
        self.timer.is_due(now)
    }

    /// Its timer fired: the message ended as timed out, and an abort is queued.
    pub fn expire(self) -> OutOver
        ensures { result ≡ expired self.link }
    {
        self.into_link().expire()
    }

    /// The message, whose state is spent.
    pub(crate) fn into_link(self) -> Link
        ensures { result ≡ self.link }
    {
        let AwaitCts {
            link,
            unsent: _,
            resends: _,
            timer: _,
        } = self;
        link
    }
}
