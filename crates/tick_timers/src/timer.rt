//! Timers.
ghost use Rattle.std.specs.Prelude.{◌≡◌, ◌+◌, ◌≤◌, true};
ghost use Rattle.tick_timers.specs.Due.{IsDueFrom};
ghost use Rattle.tick_timers.specs.Timers.{is_due as is_due_at, missing as missing_at};

use std::marker::Model;

/// Started at a tick, and due once so many ticks have passed.
#[derive(Clone, Copy, Debug, PartialEq, Eq)]
pub struct Timer {
    started: u64,
    ticks: u64,
}

impl Model for Timer {
    ghost use Rattle.tick_timers.specs.Timers.{Timer};

    ghost Value = { Timer };

    ghost view = { λ t. record { started = t.started; ticks = t.ticks } };

    ghost inverse = { λ t. record { started = t.started; ticks = t.ticks } };
}

impl Timer {
    /// A timer that starts at tick `now` and is due `ticks` ticks of 1 ms later.
    pub const fn start(now: u64, ticks: u64) -> Timer
        ensures { result ≡ record { started = now; ticks = ticks } }
    {
        Timer {
            started: now,
            ticks,
        }
    }

    /// Whether at least its ticks have passed at tick `now`. One that would be due past the end of `u64` never is.
    pub const fn is_due(&self, now: u64) -> bool
        ensures { result ≡ is_due_at self.now now }
    {
        self.started <= now && self.ticks <= now - self.started
    }

    /// The tick from which on it is due. None if that would be past the end of `u64`: then it never is.
    pub fn due_at(&self) -> Option<u64>
        ensures { IsDueFrom (is_due_at self.now) result }
    {
        self.started.checked_add(self.ticks)
    }

    /// How many of its ticks are left at tick `now`, which is not before its start: 0 if it is due.
    pub fn missing(&self, now: u64) -> u64
        ensures value { result ≡ missing_at self.now now }
        ensures due { self.now.started ≤ now → is_due_at self.now (now + result) ≡ true }
    {
        self.ticks.saturating_sub(now.saturating_sub(self.started))
    }
}
