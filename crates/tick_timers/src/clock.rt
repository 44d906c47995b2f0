//! The clock.
ghost use Rattle.std.specs.Prelude.{◌≡◌, ◌+◌, ◌^◌, ◌<◌, ◌≤◌, ◌↔◌, OnOk, OnErr, IsOk, IsErr};

use std::marker::Model;
use thiserror::Error;

/// A count of ticks of 1 ms since the clock was made.
#[derive(Clone, Copy, Debug, PartialEq, Eq)]
pub struct Clock {
    ticks: u64,
}

impl Model for Clock {
    ghost use Rattle.std.specs.Prelude.{ℕ};

    ghost Value = { ℕ };

    ghost view = { λ c. c.ticks };

    ghost inverse = { λ n. record { ticks = n } };
}

impl Default for Clock {
    ghost is_default = { λ c. c ≡ 0 };

    fn default() -> Clock {
        Clock::new()
    }
}

/// The clock would pass the end of `u64`.
#[derive(Clone, Copy, Debug, PartialEq, Eq, Error)]
#[error("the clock would pass its last tick")]
pub struct ClockEnd;

impl Clock {
    /// A clock at tick 0.
    pub const fn new() -> Clock
        ensures { result ≡ 0 }
    {
        Clock { ticks: 0 }
    }

    /// The clock's tick.
    pub const fn now(&self) -> u64
        ensures value { result ≡ self.now }
        ensures bounded { self.now < 2 ^ 64 }
    {
        self.ticks
    }

    /// Advances the clock by `n` ticks.
    ///
    /// Refused if that would pass the end of `u64`; the clock is then unchanged.
    pub fn advance(&mut self, n: u64) -> Result<(), ClockEnd>
        ensures fits { IsOk result ↔ (self.old + n < 2 ^ 64) }
        ensures past_end { IsErr result ↔ (2 ^ 64 ≤ self.old + n) }
        ensures ok { OnOk result (self.new ≡ self.old + n) }
        ensures err { OnErr result (self.new ≡ self.old) }
    {
        let ticks = self.ticks.checked_add(n).ok_or(ClockEnd)?;
        self.ticks = ticks;
        Ok(())
    }
}
