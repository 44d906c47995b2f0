//! How the times that lines say and the ticks of the clock belong together.
ghost use Rattle.std.specs.Prelude.{◌≡◌, OnOk};
ghost use Rattle.bus_node.specs.Clock.{time_of, tick_at, counted_from, went_back, has_jumped, started};

use crate::node::Node;
use log_fields::{LATE, TICK};
use script_text::print_text;
use std::alloc::AllocError;

/// By how many microseconds a time is ahead of that of the clock at most, unless it jumped.
const JUMP: u64 = 600_000_000;

impl Node {
    /// The time of its clock, in microseconds.
    pub(crate) fn time(&self) -> u64
        ensures { result ≡ time_of self.now }
    {
        let passed = self.station.now().saturating_sub(self.since);
        self.start
            .unwrap_or(0)
            .saturating_add(passed.saturating_mul(TICK))
    }

    /// The tick of a time.
    pub(crate) fn tick_at(&self, time: u64) -> u64
        ensures { result ≡ tick_at self.now time }
    {
        let passed = time.saturating_sub(self.start.unwrap_or(time)) / TICK;
        self.since.saturating_add(passed)
    }

    // Sets the time of the clock's tick, which stays.
    fn count_from(&mut self, time: u64)
        ensures { self.new ≡ counted_from self.old time }
    {
        self.since = self.station.now();
        self.start = Some(time);
    }

    // Whether a time is more than a second before that of the clock. One that is less before it is late.
    fn went_back(&self, time: u64) -> bool
        ensures { result ≡ went_back self.now time }
    {
        self.time().saturating_sub(time) > LATE
    }

    /// Whether a time is more than ten minutes ahead of that of the clock.
    pub(crate) fn has_jumped(&self, time: u64) -> bool
        ensures { result ≡ has_jumped self.now time }
    {
        time.saturating_sub(self.time()) > JUMP
    }

    /// A line says a time. The first is that of tick 0. If one went back, this is printed, and the time counts from it
    /// on.
    pub(crate) fn start_at(&mut self, time: u64) -> Result<(), AllocError>
        ensures { OnOk result (self.new ≡ started self.old time) }
    {
        let Some(_seen) = self.start else {
            self.count_from(time);
            return Ok(());
        };
        if !self.went_back(time) {
            return Ok(());
        }
        self.count_from(time);
        print_text(&mut self.text, "time went back")
    }
}
