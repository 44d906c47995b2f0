//! How the clock advances, and what is done meanwhile without a command.
ghost use Rattle.std.specs.Prelude.{◌≡◌, ◌+◌, ◌<◌, IfOk, OnOk};
ghost use Rattle.segment_law.specs.declared.call.Call.TheVariants.{Pump};
ghost use Rattle.bus_node.specs.Node.{called};
ghost use Rattle.bus_node.specs.Time.{due_below, is_not_yet, is_pacing, horizon, may_pump, next_lane, at_tick, fired, waited, step, go_on, most_steps, settled, leapt, at_time, Stepped};

use crate::node::Node;
use node_parts::{Stop, next_stop};
use one_station::Node as Station;
use pgn_ids::Address;
use segment_core::{Call, Refusal};
use std::alloc::AllocError;

/// How many steps the time of a line makes at most, and as many what is done of it.
const MOST_STEPS: u64 = 1_000_000;

fn is_not_yet(cause: Option<Refusal>) -> bool
    ensures { result ≡ is_not_yet cause }
{
    match cause {
        Some(Refusal::NotYet) => true,
        _ => false,
    }
}

/// The tick at which the next timer is due, if that isn't above the last.
#[tactic(auto, using(crate::proofs::Dues::due_is_below, crate::proofs::Dues::due_is_above, crate::proofs::Dues::none_is_due))]
pub(crate) fn due_up_to(station: &Station, last: u64) -> Option<u64>
    ensures { result ≡ due_below (last + 1) station.now.segment }
{
    match station.next_due_at() {
        None => None,
        Some(tick) => {
            if tick > last {
                return None;
            }
            Some(tick)
        }
    }
}

impl Node {
    /// Whether the next frame of a broadcast waits for its time.
    pub(crate) fn is_pacing(&self) -> bool
        ensures { result ≡ is_pacing self.now }
    {
        let station = self.station.address();
        let to = Address::GLOBAL;
        is_not_yet(self.station.refusal(&Call::Pump { station, to }))
    }

    // The tick up to which the clock advances at once.
    fn horizon(&self, target: u64) -> u64
        ensures { result ≡ horizon target self.now }
    {
        let now = self.station.now();
        if self.is_pacing() && now < target {
            return now + 1;
        }
        self.rests.wakes(now, target)
    }

    // Whether a frame can be queued to a destination that doesn't rest.
    fn may_pump(&self, to: Address) -> bool
        ensures { result ≡ may_pump self.now to.0 }
    {
        let station = self.station.address();
        let refusal = self.station.refusal(&Call::Pump { station, to });
        refusal.is_none() && !self.rests.is_at_rest(self.station.now(), to)
    }

    // The lowest destination of all, if the lowest that a frame can be queued to rests.
    fn lane_awake(&self) -> Option<Address>
        ensures { result ≡ next_lane self.now }
    {
        let mut number = 0u8;
        loop {
            let to = Address(number);
            if self.may_pump(to) {
                return Some(to);
            }
            if number == u8::MAX {
                return None;
            }
            number += 1;
        }
    }

    // The lowest destination that a frame can be queued to and that doesn't rest.
    #[tactic(auto, using(crate::proofs::Lanes::next_none, crate::proofs::Lanes::next_awake))]
    fn next_lane(&self) -> Option<Address>
        ensures { result ≡ next_lane self.now }
    {
        match self.station.next_pump() {
            None => None,
            Some(to) => {
                if self.rests.is_at_rest(self.station.now(), to) {
                    return self.lane_awake();
                }
                Some(to)
            }
        }
    }

    // Advances the clock to a tick.
    fn go_to(&mut self, tick: u64) -> Result<(), AllocError>
        ensures { OnOk result (self.new ≡ at_tick tick self.old) }
    {
        let made = self.station.clock(tick.max(self.station.now()));
        self.tell_of(made)
    }

    // The first timer that is due fires.
    fn fire(&mut self) -> Result<(), AllocError>
        ensures { OnOk result (self.new ≡ fired self.old) }
    {
        let made = self.station.fire();
        self.tell_of(made)
    }

    // A frame is queued to a destination.
    fn pump(&mut self, to: Address) -> Result<(), AllocError>
        ensures { OnOk result (self.new ≡ called self.old (Pump self.old.station.address to)) }
    {
        let made = self.station.pump(to);
        self.tell_of(made)
    }

    // Advances the clock to a timer, which fires, or to the last tick.
    fn wait(&mut self, last: u64) -> Result<bool, AllocError>
        ensures { IfOk result (λ went_on. Stepped went_on self.old self.new (waited last self.old)) }
    {
        let due = due_up_to(&self.station, last);
        match next_stop(self.station.now(), due, last) {
            Stop::Timer(tick) => {
                self.go_to(tick)?;
                self.fire()?;
                Ok(true)
            }
            Stop::Last => {
                self.go_to(last)?;
                Ok(true)
            }
            Stop::Here => Ok(false),
        }
    }

    // Does the next thing up to a tick, and returns whether there was any.
    #[tactic(auto, unfolding(crate::specs::Time::step))]
    fn step(&mut self, target: u64) -> Result<bool, AllocError>
        ensures { IfOk result (λ went_on. Stepped went_on self.old self.new (step target self.old)) }
    {
        if let Some(frame) = self.station.queued() {
            self.put(frame)?;
            return Ok(true);
        }
        if let Some(to) = self.next_lane() {
            self.pump(to)?;
            return Ok(true);
        }
        let last = self.horizon(target);
        self.wait(last)
    }

    // Does all that is due up to a tick.
    fn go_on(&mut self, target: u64) -> Result<(), AllocError>
        ensures { OnOk result (self.new ≡ go_on most_steps target self.old) }
    {
        let mut left = MOST_STEPS;
        while left > 0 {
            if !self.step(target)? {
                return Ok(());
            }
            left -= 1;
        }
        Ok(())
    }

    /// All that is to be done at this tick.
    #[tactic(auto, unfolding(crate::specs::Time::settled))]
    pub(crate) fn settle(&mut self) -> Result<(), AllocError>
        ensures { OnOk result (self.new ≡ settled self.old) }
    {
        let now = self.station.now();
        self.go_on(now)
    }

    // After a jump the clock is at the tick of the time at once, and timers that were due on the way fire there, once.
    fn leap(&mut self, time: u64) -> Result<(), AllocError>
        ensures { OnOk result (self.new ≡ leapt self.old time) }
    {
        if !self.has_jumped(time) {
            return Ok(());
        }
        let tick = self.tick_at(time);
        self.go_to(tick)
    }

    /// If a line says a time, the clock advances to its tick, and all that is due up to there is done.
    #[tactic(auto, unfolding(crate::specs::Time::at_time))]
    pub(crate) fn pass_time(&mut self, time: Option<u64>) -> Result<(), AllocError>
        ensures { OnOk result (self.new ≡ at_time self.old time) }
    {
        let Some(time) = time else {
            return Ok(());
        };
        self.start_at(time)?;
        let target = self.tick_at(time);
        self.leap(time)?;
        self.go_on(target)
    }
}
