//! Destinations that rest: a connection to them failed, and nothing is queued to them for a while.
ghost use Rattle.std.specs.Prelude.{◌≡◌};
ghost use Rattle.node_parts.specs.Rests.{HasAll, no_rests, is_at_rest, resting, is_failure, rest_end, rest_by, wakes};

use message_events::Event;
use pgn_ids::Address;
use std::marker::Model;
use tp_wire::Outcome;

/// For each destination the tick before which nothing is queued to it.
#[derive(Drop)]
pub struct Rests {
    until: [u64; 256],
}

impl Model for Rests {
    ghost use Rattle.std.specs.Prelude.{List, ℕ};
    ghost use Rattle.node_parts.specs.Rests.{HasAll};

    ghost Value = { List ℕ };

    ghost view = { λ rests. rests.until };

    ghost invariant = { λ rests. HasAll rests.until };
}

/// Whether a message ended so because its connection failed.
fn is_failure(outcome: Outcome) -> bool
    ensures { result ≡ is_failure outcome }
{
    match outcome {
        Outcome::Aborted(_) => true,
        Outcome::TimedOut => true,
        Outcome::Overrun => true,
        Outcome::Acknowledged => false,
        Outcome::Broadcast => false,
        Outcome::Cancelled => false,
        Outcome::Unreachable => false,
    }
}

impl Rests {
    /// No destination rests.
    pub fn none() -> Rests
        ensures { result ≡ no_rests }
    {
        Rests { until: [0; 256] }
    }

    /// Whether a destination rests at a tick.
    pub fn is_at_rest(&self, now: u64, to: Address) -> bool
        ensures { result ≡ is_at_rest self.now now to.0 }
    {
        now < self.until[to.0 as usize]
    }

    // A destination rests until a tick.
    fn set(&mut self, until: u64, to: Address)
        ensures { self.new ≡ resting self.old until to.0 }
    {
        self.until[to.0 as usize] = until;
    }

    /// If a connection failed by this event, its destination rests from the tick `now` on for `quiet` ticks.
    pub fn rest_by(&mut self, now: u64, quiet: u64, event: &Event)
        ensures { self.new ≡ rest_by (rest_end now quiet) self.old event.now }
    {
        let until = now.saturating_add(quiet);
        match event {
            Event::Given { .. } => {}
            Event::Outcome { to, outcome, .. } => {
                if is_failure(*outcome) {
                    self.set(until, *to);
                }
            }
        }
    }

    /// The first tick above `now` at which one no longer rests, if that is below `end`, else `end`.
    pub fn wakes(&self, now: u64, end: u64) -> u64
        ensures { result ≡ wakes now end self.now }
    {
        self.until.iter().fold(end, |first, until| {
            if now < *until {
                first.min(*until)
            } else {
                first
            }
        })
    }
}
