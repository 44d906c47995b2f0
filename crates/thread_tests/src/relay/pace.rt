//! A gate for the two workers of a relay.
use port_relay::{Gate, Stop};
use std::sync::atomic::{AtomicU64, Ordering};
use std::thread;

/// How many turns a worker may be ahead of the other.
const AHEAD: u64 = 16;

/// How often a worker that is ahead looks again, at each turn.
const LOOKS: u64 = 2_000;

/// How often the looks of a turn are used up before neither worker waits any more: as a rule the other has ended.
const MOST_VAIN: u64 = 100;

/// How often a worker looks at its first turn whether the other is there.
const FIRST_LOOKS: u64 = 100_000;

/// Holds each worker at its first turn until both are there, and at each later one for a while if it is ahead of the
/// other. A worker that stays alone at its first turn stops the relay, which then has moved nothing.
#[derive(Drop)]
pub(crate) struct Pace<'s> {
    stop: &'s Stop,
    come: AtomicU64,
    pulling: AtomicU64,
    pushing: AtomicU64,
    vain: AtomicU64,
}

impl Pace<'_> {
    pub(crate) fn new(stop: &Stop) -> Pace<'_> {
        Pace {
            stop,
            come: AtomicU64::new(0),
            pulling: AtomicU64::new(0),
            pushing: AtomicU64::new(0),
            vain: AtomicU64::new(0),
        }
    }

    // The first to come waits for the other. If it gives up, it counts once more: so the other sees that it is too late.
    fn meet(&self) {
        let before = self.come.fetch_add(1, Ordering::SeqCst);
        let is_met = before == 1 || (before == 0 && self.has_met());
        if !is_met {
            self.stop.stop();
        }
    }

    fn has_met(&self) -> bool {
        has_come(&self.come, 2, FIRST_LOOKS) || self.come.fetch_add(1, Ordering::SeqCst) == 2
    }

    fn wait(&self, other: &AtomicU64, least: u64) {
        let vain = self.vain.load(Ordering::SeqCst);
        if vain < MOST_VAIN && !has_come(other, least, LOOKS) {
            self.vain.store(vain.saturating_add(1), Ordering::SeqCst);
        }
    }
}

// Waits until the other worker is at this turn, or the looks are used up; returns whether it is.
fn has_come(other: &AtomicU64, least: u64, looks: u64) -> bool {
    for _ in 0..looks {
        if other.load(Ordering::SeqCst) >= least {
            return true;
        }
        thread::yield_now();
    }
    false
}

impl Gate for Pace<'_> {
    fn pass(&self, worker: u8, turn: u64) {
        let (own, other) = if worker == 0 {
            (&self.pulling, &self.pushing)
        } else {
            (&self.pushing, &self.pulling)
        };
        own.store(turn, Ordering::SeqCst);
        if turn == 1 {
            self.meet();
        } else {
            self.wait(other, turn.saturating_sub(AHEAD));
        }
    }
}
