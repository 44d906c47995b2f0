//! A gate at which a worker that has nothing to do sleeps.
ghost use Rattle.std.specs.Prelude.{◌≡◌, ◌≤◌};
ghost use Rattle.segment_shared.specs.Pacing.{rest_ticks};

use crate::clock::Clock;
use crate::shared::SharedSegment;
use crate::workers::{BUS, Gate};
use live_segment::Live;
use pgn_ids::Address;
use std::sync::Wait;
use std::sync::atomic::{AtomicU64, Ordering};

/// How often a worker looks by itself as a rule, in ticks of 1 ms: so long a submission waits at most if no `wake` follows it.
pub const LOOK_TICKS: u64 = 50;

/// How long a worker rests at most while others have something to do.
const BUSY_TICKS: u64 = 5;

/// The gate of one worker that follows a clock: it sleeps at a gate of its own until there is something to do. A worker whose last turn made a call
/// passes at once. Any other sleeps until another worker's turn gives it something to do, until something is due, until `SharedSegment::wake`, or
/// until the next tick that `look` divides.
pub struct Pace<'a, R, C> {
    rt: &'a R,
    shared: &'a SharedSegment,
    clock: &'a C,
    look: u64,
    heard: AtomicU64,
    made: AtomicU64,
}

impl<R, C> Drop for Pace<'_, R, C> {
    fn drop(self) {
        let Pace {
            rt: _,
            shared: _,
            clock: _,
            look: _,
            heard: _,
            made: _,
        } = self;
    }
}

impl<'a, R, C> Pace<'a, R, C> {
    /// The gate of a worker of this segment by its clock. `look` is in ticks of 1 ms, and 0 is taken as 1; `LOOK_TICKS` as a rule.
    pub fn new(rt: &'a R, shared: &'a SharedSegment, clock: &'a C, look: u64) -> Pace<'a, R, C> {
        Pace {
            rt,
            shared,
            clock,
            look,
            heard: AtomicU64::new(0),
            made: AtomicU64::new(1),
        }
    }
}

// How many ticks a worker rests at most if it made no call in its turn. `is_kept` says whether it has something to do that it couldn't; `next` is the
// tick at which some worker has something to do. The others are the tick of the segment's clock, that of the other clock, and how often the worker
// looks.
fn rest_for(is_kept: bool, next: Option<u64>, stands: u64, now: u64, look: u64) -> u64
    ensures value { result ≡ rest_ticks is_kept next stands now look }
    ensures some { 1 ≤ result }
{
    if is_kept {
        return 1;
    }
    let look = look.max(1);
    let ticks = look - now % look;
    let Some(next) = next else {
        return ticks;
    };
    if next <= stands {
        return ticks.min(BUSY_TICKS);
    }
    ticks.min(next.saturating_sub(now).max(1))
}

// Whether there is something to do for a worker.
fn has_work(live: &Live, worker: u8) -> bool {
    if worker == BUS {
        return live.lowest().is_some();
    }
    let station = Address(worker);
    let segment = live.segment();
    segment.waiting(station) > 0 || segment.next_pump(station).is_some() || segment.is_due(station)
}

impl<R: Wait, C: Clock> Pace<'_, R, C> {
    // How many ticks the worker rests at most.
    fn rest_of(&self, worker: u8) -> u64 {
        let live = self.shared.lock_for_turn(self.rt);
        let segment = live.segment();
        let is_kept = has_work(&live, worker);
        rest_for(
            is_kept,
            segment.next_at(),
            segment.now(),
            self.clock.now(),
            self.look,
        )
    }
}

impl<R: Wait, C: Clock> Gate for Pace<'_, R, C> {
    fn pass(&self, worker: u8, _turn: u64) {
        let bell = self.shared.bell(worker);
        if self.made.load(Ordering::SeqCst) == 0 {
            let ticks = self.rest_of(worker);
            bell.rest(self.rt, self.heard.load(Ordering::SeqCst), ticks);
        }
        self.heard.store(bell.count(), Ordering::SeqCst);
    }

    fn made(&self, worker: u8, calls: u64) {
        self.made.store(calls, Ordering::SeqCst);
        if calls > 0 {
            self.shared.tell_others(worker);
        }
    }
}
