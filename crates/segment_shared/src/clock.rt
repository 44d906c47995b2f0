//! Clocks that the clock of a segment follows.
use std::sync::atomic::{AtomicU64, Ordering};
use std::time::Instant;

/// A clock in ticks of 1 ms, on the scale of a segment's clock. A worker that follows it brings the segment's clock forward to its tick, and never
/// back.
pub trait Clock {
    fn now(&self) -> u64;
}

/// The machine's clock, which is set neither forward nor back.
pub struct MachineClock<'a, R> {
    rt: &'a R,
    start: Option<Instant>,
    origin: u64,
    last: AtomicU64,
}

impl<R> Drop for MachineClock<'_, R> {
    fn drop(self) {
        let MachineClock {
            rt: _,
            start: _,
            origin: _,
            last: _,
        } = self;
    }
}

impl<'a, R: std::time::Clock> MachineClock<'a, R> {
    /// A clock that shows `now`, the tick of the segment, when it is made. If the machine's clock can't be read, it stands still.
    pub fn new(rt: &'a R, now: u64) -> MachineClock<'a, R> {
        MachineClock {
            rt,
            start: Instant::now(rt).ok(),
            origin: now,
            last: AtomicU64::new(now),
        }
    }

    // How many ticks have passed since the start; none if the clock can't be read.
    fn passed(&self) -> Option<u64> {
        let time = self.start?.elapsed(self.rt).ok()?;
        Some(
            time.as_secs()
                .saturating_mul(1_000)
                .saturating_add(u64::from(time.subsec_millis())),
        )
    }
}

impl<R: std::time::Clock> Clock for MachineClock<'_, R> {
    /// The tick read now, or the last one if the machine's clock can't be read.
    fn now(&self) -> u64 {
        let Some(passed) = self.passed() else {
            return self.last.load(Ordering::SeqCst);
        };
        let now = self.origin.saturating_add(passed);
        self.last.fetch_max(now, Ordering::SeqCst);
        now
    }
}
