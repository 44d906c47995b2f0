//! What wakes a thread that rests.
use std::sync::Wait;
use std::sync::atomic::{AtomicU64, Ordering};
use std::time::Duration;

/// A thread sleeps on the low 32 bits of a word.
const LOW_BITS: u64 = 1 << 32;

/// Wakes all threads that rest by it.
#[derive(Drop)]
pub(crate) struct Bell {
    rung: AtomicU64,
    resting: AtomicU64,
}

impl Bell {
    pub(crate) fn new() -> Bell {
        Bell {
            rung: AtomicU64::new(0),
            resting: AtomicU64::new(0),
        }
    }

    /// How often it rang.
    pub(crate) fn count(&self) -> u64 {
        self.rung.load(Ordering::SeqCst)
    }

    // A worker that rests has counted itself before it compares: so if nobody is counted, nobody sleeps without the new
    // count.
    pub(crate) fn ring(&self) {
        self.rung.fetch_add(1, Ordering::SeqCst);
        if self.resting.load(Ordering::SeqCst) > 0 {
            self.rung.wake_all();
        }
    }

    /// Sleeps for so many ticks of 1 ms at most, unless it has rung more often than `heard` times; a ring ends the sleep.
    pub(crate) fn rest<R: Wait>(&self, rt: &R, heard: u64, ticks: u64) {
        self.resting.fetch_add(1, Ordering::SeqCst);
        self.rung.park_timeout(rt, (heard % LOW_BITS) as u32, Duration::from_millis(ticks));
        self.resting.fetch_sub(1, Ordering::SeqCst);
    }
}
