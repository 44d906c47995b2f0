//! What ends a relay before its end, and why a side of it ended.
use segment_shared::Refusal;
use std::sync::atomic::{AtomicBool, Ordering};

/// A word with which a program ends the relays that it lends it to. Any thread may set it, and it stays set.
///
/// No contract says what it holds, since another thread may set it at any moment.
#[derive(Drop)]
pub struct Stop {
    is_set: AtomicBool,
}

impl Stop {
    /// A signal that isn't set.
    pub fn new() -> Stop {
        Stop {
            is_set: AtomicBool::new(false),
        }
    }

    /// Sets it: each side of a relay that looks at it ends at its next turn.
    pub fn stop(&self) {
        self.is_set.store(true, Ordering::SeqCst);
    }

    /// Whether it is set.
    pub fn is_stopped(&self) -> bool {
        self.is_set.load(Ordering::SeqCst)
    }
}

/// Why a side of a relay ended.
#[derive(Clone, Copy, Debug, PartialEq, Eq)]
pub enum Ended {
    /// The side has made all its turns.
    Turns,
    /// The limit of messages was received.
    Limit,
    /// The client refused a message, for this cause, which isn't `RingFull`.
    Refused(Refusal),
    /// The side found no memory.
    OutOfMemory,
    /// The relay was stopped.
    Stopped,
    /// The other side had ended, so that nothing was left to do for this one.
    OtherEnded,
}
