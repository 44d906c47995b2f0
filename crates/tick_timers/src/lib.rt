//! The clock of a segment and the timers of its sessions, in ticks of 1 ms.
//!
//! No call takes memory or reads the machine's time: only `advance` moves the clock.
#![tactic(auto)]

mod clock;
mod durations;
mod ticks;
mod timer;

pub use clock::{Clock, ClockEnd};
pub use durations::{
    BROADCAST_GAP, PROBE, T1, T2, T3, T4, TH, durations_are_those_of_the_standard,
};
pub use ticks::{always, earlier, not_before};
pub use timer::Timer;
