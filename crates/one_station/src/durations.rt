//! How long a program that starts again sends no message.
use tick_timers::T2;

/// For so many ticks a program that starts again sends no message. By then no other has a session of its earlier ones, but one that a
/// paused port holds, and their answers are over.
pub const SILENCE: u64 = T2;
