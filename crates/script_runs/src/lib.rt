//! A script that is read whole before threads run it: its reading, line by line, to the end or to the first fault, what is written of
//! it, and how the run ended.
#![tactic(auto)]

mod ending;
mod reading;
mod telling;

pub use ending::{LiveFault, LiveRan, Lost, Told};
pub use reading::{Planner, read_script};
pub use telling::{tell_refused, tell_run};
