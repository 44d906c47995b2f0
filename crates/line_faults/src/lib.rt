//! What is wrong with a line of a script or a log, and the line at which one ended before its end, and why.
#![tactic(auto)]

mod ending;
mod fault;

pub use ending::{Cause, ScriptFault, cause_of, read_cause};
pub use fault::{Fault, LineError};
