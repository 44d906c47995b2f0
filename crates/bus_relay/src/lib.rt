//! A script of two segments run by threads, with one relay between them: messages that a port of the first is given are sent on by
//! a client of the second.
#![tactic(auto)]

mod carrying;
mod crews;
mod known;
mod pacing;
mod running;
mod settling;
mod text;
mod threads;

pub use line_faults::{Cause, ScriptFault};
pub use running::run_relay;
pub use script_runs::{LiveFault as RelayFault, LiveRan as RelayRan};
pub use segment_threads::Gate;
