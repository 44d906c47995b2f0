//! A script run by threads: one submits for each station, one receives for each port, one works for each station, one for the
//! bus, and one watches for the end.
#![tactic(auto)]

mod running;

pub use line_faults::{Cause, ScriptFault};
pub use running::run_live;
pub use script_runs::{LiveFault, LiveRan};
pub use segment_threads::Gate;
