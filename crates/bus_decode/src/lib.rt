//! The messages of a recorded bus, read from a log and printed: `run_decode` reads the lines of a log as `candump -L` writes them and
//! prints each transport message of it, or why there is none, if that is known.
#![tactic(auto)]

mod counts;
mod followed;
mod listener;
mod listening;
mod options;
mod running;
mod strays;
mod taking;
mod telling;

pub use counts::Counts;
pub use line_faults::{Cause, ScriptFault};
pub use options::{Options, Wanted};
pub use running::{Decoded, run_decode};
pub use strays::Strays;
