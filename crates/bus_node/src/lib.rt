//! One station on a real bus, in text: frames as a log shows them, the time and commands are read line by line, and each line is answered
//! before the next one is read.
#![tactic(auto)]

mod acting;
mod answers;
mod clock;
mod commands;
mod due;
mod interfaces;
mod lane_counts;
mod line_counts;
mod node;
mod putting;
mod running;
mod telling;
mod time;
mod wrong_lines;

pub use line_counts::LineCounts;
pub use node::Node;
pub use running::{Ran, run_node};
pub use segment_core::NewRefused;
