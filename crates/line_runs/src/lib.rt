//! An input that is read line by line, within limits, and each line obeyed before the next one is read.
#![tactic(auto)]

mod limits;
mod running;
mod taking;
mod telling;

pub use limits::{Limits, next_line};
pub use running::{Obeyer, Ran, Told, run_lines, status_of};
