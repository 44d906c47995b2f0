//! A recorded log, drawn: `draw_log` reads its lines, and draws the frames of a pair of nodes and a span of time as arrows with their times.
#![tactic(auto)]

mod counts;
mod options;
mod packets;
mod picture;
mod running;

pub use counts::Counts;
pub use options::{Options, Pair};
pub use running::{Drawn, draw_log};
