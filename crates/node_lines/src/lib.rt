//! What a line of standard input means to a node on a real bus: a frame that was seen there, the time, or a command; or the first fault in
//! it. Faults, words and values are those of a script.
//!
//! Nothing here knows the station: whether a command can be obeyed is for the layer above.
#![tactic(auto)]

mod command;
mod line;

pub use command::NodeCommand;
pub use line::{NodeLine, read_node_line};
