//! What a line of a script asks for: its words, the command that they mean, or the first fault in them.
//!
//! Nothing here knows a segment that is made: the layer above says whether a command can be obeyed.
#![tactic(auto)]

mod addresses;
mod command;
mod route;
pub mod values;
mod words;

pub use addresses::Addresses;
pub use command::{Command, read_command};
pub use route::{RouteWords, read_route};
pub use words::{is_ascii, split_words};
