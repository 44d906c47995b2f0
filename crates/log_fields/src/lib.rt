//! Fields of a line of a log: words, names of interfaces, and times, read and written.
//!
//! Times are microseconds. Reading takes no memory.
#![tactic(auto)]

mod fields;
mod iface;
mod time;

pub use fields::{cut_at, next_word, spaces_in};
pub use iface::{BadName, Iface};
pub use time::{LATE, MICROS, SECOND, TICK, put_time, read_time, time_of};
