//! A bus as a sequence diagram in Mermaid: its beginning, and the arrows of frames with their meaning in words. Each call puts its text behind
//! what a buffer holds already.
//!
//! A call fails only if memory is refused; what the buffer holds then is not specified.
#![tactic(auto)]

mod opening;
mod run;
mod words;

pub use opening::{draw_heading, draw_opening, draw_participants};
pub use run::{Run, draw_frames, goes_on, longer, run_of};
pub use words::{put_ends, put_length, put_meaning, put_name, put_packets, put_pgn};
