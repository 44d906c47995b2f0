//! Lines of a reader, one held at a time or looked at in the reader's buffer, and text for a writer, written and
//! flushed at once.
#![tactic(auto)]

mod lines;
mod writing;

pub use lines::{LineRead, MAX_LINE, ReadError, held_line, read_line_up_to};
pub use writing::{put_all, tell};
