//! A log in print, as lines of text or as objects of JSON (RFC 8259), one a line: a report on a message, its meaning in words, the frames of it, a
//! frame that carries nothing of a message, and a wrong line; and a summary of a log, as a table or as an object a row. Members of an object are
//! in the order of their names. Times are in microseconds.
//!
//! An object is put straight behind what the buffer holds, as the text that `serde_json` gives for it: no value of it is made first, so that a long
//! text is held no second time.
//!
//! Each call puts its text behind what `out` holds. It fails only if memory is refused, and may have put a part of the text then.
#![tactic(auto)]

mod counts;
mod explained;
mod frames;
mod listing;
mod lists;
mod members;
mod objects;
mod parts;
mod rows;
mod strings;
mod text;

pub use explained::put_explained;
pub use listing::put_marks;
pub use objects::{put_single_object, put_told_object, put_wrong_object};
pub use rows::{put_row_objects, put_table};
pub use text::{put_single, put_told, put_wrong};
