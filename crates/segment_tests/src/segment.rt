//! Tests of a segment, and of the printing of scripts, through what these crates show.
mod calls;
mod drains;
mod memory;
mod missed;
mod next;
mod pairs;
mod played;
mod refusals;
mod segments;
mod texts;
