//! A reader that reports its progress, on one line that is rewritten in place.
#![tactic(auto)]

mod progress;

pub use progress::Progress;
