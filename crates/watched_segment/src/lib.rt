//! A segment that remembers up to which tick each station has nothing to do by itself, so that a look at such a station is a comparison;
//! and which station transmits next.
#![tactic(auto)]

mod lowest;
mod watched;

pub use lowest::lowest_front;
pub use segment_core::{Image, NewRefused, Segment, the_headline_holds};
pub use watched::Watched;
