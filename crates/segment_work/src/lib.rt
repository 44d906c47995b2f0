//! How much is left to be done on a segment, counted call by call, and how many turns of a drain are enough for it.
#![tactic(auto)]

mod bus;
mod counting;
mod frames;
mod lanes;
mod messages;
mod rates;
mod saturating;
mod sessions;

pub use counting::{enough_turns, work};
