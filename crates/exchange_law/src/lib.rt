//! The law of the quiet exchange: a message that nothing disturbs, to all and between two stations.
#![tactic(auto)]

pub mod broadcasts;
mod laws;

pub use laws::{connections_are_undisturbed, messages_are_undisturbed};
