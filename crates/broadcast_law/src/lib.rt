//! The law of messages to all: which of one station's broadcasts the ports and stations are given, and that a station queues
//! its own frames alone.
#![tactic(auto)]

mod laws;

pub use laws::{broadcasts_are_given_once_in_order, stations_queue_their_own};
