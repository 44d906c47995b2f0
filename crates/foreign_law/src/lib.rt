//! The law of what a station is given: each message was put together from frames that this station took, whoever sent them.
#![tactic(auto)]

mod laws;

pub use laws::messages_are_made_of_taken_frames;
