//! The gateway between two segments: messages that one of them gives to a port are sent on over the other, in order,
//! nothing dropped, repeated or invented.
//!
//! Two sides on two threads carry the messages, with a channel of 16 places between them. An acknowledgement on the second
//! segment says nothing to the sender on the first.
#![tactic(auto)]

mod line;
mod relaying;
mod route;
mod stopping;
mod working;

pub use line::{LINE_PLACES, at_most_16_messages};
pub use relaying::{Relayed, relay, relay_until};
pub use route::Route;
pub use segment_shared::Gate;
pub use stopping::{Ended, Stop};
