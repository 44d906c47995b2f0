//! The incoming sessions of one station: how each opens, its steps, whatever its transport, and how the message that it completes is
//! given at the ports of its set (SAE J1939-21; ISO 11783-3).
#![tactic(auto)]

mod concluding;
mod copies;
mod receivers;

pub use concluding::enqueue_option;
pub use receivers::{Receivers, ReceiversImage, flow};
