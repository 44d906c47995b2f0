//! One station of SAE J1939-21 and ISO 11783-3 for a program that owns the bus, on a controller or behind a CAN socket: frames
//! and ticks go in, frames and events come out. Nothing here waits, reads a clock or starts a thread.
//!
//! Each call is a short list of calls on a segment with this one station, and its contract says which: so all that is proved of
//! lists of calls holds of it.
#![tactic(auto)]

mod bus;
mod durations;
mod error;
mod events;
mod look;
mod missed;
mod node;
mod ports;
mod readers;
mod starting;
mod time;

pub use durations::SILENCE;
pub use error::{Fed, Missed, NodeError};
pub use node::Node;
pub use node_parts::TakeError;
pub use segment_core::{Bytes, Call, Counts, Event, LaneSight, NewRefused, PortId, Refusal};
