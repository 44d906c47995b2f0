//! The transport messages of a recorded bus, put together again: the reports of a listener that sees every frame of every pair of nodes,
//! kind of transport and interface, however they are interleaved (SAE J1939-21, transport protocol; ISO 11783-3, extended transport
//! protocol).
//!
//! It holds the messages under way: the bytes received of each, and room for as many again, or for a window. A call fails only if memory
//! is refused; what it leaves then is not specified.
#![tactic(auto)]

mod bus;
mod decoder;
mod frames;
mod places;
mod session;
mod sessions;
mod silence;
mod way;

pub use decoder::Decoder;
pub use session::{CONNECTION_PATIENCE, Fate, Session, a_listener_waits_longest};
