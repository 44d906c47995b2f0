//! Messages as they are handed over: the bytes of one, and the events of a station, which say that a message is given at a port
//! or has its outcome (SAE J1939-21; ISO 11783-3).
#![tactic(auto)]

mod bytes;
mod event;

pub use bytes::Bytes;
pub use event::{Event, Events, EventsIntoIter, EventsIter};
