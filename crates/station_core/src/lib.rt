//! One station of a segment: its transmit queue, its lanes, its incoming sessions and its ports, with one call for each
//! event (SAE J1939-21; ISO 11783-3).
#![tactic(auto)]

mod closing;
mod due;
mod image;
mod next;
mod overruns;
mod refused;
mod sending;
mod station;
mod taking;
mod timers;

pub use image::StationImage;
pub use message_events::{Event, Events, EventsIntoIter, EventsIter};
pub use refused::{Refused, SendingRefused, Stopped};
pub use sending::{MOST_PUMPED, message_refusal};
pub use station::Station;
