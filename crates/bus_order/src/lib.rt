//! The bus of a segment: all frames in the order in which they were put, and how far each station is in it.
//!
//! A log holds only the frames that a station may still take or repeat.
#![tactic(auto)]

mod cursor;
mod image;
mod laws;
mod log;

pub use image::BusImage;
pub use laws::stations_see_the_bus_in_order;
pub use log::{BusLog, MAX_KEPT, PutError};
