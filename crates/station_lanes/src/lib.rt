//! The lanes of one station by destination, and the outcomes of their steps (SAE J1939-21; ISO 11783-3).
//!
//! A lane is made with the first message to its destination; every other call finds nothing to do if there is none.
#![tactic(auto)]

mod due;
mod image;
mod lane_calls;
mod lanes;
mod outcomes;

pub use image::LanesImage;
pub use lanes::Lanes;
pub use outcomes::outcome;
