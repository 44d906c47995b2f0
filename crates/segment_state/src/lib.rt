//! The state of a segment, with each call on it as one step: it is made as `segment_law` says, refused, or lacks memory, and then nothing
//! has changed.
//!
//! `segment_core` makes a segment of it, whose calls are records.
#![tactic(auto)]

mod abreast;
mod apart;
mod at_once;
mod call;
mod clock;
mod counting;
mod due;
mod frames;
mod made;
mod next;
mod passing;
mod places;
mod ports;
mod readers;
mod refusing;
mod sending;
mod state;
mod stop;
mod taking;
mod values;

pub use made::{Made, Tried};
pub use passing::Passing;
pub use state::SegmentState;
pub use stop::Stop;
pub use values::{fits, one_byte};
