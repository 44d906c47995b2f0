//! What a drain did.

use crate::end::DrainEnd;
use bus_frame::Frame;
use segment_core::Events;

/// What a drain did.
#[derive(Debug, Drop)]
pub struct Drained {
    /// How many calls it made.
    pub turns: u64,
    /// The frames that they put, in their order.
    pub frames: Vec<Frame>,
    /// The clock's tick at which each of them was put.
    pub times: Vec<u64>,
    /// The events of the calls in their order: one part for each call that had some.
    pub parts: Vec<Events>,
    /// How the drain ended.
    pub end: DrainEnd,
}
