//! The outcome that a step of a lane returns.

use tp_wire::Outcome;

/// A message has its outcome: its number in the lane.
#[derive(Clone, Copy, Debug, PartialEq, Eq)]
pub struct Ended {
    pub number: u64,
    pub outcome: Outcome,
}
