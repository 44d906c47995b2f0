//! The threads of a segment: one submits for each station, one receives for each port, one works for each station, one for the bus, and
//! one watches for the end of one or two segments.
#![tactic(auto)]

mod jobs;
mod pacing;
mod spawning;

pub use jobs::{Board, Party, Sender, read_all, watch};
pub use pacing::Pace;
pub use segment_shared::{
    Client, ClientReport, Delivery, Gate, Inbox, Live, Report, SharedSegment, finish,
};
pub use spawning::{Ends, Running, gather, senders_of, spawn_segment};
