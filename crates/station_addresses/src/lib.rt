//! The addresses of a segment's stations: which are fit, and in which order the stations stand.
//!
//! `segment_law` says both (`are_addresses`, `rising`).
#![tactic(auto)]

mod fitness;
mod order;

pub use fitness::are_addresses;
pub use order::in_order;
