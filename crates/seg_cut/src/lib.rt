//! Cuts a message into packets of seven bytes, and joins packets to a message (SAE J1939-21, TP.DT).
#![tactic(auto)]

mod cut;
mod join;
mod laws;

pub use cut::{packet, packets};
pub use join::{Join, PutError};
pub use laws::{joined_packets_are_the_message, packet_is_seven_places};
