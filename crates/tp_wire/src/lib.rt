//! What the frames of the transport protocols, of Request and of Acknowledgement mean (SAE J1939-21; ISO 11783-3).
//! No call takes memory.
#![tactic(auto)]

pub mod constants;
mod laws;
mod outcome;
mod packet;
mod reader;
mod reason;
mod wire;
mod writer;

pub use laws::{
    frames_have_one_meaning, malformed_frames_have_no_meaning, meanings_are_of_transport_frames,
    what_is_written_is_read, written_frames_have_their_meaning,
};
pub use outcome::Outcome;
pub use packet::PacketBytes;
pub use reader::{is_transport, read, read_in_place};
pub use reason::AbortReason;
pub use wire::{CmFrame, Kind, Wire};
pub use writer::write;
