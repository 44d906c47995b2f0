//! Broadcast messages of 9 to 1,785 bytes, both ends, as states that must be spent (SAE J1939-21, broadcast announce
//! message).
//!
//! The sender's call takes the bytes of the message anew each time, and the receiver's join has its room: no call here
//! but `BamIn::image` takes memory.
#![tactic(auto)]

mod incoming;
mod outgoing;
mod outgoing_image;
mod spending;

pub use incoming::{BamIn, BamInImage, BamLeft, BamStepped};
pub use outgoing::{BamOut, BamPacket, BamPumped};
pub use outgoing_image::BamOutImage;
