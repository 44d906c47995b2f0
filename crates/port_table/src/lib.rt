//! The ports of one station, several of them perhaps on one PGN, and the sets of them that sessions are bound to.
//!
//! A table makes the room for its 16 ports when it is made; no other call but `image` takes memory.
#![tactic(auto)]

mod image;
mod laws;
mod port;
mod refused;
mod set;
mod table;

pub use image::PortsImage;
pub use laws::numbers_are_never_used_again;
pub use port::{Port, PortId};
pub use refused::Refused;
pub use set::PortSet;
pub use table::PortTable;

/// How many ports of a station are open at most.
pub const MAX_PORTS: usize = 16;
