//! Whose frame it is.
ghost use Rattle.std.specs.Prelude.{◌≡◌};
ghost use Rattle.node_parts.specs.Source.{comes_from};

use bus_frame::Frame;
use pgn_ids::{Address, read_id};

/// Whether a frame has this source address. One of a node's own address isn't another node's.
#[inline]
pub fn comes_from(frame: &Frame, address: Address) -> bool
    ensures { result ≡ comes_from address frame.now }
{
    read_id(frame.id()).from.0 == address.0
}
