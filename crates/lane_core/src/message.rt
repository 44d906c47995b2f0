//! Messages without an outcome, and how long one may be.
ghost use Rattle.std.specs.Prelude.{◌≡◌};
ghost use Rattle.lane_core.specs.Lane.{longest_to as longest_to_of};

use message_events::Bytes;
use pgn_ids::{Address, Pgn};
use tp_wire::constants::{ETP_MAX_SIZE, TP_MAX_SIZE};

/// A message without an outcome: its number in its lane, from 1, its PGN and its bytes.
#[derive(Debug, Drop)]
pub struct Pending {
    pub number: u64,
    pub pgn: Pgn,
    pub bytes: Bytes,
}

/// The most bytes that one message to a destination has: 1,785 to all, and to one node 117,440,505 (SAE J1939-21;
/// ISO 11783-3).
pub fn longest_to(to: Address) -> usize
    ensures { result ≡ longest_to_of to.0 }
{
    if to == Address::GLOBAL {
        return TP_MAX_SIZE as usize;
    }
    ETP_MAX_SIZE as usize
}
