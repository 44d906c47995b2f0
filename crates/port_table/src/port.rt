//! Ports.

use pgn_ids::{Address, Pgn};

/// Which port it is: the address of its station, and its number there, from 1. No number is used again.
#[derive(Clone, Copy, Debug, PartialEq, Eq, PartialOrd, Ord, Hash)]
pub struct PortId {
    pub station: Address,
    pub number: u64,
}

/// An open port: it receives messages of one PGN, of at most `max_len` bytes.
#[derive(Clone, Copy, Debug, PartialEq, Eq)]
pub struct Port {
    pub number: u64,
    pub pgn: Pgn,
    pub max_len: u32,
    pub paused: bool,
}
