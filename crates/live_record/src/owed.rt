//! What is owed to a client.
use pgn_ids::Address;

/// An accepted message without an outcome.
#[derive(Clone, Copy, Debug)]
pub struct Owed {
    pub client: u64,
    pub ticket: u64,
    pub from: Address,
    pub to: Address,
    pub number: u64,
}
