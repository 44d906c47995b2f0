//! Addresses and parameter group numbers, and what an identifier says of them (SAE J1939-21, PDU1 and PDU2 formats).
//! No call takes memory, and each type is `Copy`.
#![tactic(auto)]

mod address;
mod identifier;
mod pgn;

pub use address::Address;
pub use identifier::{IdMeaning, id_of, identifiers_are_read_back, read_id};
pub use pgn::{BadPgn, Pgn, WirePgn};
