//! The two stations, and the port of the second with its PGN.
use crate::checks::got;
use pgn_ids::{Address, Pgn};
use segment_core::PortId;
use std::process::Abort;

pub(crate) const A: Address = Address(0x21);

pub(crate) const B: Address = Address(0x35);

pub(crate) const PORT: PortId = PortId {
    station: B,
    number: 1,
};

pub(crate) fn pgn(rt: &impl Abort) -> Pgn {
    got(rt, Pgn::new(0xFECA))
}
