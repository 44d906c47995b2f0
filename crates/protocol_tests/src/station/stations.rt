//! Station 35 takes frames of node 80, and station 21 sends. If memory is refused as a frame is taken, it is taken again; anywhere else a
//! test ends.
mod receiving;
mod sending;

use crate::checks::got;
use crate::means::{FECA, pgn};
use pgn_ids::Address;
use station_core::*;
use std::alloc::Global;
use std::process::Abort;

const A: Address = Address(0x21);

const B: Address = Address(0x35);

fn new_station(rt: &impl Abort, alloc: Global, address: Address) -> Station {
    got(rt, Station::new(alloc, address))
}

fn open(rt: &impl Abort, station: &mut Station) {
    got(rt, station.open(pgn(rt, FECA), 4000));
}
