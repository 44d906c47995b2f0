//! The PGN of the messages, and their bytes.
use crate::checks::got;
use message_events::Bytes;
use pgn_ids::Pgn;
use std::alloc::Global;
use std::process::Abort;

pub(crate) const FECA: u32 = 0xFECA;

pub(crate) fn feca(rt: &impl Abort) -> Pgn {
    got(rt, Pgn::new(FECA))
}

/// So many bytes, counting up from this one.
pub(crate) fn bytes(rt: &impl Abort, alloc: Global, first: u8, many: u8) -> Bytes {
    let mut all = Vec::new(alloc);
    for k in 0..many {
        got(rt, all.push(first.wrapping_add(k)));
    }
    Bytes::new(all)
}
