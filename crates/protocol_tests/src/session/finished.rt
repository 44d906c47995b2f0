//! A whole message of ETP is given or refused. One of TP is, by the exchanges of `connections`.
use crate::checks::{got, holds, same};
use crate::means::{FECA, Shown, is_frame, wire_pgn};
use bus_frame::Frame;
use pgn_ids::Address;
use responder::*;
use seg_cut::Join;
use std::alloc::Global;
use std::process::Abort;
use tp_wire::{AbortReason, Kind};

fn diagnostics(rt: &impl Abort) -> Peer {
    Peer::new(Address(0x21), Address(0x35), wire_pgn(rt, FECA))
}

// A message of 1,786 bytes, whole.
fn long_message(rt: &impl Abort, alloc: Global) -> Finished {
    let mut join = Join::new(alloc, 1786);
    for k in 1..257 {
        got(rt, join.put(k, [0; 7]));
    }
    holds(rt, join.is_complete());
    holds(rt, join.size() == 1786);
    Finished::new(Kind::Etp, diagnostics(rt), join)
}

fn shows(rt: &impl Abort, frame: Frame, shown: Shown) {
    holds(rt, is_frame(&frame, &shown));
}

#[test]
fn a_message_is_given_with_its_acknowledgement(rt: HostRuntime) {
    let (bytes, end) = long_message(&rt, rt.alloc()).given();
    same(&rt, bytes.len(), 1786);
    shows(
        &rt,
        end,
        (0x1CC8_2135, [0x17, 0xFA, 6, 0, 0, 0xCA, 0xFE, 0]),
    );
}

#[test]
fn a_message_is_refused_by_an_abort(rt: HostRuntime) {
    let refused = long_message(&rt, rt.alloc()).refused();
    shows(
        &rt,
        refused,
        (0x1CC8_2135, [0xFF, 2, 0xFF, 0xFF, 0xFF, 0xCA, 0xFE, 0]),
    );
    let abort = diagnostics(&rt).abort(Kind::Tp, AbortReason::Timeout);
    shows(
        &rt,
        abort,
        (0x1CEC_2135, [0xFF, 3, 0xFF, 0xFF, 0xFF, 0xCA, 0xFE, 0]),
    );
}
