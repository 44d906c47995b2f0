//! Messages between two nodes: frames as SAE J1939-21 writes them.
use super::calls::{A, B, NodeCall, Shown};
use super::played::{NINE, Step, does};
use one_station::Refusal;
use pgn_ids::Address;
use tp_wire::Outcome;

const BAM: Shown = (0x1CEC_FF21, [0x20, 9, 0, 2, 0xFF, 0xCA, 0xFE, 0]);

const FIRST_TO_ALL: Shown = (0x1CEB_FF21, [1, 1, 2, 3, 4, 5, 6, 7]);

const LAST_TO_ALL: Shown = (0x1CEB_FF21, [2, 8, 9, 0xFF, 0xFF, 0xFF, 0xFF, 0xFF]);

// Port 35.1 is open, and 21 sends message 1 of nine bytes.
const BROADCAST: [(Address, Step); 16] = [
    (B, Step::Open(9, 1)),
    (A, Step::Do(NodeCall::Send(Address::GLOBAL, &NINE), 1)),
    (A, Step::Next(Some(0))),
    (A, Step::Carry(BAM)),
    (A, Step::Empty),
    (A, Step::Next(Some(50))),
    (A, Step::Do(NodeCall::Clock(50), 0)),
    (A, Step::Carry(FIRST_TO_ALL)),
    (A, Step::Next(Some(100))),
    (A, Step::Do(NodeCall::Clock(100), 0)),
    (A, Step::Carry(LAST_TO_ALL)),
    (A, Step::Next(None)),
    (A, Step::End(Address::GLOBAL, 1, Outcome::Broadcast)),
    (B, Step::Nine),
    (A, Step::Quiet),
    (B, Step::Quiet),
];

#[test]
fn broadcast(rt: HostRuntime) {
    does(&rt, rt.alloc(), &BROADCAST);
}

const RTS: Shown = (0x1CEC_3521, [0x10, 9, 0, 2, 0xFF, 0xCA, 0xFE, 0]);

const CTS: Shown = (0x1CEC_2135, [0x11, 2, 1, 0xFF, 0xFF, 0xCA, 0xFE, 0]);

const FIRST: Shown = (0x1CEB_3521, [1, 1, 2, 3, 4, 5, 6, 7]);

const LAST: Shown = (0x1CEB_3521, [2, 8, 9, 0xFF, 0xFF, 0xFF, 0xFF, 0xFF]);

const END: Shown = (0x1CEC_2135, [0x13, 9, 0, 2, 0xFF, 0xCA, 0xFE, 0]);

// The first packet is repeated: the message is given once.
const CONNECTION: [(Address, Step); 13] = [
    (B, Step::Open(9, 1)),
    (A, Step::Do(NodeCall::Send(B, &NINE), 1)),
    (A, Step::Carry(RTS)),
    (B, Step::Carry(CTS)),
    (A, Step::Carry(FIRST)),
    (B, Step::Do(NodeCall::Feed(FIRST), 0)),
    (A, Step::Carry(LAST)),
    (B, Step::Carry(END)),
    (A, Step::End(B, 1, Outcome::Acknowledged)),
    (B, Step::Nine),
    (A, Step::Quiet),
    (B, Step::Quiet),
    (A, Step::Due(None)),
];

#[test]
fn connection(rt: HostRuntime) {
    does(&rt, rt.alloc(), &CONNECTION);
}

// The abort by a timeout.
const ABORT: Shown = (0x1CEC_3521, [0xFF, 3, 0xFF, 0xFF, 0xFF, 0xCA, 0xFE, 0]);

// The RTS is lost, and no CTS arrives within T3.
const LOST: [(Address, Step); 13] = [
    (B, Step::Open(9, 1)),
    (A, Step::Do(NodeCall::Send(B, &NINE), 1)),
    (A, Step::Put(RTS)),
    (A, Step::Due(Some(1250))),
    (A, Step::Next(Some(1250))),
    (A, Step::Do(NodeCall::Clock(1249), 0)),
    (A, Step::Refuse(NodeCall::Fire, Refusal::NothingDue)),
    (A, Step::Do(NodeCall::Clock(1250), 0)),
    (A, Step::Do(NodeCall::Fire, 0)),
    (A, Step::End(B, 1, Outcome::TimedOut)),
    (A, Step::Carry(ABORT)),
    (A, Step::Quiet),
    (B, Step::Quiet),
];

#[test]
fn lost_frame(rt: HostRuntime) {
    does(&rt, rt.alloc(), &LOST);
}
