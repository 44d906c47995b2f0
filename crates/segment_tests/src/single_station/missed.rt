//! Frames that were lost between the bus and a node.
use super::calls::{A, B, NodeCall, Shown};
use super::played::{Step, does};
use pgn_ids::Address;
use tp_wire::Outcome;

// 21 announces twenty bytes to all (SAE J1939-21, TP.CM_BAM).
const BAM: Shown = (0x1CEC_FF21, [0x20, 20, 0, 3, 0xFF, 0xCA, 0xFE, 0]);

// The first two packets of its first message, and all of its second.
const FIRST_OF_ONE: Shown = (0x1CEB_FF21, [1, 1, 1, 1, 1, 1, 1, 1]);

const SECOND_OF_ONE: Shown = (0x1CEB_FF21, [2, 1, 1, 1, 1, 1, 1, 1]);

const FIRST_OF_TWO: Shown = (0x1CEB_FF21, [1, 2, 2, 2, 2, 2, 2, 2]);

const SECOND_OF_TWO: Shown = (0x1CEB_FF21, [2, 2, 2, 2, 2, 2, 2, 2]);

const THIRD_OF_TWO: Shown = (0x1CEB_FF21, [3, 2, 2, 2, 2, 2, 2, 0xFF]);

// Two packets of the first message, and the rest of the second: nobody sent it.
const MIXED: [u8; 20] = [1, 1, 1, 1, 1, 1, 1, 1, 1, 1, 1, 1, 1, 1, 2, 2, 2, 2, 2, 2];

const TWO: [u8; 20] = [2; 20];

// Three frames of two messages of 21 are lost: the last packet of the first, the second announcement, and the first packet of the
// second. A node that doesn't learn of the loss puts a message together that nobody sent.
const UNREPORTED: [(Address, Step); 7] = [
    (B, Step::Open(20, 1)),
    (B, Step::Do(NodeCall::Feed(BAM), 0)),
    (B, Step::Do(NodeCall::Feed(FIRST_OF_ONE), 0)),
    (B, Step::Do(NodeCall::Feed(SECOND_OF_ONE), 0)),
    (B, Step::Do(NodeCall::Feed(SECOND_OF_TWO), 0)),
    (B, Step::Do(NodeCall::Feed(THIRD_OF_TWO), 0)),
    (B, Step::Twenty(MIXED)),
];

#[test]
fn unreported_loss(rt: HostRuntime) {
    does(&rt, rt.alloc(), &UNREPORTED);
}

// A node that learns of the loss gives neither message. The second one, sent again, is received whole.
const REPORTED: [(Address, Step); 14] = [
    (B, Step::Open(20, 1)),
    (B, Step::Do(NodeCall::Feed(BAM), 0)),
    (B, Step::Do(NodeCall::Feed(FIRST_OF_ONE), 0)),
    (B, Step::Do(NodeCall::Feed(SECOND_OF_ONE), 0)),
    (B, Step::Miss),
    (B, Step::Do(NodeCall::Feed(SECOND_OF_TWO), 0)),
    (B, Step::Do(NodeCall::Feed(THIRD_OF_TWO), 0)),
    (B, Step::Quiet),
    (B, Step::Do(NodeCall::Feed(BAM), 0)),
    (B, Step::Do(NodeCall::Feed(FIRST_OF_TWO), 0)),
    (B, Step::Do(NodeCall::Feed(SECOND_OF_TWO), 0)),
    (B, Step::Do(NodeCall::Feed(THIRD_OF_TWO), 0)),
    (B, Step::Twenty(TWO)),
    (B, Step::Quiet),
];

#[test]
fn reported_loss(rt: HostRuntime) {
    does(&rt, rt.alloc(), &REPORTED);
}

// An RTS is put to each of two nodes, and both connections end.
const UNDER_WAY: [(Address, Step); 9] = [
    (A, Step::Do(NodeCall::Send(B, &TWO), 1)),
    (A, Step::PutAny),
    (A, Step::Do(NodeCall::Send(Address(0x36), &TWO), 1)),
    (A, Step::PutAny),
    (A, Step::Miss),
    (A, Step::End(B, 1, Outcome::Overrun)),
    (A, Step::End(Address(0x36), 1, Outcome::Overrun)),
    (A, Step::Quiet),
    (A, Step::Due(None)),
];

#[test]
fn connections_under_way(rt: HostRuntime) {
    does(&rt, rt.alloc(), &UNDER_WAY);
}
