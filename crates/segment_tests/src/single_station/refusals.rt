//! Calls that are refused, and change nothing.
use super::calls::{A, B, NodeCall, Shown, node, node_again};
use super::played::{NINE, Step, does, play};
use crate::checks::same;
use crate::stations::PORT;
use one_station::{NewRefused, Node, NodeError, PortId, Refusal, SILENCE};
use pgn_ids::Address;
use std::alloc::Global;
use std::process::Abort;
use tp_wire::Outcome;

const EIGHT: [u8; 8] = [1, 2, 3, 4, 5, 6, 7, 8];

// A frame of the address of 21, which is not its own.
const OWN: Shown = (0x1CEC_3521, [0; 8]);

const REFUSED: [(Address, Step); 10] = [
    (
        A,
        Step::Refuse(NodeCall::Feed(OWN), Refusal::StationAddress),
    ),
    (A, Step::Empty),
    (A, Step::Refuse(NodeCall::Sent, Refusal::NothingToSend)),
    (
        A,
        Step::Refuse(NodeCall::Send(A, &NINE), Refusal::SameStation),
    ),
    (
        A,
        Step::Refuse(NodeCall::Send(B, &EIGHT), Refusal::TooShort),
    ),
    (
        A,
        Step::Refuse(NodeCall::Close(PORT), Refusal::NoSuchStation),
    ),
    (A, Step::Do(NodeCall::Clock(7), 0)),
    (A, Step::Fail(NodeCall::Clock(6), NodeError::ClockPassed)),
    (A, Step::Now(7, 0)),
    (A, Step::Address(A)),
];

#[test]
fn refusals(rt: HostRuntime) {
    does(&rt, rt.alloc(), &REFUSED);
}

#[test]
fn no_address_of_a_node(rt: HostRuntime) {
    let refused = Node::new(rt.alloc(), Address::NULL).err();
    same(&rt, refused, Some(NewRefused::BadAddresses));
}

// A request of 35 to 21 for FECA.
const ASKED: Shown = (0x18EA_2135, [0xCA, 0xFE, 0, 0xFF, 0xFF, 0xFF, 0xFF, 0xFF]);

// A program starts again at tick 5000. It answers others at once, and sends no message for 1,250 ticks.
const STARTING: [(Address, Step); 9] = [
    (A, Step::Now(5000, 5000 + SILENCE)),
    (
        A,
        Step::Fail(NodeCall::Send(B, &NINE), NodeError::Starting(6250)),
    ),
    (A, Step::Do(NodeCall::Feed(ASKED), 0)),
    (A, Step::PutAny),
    (A, Step::Do(NodeCall::Clock(6249), 0)),
    (
        A,
        Step::Fail(NodeCall::SendBytes(B, &NINE), NodeError::Starting(6250)),
    ),
    (A, Step::Next(None)),
    (A, Step::Do(NodeCall::Clock(6250), 0)),
    (A, Step::Do(NodeCall::Send(B, &NINE), 1)),
];

fn starts_again(rt: &impl Abort, alloc: Global) {
    let mut a = node_again(rt, alloc, A, 5000);
    let mut b = node(rt, alloc, B);
    play(rt, alloc, &mut a, &mut b, &STARTING);
}

#[test]
fn program_that_starts_again(rt: HostRuntime) {
    let alloc = rt.alloc();
    starts_again(&rt, alloc);
    let refused = Node::again(alloc, Address::NULL, 0).err();
    same(&rt, refused, Some(NewRefused::BadAddresses));
}

const OF_A: PortId = PortId {
    station: A,
    number: 1,
};

// A message is cancelled, and a port closed, and then there is no other.
const CANCELLED: [(Address, Step); 7] = [
    (A, Step::Do(NodeCall::Send(B, &NINE), 1)),
    (A, Step::Do(NodeCall::Cancel(B, 1), 0)),
    (
        A,
        Step::Refuse(NodeCall::Cancel(B, 1), Refusal::NothingToSend),
    ),
    (A, Step::End(B, 1, Outcome::Cancelled)),
    (A, Step::Open(100, 1)),
    (A, Step::Do(NodeCall::Close(OF_A), 0)),
    (A, Step::Refuse(NodeCall::Close(OF_A), Refusal::NoSuchPort)),
];

#[test]
fn cancelled_message_and_closed_port(rt: HostRuntime) {
    does(&rt, rt.alloc(), &CANCELLED);
}

// A request of 21 for FECA.
const REQUEST: Shown = (0x18EA_3521, [0xCA, 0xFE, 0, 0xFF, 0xFF, 0xFF, 0xFF, 0xFF]);

// 64 answers to requests fill the transmit queue. No further frame is fed until one of them was put.
const FULL: [(Address, Step); 5] = [
    (B, Step::FeedMany(REQUEST, 64)),
    (B, Step::Refuse(NodeCall::Feed(REQUEST), Refusal::TxFull)),
    (B, Step::Next(Some(0))),
    (B, Step::PutAny),
    (B, Step::Do(NodeCall::Feed(REQUEST), 0)),
];

#[test]
fn full_queue(rt: HostRuntime) {
    does(&rt, rt.alloc(), &FULL);
}

// Another destination of 21, and how a message to it begins.
const OTHER: Address = Address(0x36);

const ANNOUNCED: Shown = (0x1CEC_3621, [0x10, 9, 0, 2, 0xFF, 0xCA, 0xFE, 0]);

// The other of two destinations is chosen.
const CHOSEN: [(Address, Step); 9] = [
    (A, Step::Do(NodeCall::SendBytes(B, &NINE), 1)),
    (A, Step::Do(NodeCall::SendBytes(OTHER, &NINE), 1)),
    (
        A,
        Step::Refuse(NodeCall::SendBytes(B, &EIGHT), Refusal::TooShort),
    ),
    (A, Step::Queued(None)),
    (A, Step::NextPump(B)),
    (A, Step::Do(NodeCall::Pump(OTHER), 0)),
    (A, Step::Queued(Some(ANNOUNCED))),
    (
        A,
        Step::Refuse(NodeCall::Pump(OTHER), Refusal::NothingToSend),
    ),
    (A, Step::NextPump(B)),
];

#[test]
fn chosen_destination(rt: HostRuntime) {
    does(&rt, rt.alloc(), &CHOSEN);
}
