//! Two nodes, step by step. The steps of a test are a table, which one function plays: a table needs no proof, and each call in a test does.
use super::calls::*;
use crate::checks::same;
use crate::stations::PORT;
use bus_frame::Frame;
use one_station::{Event, Node, NodeError, PortId, Refusal, TakeError};
use pgn_ids::Address;
use std::alloc::Global;
use std::process::Abort;
use tp_wire::Outcome;

/// The bytes of the message that `Step::Nine` looks for.
pub(super) const NINE: [u8; 9] = [1, 2, 3, 4, 5, 6, 7, 8, 9];

/// What is done with a node, or is seen of it.
pub(super) enum Step {
    /// A port of this number is opened for messages of at most so many bytes.
    Open(u32, u64),
    /// A call is done, and answered by this number.
    Do(NodeCall, u64),
    /// A call is refused for this cause.
    Refuse(NodeCall, Refusal),
    /// A call isn't done for another reason.
    Fail(NodeCall, NodeError),
    /// So many frames are taken.
    FeedMany(Shown, u64),
    /// The next frame is this one, and it is put on the bus.
    Put(Shown),
    /// The same, and the other node takes it.
    Carry(Shown),
    /// The next frame, whichever it is, is put on the bus.
    PutAny,
    /// There is no frame to be put.
    Empty,
    /// Frames were lost, and what was under way ends.
    Miss,
    /// The next event is the outcome of this message to a destination, and is taken.
    End(Address, u64, Outcome),
    /// The next event is the nine bytes from 21 at port 35.1. They don't fit into a room that is too small by one place, and are taken.
    Nine,
    /// The next event is this message, and is taken.
    Twenty([u8; 20]),
    /// There is no further event.
    Quiet,
    /// When a timer is due.
    Due(Option<u64>),
    /// When there is something to do.
    Next(Option<u64>),
    /// The tick, and the one from which messages are sent.
    Now(u64, u64),
    /// The address.
    Address(Address),
    /// The frame in front of the queue.
    Queued(Option<Shown>),
    /// The destination whose turn it is.
    NextPump(Address),
}

fn puts_any(rt: &impl Abort, alloc: Global, node: &mut Node) -> bool {
    matches!(front(node), Ok(Some(_))) && made(rt, alloc, node, &NodeCall::Sent) == Ok(0)
}

fn puts(rt: &impl Abort, alloc: Global, node: &mut Node, shown: &Shown) -> bool {
    let frame = Ok(Some(frame_of(rt, shown)));
    front(node) == frame && made(rt, alloc, node, &NodeCall::Sent) == Ok(0)
}

fn takes(rt: &impl Abort, alloc: Global, node: &mut Node, shown: &Shown) -> bool {
    made(rt, alloc, node, &NodeCall::Feed(*shown)) == Ok(0)
}

fn takes_many(rt: &impl Abort, alloc: Global, node: &mut Node, shown: &Shown, many: u64) -> bool {
    for _ in 0..many {
        if !takes(rt, alloc, node, shown) {
            return false;
        }
    }
    true
}

fn ends(node: &mut Node, destination: Address, message: u64, expected: Outcome) -> bool {
    match node.take_event() {
        Some(
            Event::Outcome {
                to,
                number,
                outcome,
                ..
            },
        ) => to == destination && number == message && outcome == expected,
        _ => false,
    }
}

// The port and the source of the next message given, and how many bytes it has.
fn given_len(node: &Node) -> Option<(PortId, Address, usize)> {
    match node.next_event() {
        Some(
            Event::Given {
                port,
                from,
                bytes,
                ..
            },
        ) => Some((*port, *from, bytes.len())),
        _ => None,
    }
}

// A room that is too small by one place stays as it is.
fn gives_no_eight(node: &mut Node) -> bool {
    let mut room = [0xAA; 8];
    node.take_bytes(&mut room) == Err(TakeError::TooLittleRoom(9)) && room == [0xAA; 8]
}

fn gives_nine(node: &mut Node) -> bool {
    let mut room = [0xAA; 12];
    node.take_bytes(&mut room) == Ok(9) && room == [1, 2, 3, 4, 5, 6, 7, 8, 9, 0xAA, 0xAA, 0xAA]
}

fn gives_twenty(node: &mut Node, expected: &[u8; 20]) -> bool {
    let mut room = [0; 20];
    node.take_bytes(&mut room) == Ok(20) && room == *expected
}

fn is_quiet(node: &mut Node) -> bool {
    node.take_bytes(&mut []) == Err(TakeError::Nothing) && node.next_event().is_none()
}

// Whether a step does, or shows, what it says.
fn is_so(rt: &impl Abort, alloc: Global, node: &mut Node, other: &mut Node, step: &Step) -> bool {
    match step {
        Step::Open(max_len, number) => {
            let opened = open(rt, node, *max_len);
            opened.station == node.address() && opened.number == *number
        }
        Step::Do(call, number) => made(rt, alloc, node, call) == Ok(*number),
        Step::Refuse(call, cause) => {
            made(rt, alloc, node, call) == Err(NodeError::Refused(*cause))
        }
        Step::Fail(call, error) => made(rt, alloc, node, call) == Err(*error),
        Step::FeedMany(shown, many) => takes_many(rt, alloc, node, shown, *many),
        Step::Put(shown) => puts(rt, alloc, node, shown),
        Step::Carry(shown) => puts(rt, alloc, node, shown) && takes(rt, alloc, other, shown),
        Step::PutAny => puts_any(rt, alloc, node),
        Step::Queued(shown) => node.queued() == frame_or_none(rt, shown),
        other => is_so_of_events(node, other),
    }
}

fn frame_or_none(rt: &impl Abort, shown: &Option<Shown>) -> Option<Frame> {
    match shown {
        Some(shown) => Some(frame_of(rt, shown)),
        None => None,
    }
}

// The same of a step that makes none of the calls.
fn is_so_of_events(node: &mut Node, step: &Step) -> bool {
    match step {
        Step::Empty => front(node) == Ok(None),
        Step::Miss => misses(node),
        Step::End(to, number, outcome) => ends(node, *to, *number, *outcome),
        Step::Nine => {
            given_len(node) == Some((PORT, A, 9)) && gives_no_eight(node) && gives_nine(node)
        }
        Step::Twenty(expected) => gives_twenty(node, expected),
        Step::Quiet => is_quiet(node),
        other => is_so_of_readers(node, other),
    }
}

fn is_so_of_readers(node: &Node, step: &Step) -> bool {
    match step {
        Step::Due(tick) => node.next_due_at() == *tick,
        Step::Next(tick) => node.next_at() == *tick,
        Step::Now(tick, from) => node.now() == *tick && node.sends_from() == *from,
        Step::Address(address) => node.address() == *address,
        Step::NextPump(to) => node.next_pump() == Some(*to),
        _ => false,
    }
}

/// Ends the test at the first step that isn't so, and prints its place in the table. Each stands with the address of its node.
pub(super) fn play(
    rt: &impl Abort,
    alloc: Global,
    a: &mut Node,
    b: &mut Node,
    steps: &[(Address, Step)],
) {
    for (place, (address, step)) in steps.iter().enumerate() {
        let so = if *address == A {
            is_so(rt, alloc, a, b, step)
        } else {
            is_so(rt, alloc, b, a, step)
        };
        same(rt, (place, so), (place, true));
    }
}

/// Two new nodes do all this.
pub(super) fn does(rt: &impl Abort, alloc: Global, steps: &[(Address, Step)]) {
    let mut a = node(rt, alloc, A);
    let mut b = node(rt, alloc, B);
    play(rt, alloc, &mut a, &mut b, steps);
}
