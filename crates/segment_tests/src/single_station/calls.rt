//! Calls on nodes, of which a test only looks at the result: their contracts are not carried through the test. A call that finds no
//! memory is made again, so a test has the same end whichever one allocation is refused.
use crate::checks::got;
use crate::stations::pgn;
pub(super) use crate::stations::{A, B};
use bus_frame::{CanId, Frame};
use one_station::{Bytes, Fed, Missed, Node, NodeError, PortId};
use pgn_ids::Address;
use std::alloc::Global;
use std::process::Abort;

/// A frame by its identifier and its bytes.
pub(super) type Shown = (u32, [u8; 8]);

/// A call that a node answers by a number, or by nothing, which is 0 here.
#[derive(Drop)]
pub(super) enum NodeCall {
    /// A message to this destination, of which the node takes a copy.
    Send(Address, &'static [u8]),
    /// The same if its bytes are given away.
    SendBytes(Address, &'static [u8]),
    Pump(Address),
    Cancel(Address, u64),
    Clock(u64),
    Fire,
    Feed(Shown),
    Sent,
    Close(PortId),
}

pub(super) fn frame_of(rt: &impl Abort, shown: &Shown) -> Frame {
    Frame::full(got(rt, CanId::new(shown.0)), shown.1)
}

pub(super) fn node(rt: &impl Abort, alloc: Global, address: Address) -> Node {
    match Node::new(alloc, address) {
        Ok(node) => node,
        Err(_) => got(rt, Node::new(alloc, address)),
    }
}

/// That of a program which starts again at a tick.
pub(super) fn node_again(rt: &impl Abort, alloc: Global, address: Address, tick: u64) -> Node {
    match Node::again(alloc, address, tick) {
        Ok(node) => node,
        Err(_) => got(rt, Node::again(alloc, address, tick)),
    }
}

pub(super) fn open(rt: &impl Abort, node: &mut Node, max_len: u32) -> PortId {
    let opened = match node.open_port(pgn(rt), max_len) {
        Err(NodeError::OutOfMemory) => node.open_port(pgn(rt), max_len),
        opened => opened,
    };
    got(rt, opened)
}

// Bytes that are given away.
fn bytes_of(rt: &impl Abort, alloc: Global, bytes: &[u8]) -> Bytes {
    match Vec::from_slice(alloc, bytes) {
        Ok(items) => Bytes::new(items),
        Err(_) => Bytes::new(got(rt, Vec::from_slice(alloc, bytes))),
    }
}

fn done(made: Result<(), NodeError>) -> Result<u64, NodeError> {
    match made {
        Ok(()) => Ok(0),
        Err(error) => Err(error),
    }
}

// A frame that is looked at without room, or passed by, ends the test, which then prints that memory was refused.
fn taken(rt: &impl Abort, fed: Result<Fed, NodeError>) -> Result<u64, NodeError> {
    match fed {
        Ok(Fed::Taken) => Ok(0),
        Ok(Fed::WithoutRoom) => panic!(rt; "error: no memory"),
        Ok(Fed::PassedBy) => panic!(rt; "error: no memory"),
        Err(error) => Err(error),
    }
}

fn made_once(
    rt: &impl Abort,
    alloc: Global,
    node: &mut Node,
    call: &NodeCall,
) -> Result<u64, NodeError> {
    match call {
        NodeCall::Send(to, bytes) => node.send(*to, pgn(rt), bytes),
        NodeCall::SendBytes(to, bytes) => {
            node.send_bytes(*to, pgn(rt), bytes_of(rt, alloc, bytes))
        }
        NodeCall::Pump(to) => done(node.pump(*to)),
        NodeCall::Cancel(to, number) => done(node.cancel(*to, *number)),
        NodeCall::Clock(tick) => done(node.clock(*tick)),
        NodeCall::Fire => done(node.fire()),
        NodeCall::Feed(shown) => taken(rt, node.feed(frame_of(rt, shown))),
        NodeCall::Sent => done(node.sent()),
        NodeCall::Close(port) => done(node.close_port(*port)),
    }
}

pub(super) fn made(
    rt: &impl Abort,
    alloc: Global,
    node: &mut Node,
    call: &NodeCall,
) -> Result<u64, NodeError> {
    match made_once(rt, alloc, node, call) {
        Err(NodeError::OutOfMemory) => made_once(rt, alloc, node, call),
        made => made,
    }
}

/// Frames were lost, and what was under way ends.
pub(super) fn misses(node: &mut Node) -> bool {
    match node.missed() {
        Missed::Ended => true,
        Missed::Waits => node.missed() == Missed::Ended,
    }
}

pub(super) fn front(node: &mut Node) -> Result<Option<Frame>, NodeError> {
    match node.front() {
        Err(NodeError::OutOfMemory) => node.front(),
        front => front,
    }
}
