//! What follows from a frame at a receiver, in place or by value. A test ends if something else follows.
use crate::checks::holds;
use bus_frame::Frame;
use responder::{Finished, Flow, InState, Left, Received, Receiver};
use std::process::Abort;
use tp_wire::Wire;
use tx_queue::TxQueue;

/// What is left to do after a frame that a receiver takes in place, and the frame that is queued, which is the only
/// one.
pub(crate) fn taken(
    rt: &impl Abort,
    state: &mut Receiver,
    queue: &mut TxQueue,
    wire: &Wire<'_>,
    room: bool,
    flow: Flow,
    now: u64,
) -> (Left, Option<Frame>) {
    holds(rt, queue.is_empty());
    let left = state.take(wire, room, flow, now, queue);
    let answer = queue.pop();
    holds(rt, queue.is_empty());
    (left, answer)
}

/// The message that a packet completes, and nothing is queued.
pub(crate) fn completed(
    rt: &impl Abort,
    mut state: Receiver,
    queue: &mut TxQueue,
    wire: &Wire<'_>,
    flow: Flow,
    now: u64,
) -> Finished {
    holds(rt, queue.is_empty());
    let left = state.take(wire, true, flow, now, queue);
    holds(rt, queue.is_empty());
    match (left, wire) {
        (
            Left::Message,
            Wire::Packet {
                kind: _,
                sequence: _,
                bytes,
            },
        ) => state.complete(bytes.array()),
        _ => panic!(rt; "the message is not whole"),
    }
}

/// The session continues, whether a frame is queued or none.
pub(crate) fn on(rt: &impl Abort, received: Received) -> (InState, Option<Frame>) {
    match received {
        Received::On(state, frame) => (state, frame),
        _ => panic!(rt; "the session ends"),
    }
}

pub(crate) fn complete(rt: &impl Abort, received: Received) -> Finished {
    match received {
        Received::Complete(message) => message,
        _ => panic!(rt; "the message is not whole"),
    }
}

/// The session ends, and its abort is queued.
pub(crate) fn aborted(rt: &impl Abort, received: Received) -> Frame {
    match received {
        Received::Ended(Some(abort)) => abort,
        _ => panic!(rt; "the session goes on or ends without an abort"),
    }
}
