//! Lanes of node 21, step by step. The steps of a test are a table, which one function plays: a table needs no proof, and each call in a test
//! does. A test ends if memory is refused.
mod broadcasts;
mod connections;
mod doubts;

use crate::checks::{got, holds, same};
use crate::means::{FECA, Means, frame, pgn, wire, wire_pgn};
use bus_frame::Frame;
use lane_core::*;
use pgn_ids::Address;
use std::alloc::{AllocError, Global};
use std::process::Abort;
use tp_wire::Outcome;
use tx_queue::TxQueue;

const FROM: Address = Address(0x21);

const M9: [u8; 9] = [1, 2, 3, 4, 5, 6, 7, 8, 9];

// What 21 sends to 35 and to 80 in TP.CM, and its packets to them.
const CM_TO_35: u32 = 0x1CEC_3521;

const CM_TO_80: u32 = 0x1CEC_8021;

const DT_TO_35: u32 = 0x1CEB_3521;

const DT_TO_80: u32 = 0x1CEB_8021;

// The Request of 21 to 35 and to 80.
const REQUEST_TO_35: u32 = 0x18EA_3521;

const REQUEST_TO_80: u32 = 0x18EA_8021;

const RTS: [u8; 8] = [0x10, 9, 0, 2, 0xFF, 0xCA, 0xFE, 0];

const FIRST: [u8; 8] = [1, 1, 2, 3, 4, 5, 6, 7];

const LAST: [u8; 8] = [2, 8, 9, 0xFF, 0xFF, 0xFF, 0xFF, 0xFF];

/// What a call leaves: what it queues, and the message that it ends.
enum Left {
    Nothing,
    /// This frame.
    Queued(u32, [u8; 8]),
    /// The Request by this identifier for a PGN of this middle byte.
    Request(u32, u8),
    /// Both packets of the nine bytes.
    Packets(u32),
    /// A data packet offset and seven packets behind it.
    Window(u32, [u8; 8]),
    /// This frame; the message ends.
    LastQueued(u32, [u8; 8], u64, Outcome),
    /// Only the message's end.
    Ended(u64, Outcome),
    /// A TP abort by this identifier with this reason; the message ends.
    Aborted(u32, u8, u64, Outcome),
}

/// What is done with a lane, or is seen of it. Moments are in ticks.
enum Step {
    /// A message of nine bytes is pushed, and has this number.
    Push(u64),
    /// The same of 1,786 bytes.
    PushLong(u64),
    /// A frame is heard at this moment.
    Hear(Means, u64, Left),
    Pump(u64, Left),
    /// A pump is refused, and would do nothing.
    Refuse(u64, PumpRefused),
    Fire(u64, Left),
    Cancel(u64, Left),
    /// Frames were missed.
    Overrun(Left),
    /// The Acknowledgement of a Request for this PGN.
    Answer(u32),
    /// For how many ticks a packet to all isn't due.
    Miss(u64, u64),
    Due(u64, bool),
    /// Whether a message's end would queue an abort.
    QueuesAbort(u64, bool),
    /// How many messages wait.
    Waiting(usize),
}

// The frames in front of the queue, how many there are, and the message that ends.
fn expected(rt: &impl Abort, left: &Left) -> ([Option<Frame>; 2], usize, Option<(u64, Outcome)>) {
    match left {
        Left::Nothing => ([None, None], 0, None),
        Left::Queued(id, bytes) => ([Some(frame(rt, *id, bytes)), None], 1, None),
        Left::Request(id, middle) => ([Some(frame(rt, *id, &[0, *middle, 0])), None], 1, None),
        Left::Packets(id) => {
            let both = [Some(frame(rt, *id, &FIRST)), Some(frame(rt, *id, &LAST))];
            (both, 2, None)
        }
        Left::Window(id, bytes) => {
            let first = frame(rt, 0x1CC7_3521, &FIRST);
            ([Some(frame(rt, *id, bytes)), Some(first)], 8, None)
        }
        Left::LastQueued(id, bytes, number, outcome) => (
            [Some(frame(rt, *id, bytes)), None],
            1,
            Some((*number, *outcome)),
        ),
        Left::Ended(number, outcome) => ([None, None], 0, Some((*number, *outcome))),
        Left::Aborted(id, reason, number, outcome) => {
            let abort = [0xFF, *reason, 0xFF, 0xFF, 0xFF, 0xCA, 0xFE, 0];
            (
                [Some(frame(rt, *id, &abort)), None],
                1,
                Some((*number, *outcome)),
            )
        }
    }
}

fn leaves(rt: &impl Abort, queue: &mut TxQueue, ended: Option<Ended>, left: &Left) -> bool {
    let (frames, count, end) = expected(rt, left);
    let ended = match ended {
        Some(ended) => Some((ended.number, ended.outcome)),
        None => None,
    };
    queue.len() == count && [queue.pop(), queue.pop()] == frames && ended == end
}

// The bytes 01, 02 and so on, from 00 again after FF.
fn places(alloc: Global, len: u32) -> Result<Vec<u8>, AllocError> {
    let mut bytes = Vec::with_capacity(alloc, len as usize)?;
    let mut byte = 0u8;
    for _ in 0..len {
        byte = byte.wrapping_add(1);
        bytes.push(byte)?;
    }
    Ok(bytes)
}

fn lane_to(rt: &impl Abort, alloc: Global, to: Address) -> Lane {
    holds(rt, to.is_one() || to == Address::GLOBAL);
    Lane::new(alloc, FROM, to)
}

fn push(rt: &impl Abort, alloc: Global, lane: &mut Lane, bytes: u32) -> Result<u64, PushRefused> {
    let message = Bytes::new(got(rt, places(alloc, bytes)));
    let most = if lane.to() == Address::GLOBAL {
        1785
    } else {
        117_440_505
    };
    holds(rt, message.len() >= 9);
    holds(rt, message.len() <= most);
    lane.push(pgn(rt, FECA), message)
}

// A pump that is refused queues nothing and ends nothing, if it is made all the same.
fn refuses(
    rt: &impl Abort,
    lane: &mut Lane,
    queue: &mut TxQueue,
    now: u64,
    cause: PumpRefused,
) -> bool {
    holds(rt, queue.free() >= 8);
    let refusal = lane.pump_refusal(now);
    let ended = lane.pump(now, queue);
    refusal == Some(cause) && leaves(rt, queue, ended, &Left::Nothing)
}

fn hears(
    rt: &impl Abort,
    lane: &mut Lane,
    queue: &mut TxQueue,
    means: &Means,
    now: u64,
    left: &Left,
) -> bool {
    holds(rt, queue.is_empty());
    let ended = lane.hear(&wire(rt, means), now, queue);
    leaves(rt, queue, ended, left)
}

fn pumps(rt: &impl Abort, lane: &mut Lane, queue: &mut TxQueue, now: u64, left: &Left) -> bool {
    holds(rt, queue.free() >= 8);
    let refusal = lane.pump_refusal(now);
    let ended = lane.pump(now, queue);
    refusal.is_none() && leaves(rt, queue, ended, left)
}

fn fires(rt: &impl Abort, lane: &mut Lane, queue: &mut TxQueue, now: u64, left: &Left) -> bool {
    holds(rt, queue.is_empty() && lane.is_due(now));
    let ended = lane.fire(now, queue);
    leaves(rt, queue, ended, left)
}

fn cancels(
    rt: &impl Abort,
    lane: &mut Lane,
    queue: &mut TxQueue,
    number: u64,
    left: &Left,
) -> bool {
    holds(rt, queue.is_empty());
    let ended = lane.cancel(number, queue);
    leaves(rt, queue, ended, left)
}

fn overruns(rt: &impl Abort, lane: &mut Lane, queue: &mut TxQueue, left: &Left) -> bool {
    let ended = lane.overrun();
    leaves(rt, queue, ended, left)
}

// Whether a step does, or shows, what it says. The queue is empty before.
fn is_so(
    rt: &impl Abort,
    alloc: Global,
    lane: &mut Lane,
    queue: &mut TxQueue,
    step: &Step,
) -> bool {
    match step {
        Step::Push(number) => got(rt, push(rt, alloc, lane, 9)) == *number,
        Step::PushLong(number) => got(rt, push(rt, alloc, lane, 1786)) == *number,
        Step::Hear(means, now, left) => hears(rt, lane, queue, means, *now, left),
        Step::Pump(now, left) => pumps(rt, lane, queue, *now, left),
        Step::Refuse(now, cause) => refuses(rt, lane, queue, *now, *cause),
        Step::Fire(now, left) => fires(rt, lane, queue, *now, left),
        Step::Cancel(number, left) => cancels(rt, lane, queue, *number, left),
        Step::Overrun(left) => overruns(rt, lane, queue, left),
        Step::Answer(token) => {
            lane.answer(wire_pgn(rt, *token));
            true
        }
        Step::Miss(now, ticks) => lane.missing(*now) == *ticks,
        Step::Due(now, is_due) => lane.is_due(*now) == *is_due,
        Step::QueuesAbort(number, queues) => lane.queues_abort(*number) == *queues,
        Step::Waiting(messages) => lane.pending_len() == *messages,
    }
}

// Ends the test at the first step that isn't so, and prints its place in the table.
fn play(rt: &impl Abort, alloc: Global, lane: &mut Lane, steps: &[Step]) {
    for (place, step) in steps.iter().enumerate() {
        let mut queue = got(rt, TxQueue::new(alloc));
        let so = is_so(rt, alloc, lane, &mut queue, step);
        same(rt, (place, so), (place, true));
    }
}

// A new lane to this node does all this.
fn does(rt: &impl Abort, alloc: Global, to: Address, steps: &[Step]) {
    let mut lane = lane_to(rt, alloc, to);
    holds(rt, lane.from() == FROM && lane.to() == to);
    play(rt, alloc, &mut lane, steps);
}

// The 32 messages that a lane takes, and the next one, which it hands back.
fn fill(rt: &impl Abort, alloc: Global, lane: &mut Lane) {
    for number in 1..=32u64 {
        holds(rt, !lane.is_full());
        same(rt, got(rt, push(rt, alloc, lane, 9)), number);
    }
    holds(rt, lane.is_full());
    same(rt, (lane.pending_len(), lane.sent()), (32, 32));
    match push(rt, alloc, lane, 9) {
        Err(PushRefused::LaneFull(bytes)) => same(rt, bytes.as_slice(), M9.as_slice()),
        _ => panic!(rt; "a lane of 32 messages takes one more"),
    }
}

#[test]
fn messages_are_numbered(rt: HostRuntime) {
    let mut lane = lane_to(&rt, rt.alloc(), Address(0x35));
    fill(&rt, rt.alloc(), &mut lane);
    let pending = [lane.is_pending(32), lane.is_pending(33), lane.is_pending(0)];
    same(&rt, pending, [true, false, false]);
}

fn copy(rt: &impl Abort, alloc: Global, bytes: &Bytes) {
    let copy = got(rt, bytes.copy(alloc));
    same(rt, (copy.as_slice(), copy.len()), (M9.as_slice(), 9));
}

#[test]
fn bytes_are_copied(rt: HostRuntime) {
    copy(
        &rt,
        rt.alloc(),
        &Bytes::new(got(&rt, places(rt.alloc(), 9))),
    );
}

fn image(rt: &impl Abort, alloc: Global, lane: &Lane) -> LaneImage {
    got(rt, lane.image(alloc))
}

// The lane equals its image until these steps.
fn until(rt: &impl Abort, alloc: Global, lane: &mut Lane, steps: &[Step]) {
    let image = image(rt, alloc, lane);
    let before = image.is_of(lane);
    play(rt, alloc, lane, steps);
    same(rt, (before, image.is_of(lane)), (true, false));
}

const PUSHED: [Step; 1] = [Step::Push(1)];

const BEGUN: [Step; 1] = [Step::Pump(0, Left::Queued(CM_TO_35, RTS))];

const CANCELLED: [Step; 1] = [Step::Cancel(1, Left::Aborted(CM_TO_35, 250, 1, Outcome::Cancelled))];

fn push_begin_and_cancel(rt: &impl Abort, alloc: Global, lane: &mut Lane) {
    let new = image(rt, alloc, lane);
    until(rt, alloc, lane, &PUSHED);
    until(rt, alloc, lane, &BEGUN);
    until(rt, alloc, lane, &CANCELLED);
    holds(rt, !new.is_of(lane));
}

// An image is that of its lane until a message is pushed, begun or ended.
#[test]
fn an_image_is_that_of_its_lane(rt: HostRuntime) {
    let mut lane = lane_to(&rt, rt.alloc(), Address(0x35));
    push_begin_and_cancel(&rt, rt.alloc(), &mut lane);
}
