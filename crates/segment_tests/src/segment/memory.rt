//! Exchanges by single calls on two segments side by side, whichever one allocation is refused.
use super::calls::*;
use super::pairs::*;
use super::played::{is_done, is_refused};
use crate::checks::{got, same};
use segment_core::*;
use std::alloc::{AllocError, Global};
use std::process::Abort;

/// What is done with both segments, which answer alike, or is seen of them.
enum Step {
    /// A port of 35 is opened, and has this number.
    Open(u64),
    /// Message 1 of so many bytes is sent to 35.
    Send(u32),
    /// A call is done.
    Do(PlainCall),
    /// A call is refused.
    Refuse(PlainCall, Refusal),
    /// So many frames are put, each taken by both stations.
    Frames(u64),
    /// The same if each station takes each frame twice.
    FramesTwice(u64),
    /// How many frames 35 has queued.
    Queued(usize),
    /// How many frames were put; the message was given once and acknowledged.
    Ended(u64),
    /// How many frames were taken again.
    Repeated(u64),
    /// The message was aborted, and not given.
    Aborted,
}

fn two(rt: &impl Abort, alloc: Global) -> Pair {
    Pair {
        one: segment(rt, alloc),
        other: segment(rt, alloc),
    }
}

fn opens(rt: &impl Abort, alloc: Global, pair: &mut Pair, number: u64) -> bool {
    match both(rt, alloc, pair, opening(rt, 4000)) {
        Reply::Opened(port) => port.station == B && port.number == number,
        _ => false,
    }
}

fn sends(rt: &impl Abort, alloc: Global, pair: &mut Pair, len: u32) -> bool {
    match both(rt, alloc, pair, sending(rt, alloc, B, len)) {
        Reply::Sent(number) => number == 1,
        _ => false,
    }
}

fn done(rt: &impl Abort, alloc: Global, pair: &mut Pair, call: &PlainCall) -> bool {
    is_done(both(rt, alloc, pair, call_of(rt, call)))
}

// The calls by which both stations take a frame.
const TAKEN: [PlainCall; 2] = [PlainCall::Take(A), PlainCall::Take(B)];

// The same if each takes it twice.
const TAKEN_TWICE: [PlainCall; 4] = [
    PlainCall::Take(B),
    PlainCall::Again(B),
    PlainCall::Take(A),
    PlainCall::Again(A),
];

const PUMP: PlainCall = PlainCall::Pump(B);

const TRANSMIT_A: PlainCall = PlainCall::Transmit(A);

const TRANSMIT_B: PlainCall = PlainCall::Transmit(B);

// Puts the next frame, and first queues the lane's next ones if no queue has one.
fn puts(rt: &impl Abort, alloc: Global, pair: &mut Pair) -> bool {
    let is_empty = queue_len(&pair.one, A) == 0 && queue_len(&pair.one, B) == 0;
    if is_empty && !done(rt, alloc, pair, &PUMP) {
        return false;
    }
    let transmit = if queue_len(&pair.one, A) > 0 {
        &TRANSMIT_A
    } else {
        &TRANSMIT_B
    };
    done(rt, alloc, pair, transmit)
}

// So many frames are put, and then these calls done after each.
fn frames(
    rt: &impl Abort,
    alloc: Global,
    pair: &mut Pair,
    count: u64,
    calls: &[PlainCall],
) -> bool {
    for _ in 0..count {
        if !puts(rt, alloc, pair) {
            return false;
        }
        for call in calls {
            if !done(rt, alloc, pair, call) {
                return false;
            }
        }
    }
    true
}

fn has_ended(pair: &Pair, frames: u64) -> bool {
    let counts = pair.other.counts();
    let ended = (counts.frames, counts.given, counts.acknowledged);
    ended == (frames, 1, 1) && pair.other.is_idle()
}

fn is_aborted(pair: &Pair) -> bool {
    let counts = pair.other.counts();
    (counts.aborted, counts.given) == (1, 0)
}

// Whether a step does, or shows, what it says.
fn is_so(rt: &impl Abort, alloc: Global, pair: &mut Pair, step: &Step) -> bool {
    match step {
        Step::Open(number) => opens(rt, alloc, pair, *number),
        Step::Send(len) => sends(rt, alloc, pair, *len),
        Step::Do(call) => done(rt, alloc, pair, call),
        Step::Refuse(call, cause) => is_refused(both(rt, alloc, pair, call_of(rt, call)), *cause),
        Step::Frames(count) => frames(rt, alloc, pair, *count, &TAKEN),
        Step::FramesTwice(count) => frames(rt, alloc, pair, *count, &TAKEN_TWICE),
        Step::Queued(frames) => queue_len(&pair.one, B) == *frames,
        Step::Ended(frames) => has_ended(pair, *frames),
        Step::Repeated(frames) => pair.one.counts().repeated == *frames,
        Step::Aborted => is_aborted(pair),
    }
}

// Ends the test at the first step that isn't so, and prints its place in the table.
fn play(rt: &impl Abort, alloc: Global, pair: &mut Pair, steps: &[Step]) {
    for (place, step) in steps.iter().enumerate() {
        let so = is_so(rt, alloc, pair, step);
        same(rt, (place, so), (place, true));
    }
}

fn do_both(rt: &impl Abort, alloc: Global, steps: &[Step]) {
    let mut pair = two(rt, alloc);
    play(rt, alloc, &mut pair, steps);
}

const CONNECTION: [Step; 4] = [
    Step::Open(1),
    Step::Send(9),
    Step::Frames(5),
    Step::Ended(5),
];

#[test]
fn connection_with_each_growth_refused(rt: HostRuntime) {
    do_both(&rt, rt.alloc(), &CONNECTION);
}

const EXTENDED: [Step; 4] = [
    Step::Open(1),
    Step::Send(1786),
    Step::Frames(266),
    Step::Ended(266),
];

#[test]
fn extended_message_with_each_growth_refused(rt: HostRuntime) {
    do_both(&rt, rt.alloc(), &EXTENDED);
}

// The repeated RTS is answered by a second CTS, which 21 takes before it continues.
const REPEATED: [Step; 5] = [
    Step::Open(1),
    Step::Send(9),
    Step::FramesTwice(6),
    Step::Ended(6),
    Step::Repeated(12),
];

#[test]
fn repeated_frames_with_each_growth_refused(rt: HostRuntime) {
    do_both(&rt, rt.alloc(), &REPEATED);
}

// Port 35.1 closes while its message is under way, and port 35.2 opens. 21 takes the abort.
const CLOSED: [Step; 13] = [
    Step::Open(1),
    Step::Send(9),
    Step::Frames(3),
    Step::Do(PlainCall::Transmit(A)),
    Step::Do(PlainCall::Close),
    Step::Queued(1),
    Step::Open(2),
    Step::Do(PlainCall::Take(B)),
    Step::Do(PlainCall::Take(A)),
    Step::Do(PlainCall::Transmit(B)),
    Step::Do(PlainCall::Take(A)),
    Step::Aborted,
    Step::Refuse(PlainCall::Close, Refusal::NoSuchPort),
];

#[test]
fn port_closed_on_the_way_with_each_growth_refused(rt: HostRuntime) {
    do_both(&rt, rt.alloc(), &CLOSED);
}

// The calls of a message of two packets with each frame taken twice.
const LISTED: [PlainCall; 32] = [
    PlainCall::Pump(B),
    PlainCall::Transmit(A),
    PlainCall::Take(B),
    PlainCall::Again(B),
    PlainCall::Take(A),
    PlainCall::Again(A),
    PlainCall::Transmit(B),
    PlainCall::Take(B),
    PlainCall::Again(B),
    PlainCall::Take(A),
    PlainCall::Again(A),
    PlainCall::Transmit(B),
    PlainCall::Take(B),
    PlainCall::Again(B),
    PlainCall::Take(A),
    PlainCall::Again(A),
    PlainCall::Pump(B),
    PlainCall::Transmit(A),
    PlainCall::Take(B),
    PlainCall::Again(B),
    PlainCall::Take(A),
    PlainCall::Again(A),
    PlainCall::Transmit(A),
    PlainCall::Take(B),
    PlainCall::Again(B),
    PlainCall::Take(A),
    PlainCall::Again(A),
    PlainCall::Transmit(B),
    PlainCall::Take(B),
    PlainCall::Again(B),
    PlainCall::Take(A),
    PlainCall::Again(A),
];

// The list without the first `from` calls.
fn list_once(rt: &impl Abort, alloc: Global, from: usize) -> Result<Vec<Call>, AllocError> {
    let mut calls = Vec::with_capacity(alloc, 32)?;
    for (place, call) in LISTED.iter().enumerate() {
        if place >= from {
            calls.push(call_of(rt, call))?;
        }
    }
    Ok(calls)
}

fn list(rt: &impl Abort, alloc: Global, from: usize) -> Vec<Call> {
    match list_once(rt, alloc, from) {
        Ok(calls) => calls,
        Err(_) => got(rt, list_once(rt, alloc, from)),
    }
}

// Runs the rest of the list; returns how that ended, and how many calls were done.
fn run_from(rt: &impl Abort, alloc: Global, segment: &mut Segment, from: usize) -> (RunEnd, usize) {
    let ran = run(segment, list(rt, alloc, from));
    (ran.end, ran.replies.len())
}

// Runs the rest of the list until no memory is refused.
fn run_all(rt: &impl Abort, alloc: Global, segment: &mut Segment) {
    let (end, done) = run_from(rt, alloc, segment, 0);
    if end == RunEnd::OutOfMemory {
        let rest = run_from(rt, alloc, segment, done);
        same(rt, rest, (RunEnd::All, 32usize.saturating_sub(done)));
    } else {
        same(rt, done, 32);
    }
}

const SENT: [Step; 2] = [Step::Open(1), Step::Send(9)];

const ENDED: [Step; 1] = [Step::Ended(6)];

#[test]
fn one_list_with_each_growth_refused(rt: HostRuntime) {
    let mut pair = two(&rt, rt.alloc());
    play(&rt, rt.alloc(), &mut pair, &SENT);
    run_all(&rt, rt.alloc(), &mut pair.other);
    play(&rt, rt.alloc(), &mut pair, &ENDED);
}

// Takes the frame that a drive put, if a station found no memory to take it.
fn takes_rest(rt: &impl Abort, segment: &mut Segment) {
    if segment.waiting(A) > 0 {
        let _told = apply(rt, segment, call_of(rt, &TAKEN[0]));
    }
    if segment.waiting(B) > 0 {
        let _told = apply(rt, segment, call_of(rt, &TAKEN[1]));
    }
}

// A drive puts up to 266 frames: how it ended, and how many it put.
fn drive_on(rt: &impl Abort, segment: &mut Segment) -> (DriveEnd, u64) {
    let driven = drive(segment, A, B, 266);
    same(rt, driven.turns, driven.frames.as_slice().len() as u64);
    (driven.end, driven.turns)
}

// Drives again if a drive finds no memory.
fn drive_all(rt: &impl Abort, segment: &mut Segment) {
    let (end, turns) = drive_on(rt, segment);
    if end == DriveEnd::OutOfMemory {
        takes_rest(rt, segment);
        let (_end, rest) = drive_on(rt, segment);
        same(rt, turns.saturating_add(rest), 266);
    } else {
        same(rt, (end, turns), (DriveEnd::Turns, 266));
    }
}

const LONG_SENT: [Step; 2] = [Step::Open(1), Step::Send(1786)];

const LONG_ENDED: [Step; 1] = [Step::Ended(266)];

#[test]
fn drive_with_each_growth_refused(rt: HostRuntime) {
    let mut pair = two(&rt, rt.alloc());
    play(&rt, rt.alloc(), &mut pair, &LONG_SENT);
    drive_all(&rt, &mut pair.other);
    play(&rt, rt.alloc(), &mut pair, &LONG_ENDED);
}
