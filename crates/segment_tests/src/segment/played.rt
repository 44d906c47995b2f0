//! A segment of stations 21 and 35, step by step. The steps of a test are a table, which one function plays: a table needs no proof, and each
//! call in a test does. A test ends if a call finds no memory.
use super::calls::*;
use crate::checks::{got, same};
use bus_frame::Frame;
use pgn_ids::Address;
use segment_core::*;
use segment_drain::{DrainEnd, drain, has_rested};
use segment_work::{enough_turns, work};
use std::alloc::Global;
use std::process::Abort;
use tp_wire::Outcome;

/// What a call tells: the message of the bytes 1 to 9 from 21 to this destination, given at port 35.1, or the outcome of message 1 to it.
pub(super) enum Told {
    Given(Address),
    End(Address, Outcome),
}

/// How many messages are acknowledged, timed out and given.
pub(super) type Totals = (u64, u64, u64);

/// What is done with a segment, or is seen of it.
pub(super) enum Step {
    /// Port 35.1 is opened for messages of at most so many bytes.
    Open(u32),
    /// A message of so many bytes from 21, as `filled` makes them, has this number.
    Send(Address, u32, u64),
    /// A call is done.
    Do(PlainCall),
    /// A call is done, and has no event.
    Quiet(PlainCall),
    /// A call has one event.
    Tell(PlainCall, Told),
    /// A call is refused.
    Refuse(PlainCall, Refusal),
    /// A drive of 21 puts so many frames.
    Put(Address, u64),
    /// A drive of 21 of at most so many turns puts these frames, ends so, and has these events.
    Drive(Address, u64, &'static [Shown], DriveEnd, [Told; 2]),
    /// How many calls are left, and with them how many turns are enough.
    Left(u32),
    /// Just enough turns bring it to rest, after so many.
    Rest(u64),
    /// How the messages ended.
    Ended(Totals),
    Idle(bool),
    Now(u64),
    /// The first tick at which it has something to do by itself.
    Next(Option<u64>),
    /// How many frames the bus had.
    BusLen(u64),
    /// A frame that the bus keeps, if it does.
    Frame(u64, Option<Shown>),
    /// How many frames wait for 21.
    Waiting(u64),
    /// How many frames a station has queued.
    Queued(Address, usize),
    /// Station 21 is there, has no frame queued, and no timer due.
    Rested,
    /// The destination of 21 whose turn it is.
    NextPump(Address),
    /// Why a station opens no port.
    OpenRefusal(Address, Option<Refusal>),
    /// The next frame completes a message of so many bytes for port 35.1.
    Wants(u32),
}

fn opens(rt: &impl Abort, segment: &mut Segment, max_len: u32) -> bool {
    match apply(rt, segment, opening(rt, max_len)) {
        Reply::Opened(port) => port == PORT,
        _ => false,
    }
}

// A copy of the message is sent.
fn sends(
    rt: &impl Abort,
    alloc: Global,
    segment: &mut Segment,
    to: Address,
    len: u32,
    number: u64,
) -> bool {
    let send = sending(rt, alloc, to, len);
    let copy = got(rt, send.copy(alloc));
    match apply(rt, segment, copy) {
        Reply::Sent(sent) => sent == number,
        _ => false,
    }
}

pub(super) fn is_done(reply: Reply) -> bool {
    matches!(reply, Reply::Done(_))
}

fn is_quiet(reply: Reply) -> bool {
    match reply {
        Reply::Done(events) => events.is_empty(),
        _ => false,
    }
}

pub(super) fn is_refused(reply: Reply, cause: Refusal) -> bool {
    match reply {
        Reply::Refused(refused) => refused == cause,
        _ => false,
    }
}

fn is_given(event: &Event, destination: Address) -> bool {
    match event {
        Event::Given {
            port,
            from,
            to,
            bytes,
            ..
        } => {
            let is_of_a = *port == PORT && *from == A && *to == destination;
            is_of_a && bytes.as_slice() == [1, 2, 3, 4, 5, 6, 7, 8, 9].as_slice()
        }
        Event::Outcome { .. } => false,
    }
}

fn is_end(event: &Event, destination: Address, end: Outcome) -> bool {
    match event {
        Event::Given { .. } => false,
        Event::Outcome {
            from,
            to,
            number,
            outcome,
        } => *from == A && *to == destination && *number == 1 && *outcome == end,
    }
}

// Whether this is the only event.
fn tells(events: &Events, told: &Told) -> bool {
    match events.get(0) {
        Some(event) => {
            let is_it = match told {
                Told::Given(to) => is_given(event, *to),
                Told::End(to, outcome) => is_end(event, *to, *outcome),
            };
            is_it && events.len() == 1
        }
        None => false,
    }
}

fn is_told(reply: Reply, told: &Told) -> bool {
    match reply {
        Reply::Done(events) => tells(&events, told),
        _ => false,
    }
}

fn frame_or_none(rt: &impl Abort, shown: &Option<Shown>) -> Option<Frame> {
    match shown {
        Some(shown) => Some(frame(rt, shown.0, &shown.1)),
        None => None,
    }
}

fn are_frames(rt: &impl Abort, frames: &[Frame], expected: &[Shown]) -> bool {
    for (put, shown) in frames.iter().zip(expected) {
        if *put != frame(rt, shown.0, &shown.1) {
            return false;
        }
    }
    frames.len() == expected.len()
}

// Whether two calls of a drive had an event each.
fn are_told(driven: &Driven, told: &[Told; 2]) -> bool {
    match driven.events.parts() {
        [first, second] => tells(first, &told[0]) && tells(second, &told[1]),
        _ => false,
    }
}

fn drives(
    rt: &impl Abort,
    segment: &mut Segment,
    to: Address,
    turns: u64,
    expected: &[Shown],
) -> Driven {
    let driven = driven(rt, segment, A, to, turns);
    same(rt, driven.turns, expected.len() as u64);
    same(rt, are_frames(rt, driven.frames.as_slice(), expected), true);
    driven
}

fn rests(rt: &impl Abort, alloc: Global, segment: &mut Segment, made: u64) -> bool {
    let turns = enough_turns(segment);
    let drained = drain(alloc, segment, turns);
    if drained.end == DrainEnd::OutOfMemory {
        panic!(rt; "error: out of memory");
    }
    drained.end == DrainEnd::Rest && drained.turns == made && has_rested(segment)
}

// Whether a step does, or shows, what it says.
fn is_so(rt: &impl Abort, alloc: Global, segment: &mut Segment, step: &Step) -> bool {
    match step {
        Step::Open(max_len) => opens(rt, segment, *max_len),
        Step::Send(to, len, number) => sends(rt, alloc, segment, *to, *len, *number),
        Step::Do(call) => is_done(apply(rt, segment, call_of(rt, call))),
        Step::Quiet(call) => is_quiet(apply(rt, segment, call_of(rt, call))),
        Step::Tell(call, told) => is_told(apply(rt, segment, call_of(rt, call)), told),
        Step::Refuse(call, cause) => is_refused(apply(rt, segment, call_of(rt, call)), *cause),
        Step::Put(to, count) => driven(rt, segment, A, *to, *count).turns == *count,
        Step::Drive(to, turns, frames, end, told) => {
            let driven = drives(rt, segment, *to, *turns, frames);
            driven.end == *end && are_told(&driven, told)
        }
        Step::Rest(made) => rests(rt, alloc, segment, *made),
        Step::Frame(place, shown) => segment.frame(*place) == frame_or_none(rt, shown),
        other => is_so_of_readers(segment, other),
    }
}

fn is_left(segment: &Segment, calls: u64) -> bool {
    work(segment) == calls && enough_turns(segment) == calls.saturating_mul(2).saturating_add(2)
}

fn has_ended(segment: &Segment, totals: Totals) -> bool {
    let counts = segment.counts();
    (counts.acknowledged, counts.timed_out, counts.given) == totals
}

fn has_rested_a(segment: &Segment) -> bool {
    segment.has_station(A) && segment.front(A).is_none() && !segment.is_due(A)
}

fn wants(segment: &Segment, len: u32) -> bool {
    let (ports, size) = segment.wants(B, false);
    size == len && ports.numbers() == [1].as_slice()
}

// The same of a step that only reads.
fn is_so_of_readers(segment: &Segment, step: &Step) -> bool {
    match step {
        Step::Left(calls) => is_left(segment, u64::from(*calls)),
        Step::Ended(totals) => has_ended(segment, *totals),
        Step::Idle(is_idle) => segment.is_idle() == *is_idle,
        Step::Now(tick) => segment.now() == *tick,
        Step::Next(tick) => segment.next_at() == *tick,
        Step::BusLen(frames) => segment.bus_len() == *frames,
        Step::Waiting(frames) => segment.waiting(A) == *frames,
        Step::Queued(station, frames) => segment.queue_len(*station) == *frames,
        Step::Rested => has_rested_a(segment),
        Step::NextPump(to) => segment.next_pump(A) == Some(*to),
        Step::OpenRefusal(station, cause) => segment.open_refusal(*station) == *cause,
        Step::Wants(len) => wants(segment, *len),
        _ => false,
    }
}

/// Ends the test at the first step that isn't so, and prints its place in the table.
pub(super) fn play(rt: &impl Abort, alloc: Global, segment: &mut Segment, steps: &[Step]) {
    for (place, step) in steps.iter().enumerate() {
        let so = is_so(rt, alloc, segment, step);
        same(rt, (place, so), (place, true));
    }
}

/// A new segment does all this.
pub(super) fn does(rt: &impl Abort, alloc: Global, steps: &[Step]) {
    let mut segment = segment(rt, alloc);
    play(rt, alloc, &mut segment, steps);
}
