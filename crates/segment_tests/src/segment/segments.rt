//! Exchanges between stations 21 and 35. A test ends if a call finds no memory.
use super::calls::*;
use super::played::{Step, Told, does, play};
use crate::checks::{got, same};
use pgn_ids::Address;
use segment_core::*;
use std::alloc::{AllocError, Global};
use std::process::Abort;
use tp_wire::Outcome;

const BAM: Shown = (0x1CEC_FF21, [0x20, 9, 0, 2, 0xFF, 0xCA, 0xFE, 0]);

const FIRST_TO_ALL: Shown = (0x1CEB_FF21, [1, 1, 2, 3, 4, 5, 6, 7]);

const LAST_TO_ALL: Shown = (0x1CEB_FF21, [2, 8, 9, 0xFF, 0xFF, 0xFF, 0xFF, 0xFF]);

const ALL: Address = Address::GLOBAL;

// Each frame is queued, put and taken, and 50 ticks go by. With the last one the message has its outcome and is given.
const BY_SINGLE_CALLS: [Step; 20] = [
    Step::Open(4000),
    Step::Send(ALL, 9, 1),
    Step::Quiet(PlainCall::Pump(ALL)),
    Step::Quiet(PlainCall::Transmit(A)),
    Step::Quiet(PlainCall::Take(B)),
    Step::Quiet(PlainCall::Tick(50)),
    Step::Quiet(PlainCall::Pump(ALL)),
    Step::Quiet(PlainCall::Transmit(A)),
    Step::Quiet(PlainCall::Take(B)),
    Step::Quiet(PlainCall::Tick(50)),
    Step::Tell(PlainCall::Pump(ALL), Told::End(ALL, Outcome::Broadcast)),
    Step::Quiet(PlainCall::Transmit(A)),
    Step::Tell(PlainCall::Take(B), Told::Given(ALL)),
    Step::Quiet(PlainCall::Tick(50)),
    Step::Frame(1, Some(BAM)),
    Step::Frame(2, Some(FIRST_TO_ALL)),
    Step::Frame(3, Some(LAST_TO_ALL)),
    Step::Now(150),
    Step::Waiting(3),
    Step::BusLen(3),
];

#[test]
fn broadcast_by_single_calls(rt: HostRuntime) {
    does(&rt, rt.alloc(), &BY_SINGLE_CALLS);
}

const FRAMES_TO_ALL: [Shown; 3] = [BAM, FIRST_TO_ALL, LAST_TO_ALL];

const DRIVEN_TO_ALL: [Step; 4] = [
    Step::Open(4000),
    Step::Send(ALL, 9, 1),
    Step::Drive(
        ALL,
        3,
        &FRAMES_TO_ALL,
        DriveEnd::Turns,
        [Told::End(ALL, Outcome::Broadcast), Told::Given(ALL)],
    ),
    Step::Idle(true),
];

#[test]
fn driven_broadcast(rt: HostRuntime) {
    does(&rt, rt.alloc(), &DRIVEN_TO_ALL);
}

const RTS: Shown = (0x1CEC_3521, [0x10, 9, 0, 2, 0xFF, 0xCA, 0xFE, 0]);

const FRAMES_TO_B: [Shown; 5] = [
    RTS,
    (0x1CEC_2135, [0x11, 2, 1, 0xFF, 0xFF, 0xCA, 0xFE, 0]),
    (0x1CEB_3521, [1, 1, 2, 3, 4, 5, 6, 7]),
    (0x1CEB_3521, [2, 8, 9, 0xFF, 0xFF, 0xFF, 0xFF, 0xFF]),
    (0x1CEC_2135, [0x13, 9, 0, 2, 0xFF, 0xCA, 0xFE, 0]),
];

const DRIVEN_TO_B: [Step; 4] = [
    Step::Open(4000),
    Step::Send(B, 9, 1),
    Step::Drive(
        B,
        9,
        &FRAMES_TO_B,
        DriveEnd::Idle,
        [Told::Given(B), Told::End(B, Outcome::Acknowledged)],
    ),
    Step::Ended((1, 0, 1)),
];

#[test]
fn driven_connection(rt: HostRuntime) {
    does(&rt, rt.alloc(), &DRIVEN_TO_B);
}

// No segment is made of these addresses.
fn is_no_segment(rt: &impl Abort, alloc: Global, addresses: &[Address]) {
    let refused = Segment::new(alloc, addresses).err();
    same(rt, refused, Some(NewRefused::BadAddresses));
}

#[test]
fn a_segment_has_distinct_stations(rt: HostRuntime) {
    is_no_segment(&rt, rt.alloc(), &[]);
    is_no_segment(&rt, rt.alloc(), &[A, A]);
}

const REFUSED: [Step; 9] = [
    Step::Open(4000),
    Step::Refuse(PlainCall::Fire(A), Refusal::NothingDue),
    Step::Refuse(PlainCall::Resume, Refusal::PortNotPaused),
    Step::Refuse(PlainCall::Pump(ALL), Refusal::NothingToSend),
    Step::Refuse(PlainCall::Transmit(A), Refusal::NothingToSend),
    Step::Refuse(PlainCall::Take(B), Refusal::NothingToTake),
    Step::Refuse(PlainCall::Again(B), Refusal::NothingToRepeat),
    Step::Refuse(PlainCall::Miss, Refusal::NothingToTake),
    Step::Refuse(PlainCall::Inject(RTS), Refusal::StationAddress),
];

#[test]
fn refusals(rt: HostRuntime) {
    does(&rt, rt.alloc(), &REFUSED);
}

// At the end the last packet waits for 35.
const READ: [Step; 12] = [
    Step::Open(4000),
    Step::Send(B, 9, 1),
    Step::Idle(false),
    Step::OpenRefusal(B, None),
    Step::OpenRefusal(ALL, Some(Refusal::NoSuchStation)),
    Step::NextPump(B),
    Step::Put(B, 3),
    Step::Quiet(PlainCall::Transmit(A)),
    Step::Queued(A, 0),
    Step::Rested,
    Step::Frame(1, None),
    Step::Wants(9),
];

#[test]
fn readers(rt: HostRuntime) {
    does(&rt, rt.alloc(), &READ);
}

const END_OF_LONG: Shown = (0x1CC8_2135, [0x17, 0xA0, 0x86, 1, 0, 0xCA, 0xFE, 0]);

// A message of 100,000 bytes. Each station has taken all 14,736 frames but may take the newest again, so that one is kept.
const LONG: [Step; 8] = [
    Step::Open(100_000),
    Step::Send(B, 100_000, 1),
    Step::Put(B, 14_736),
    Step::Ended((1, 0, 1)),
    Step::BusLen(14_736),
    Step::Frame(14_736, Some(END_OF_LONG)),
    Step::Frame(14_735, None),
    Step::Frame(14_737, None),
];

#[test]
fn the_bus_keeps_the_newest_frame(rt: HostRuntime) {
    does(&rt, rt.alloc(), &LONG);
}

const SENT_TO_ALL: [Step; 2] = [Step::Open(4000), Step::Send(ALL, 9, 1)];

const LISTED: [PlainCall; 3] = [
    PlainCall::Pump(ALL),
    PlainCall::Transmit(A),
    PlainCall::Take(B),
];

fn listed(rt: &impl Abort, alloc: Global) -> Result<Vec<Call>, AllocError> {
    let mut calls = Vec::new(alloc);
    for call in &LISTED {
        calls.push(call_of(rt, call))?;
    }
    Ok(calls)
}

fn runs_list(rt: &impl Abort, alloc: Global, segment: &mut Segment) {
    let ran = run(segment, got(rt, listed(rt, alloc)));
    if ran.end == RunEnd::OutOfMemory {
        panic!(rt; "error: out of memory");
    }
    same(rt, (ran.replies.len(), ran.end), (3, RunEnd::All));
}

#[test]
fn calls_as_one_list(rt: HostRuntime) {
    let mut segment = segment(&rt, rt.alloc());
    play(&rt, rt.alloc(), &mut segment, &SENT_TO_ALL);
    runs_list(&rt, rt.alloc(), &mut segment);
}

const SENT: [Step; 2] = [Step::Open(4000), Step::Send(B, 9, 1)];

const DRIVEN: [Step; 1] = [Step::Put(B, 3)];

fn image(rt: &impl Abort, segment: &Segment) -> Image {
    got(rt, segment.image())
}

fn sends_and_drives(rt: &impl Abort, alloc: Global, segment: &mut Segment) {
    play(rt, alloc, segment, &SENT);
    play(rt, alloc, segment, &DRIVEN);
}

// An image is no longer that of a segment that was called on.
fn is_left_behind(rt: &impl Abort, alloc: Global, segment: &mut Segment, other: &Segment) {
    let new = image(rt, segment);
    let before = [new.is_of(segment), new.is_of(other)];
    sends_and_drives(rt, alloc, segment);
    same(rt, (before, new.is_of(segment)), ([true, true], false));
}

// The segment equals another one on which these calls were made.
fn is_reached(rt: &impl Abort, alloc: Global, segment: &Segment, other: &mut Segment) {
    let midway = image(rt, segment);
    let before = [midway.is_of(segment), midway.is_of(other)];
    play(rt, alloc, other, &SENT);
    let sent = midway.is_of(other);
    play(rt, alloc, other, &DRIVEN);
    same(
        rt,
        (before, sent, midway.is_of(other)),
        ([true, false], false, true),
    );
}

#[test]
fn an_image_is_that_of_its_segment(rt: HostRuntime) {
    let mut first = segment(&rt, rt.alloc());
    let mut other = segment(&rt, rt.alloc());
    is_left_behind(&rt, rt.alloc(), &mut first, &other);
    is_reached(&rt, rt.alloc(), &first, &mut other);
}
