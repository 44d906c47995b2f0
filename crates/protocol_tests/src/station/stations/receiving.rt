//! What station 35 receives, step by step. The steps of a test are a table, which one function plays: a table needs no proof, and each call
//! in a test does.
use super::{B, new_station, open};
use crate::checks::{got, holds, same};
use crate::means::{Shown, frame, is_shown};
use bus_frame::Frame;
use pgn_ids::read_id;
use station_core::*;
use std::alloc::{AllocGlobal, Global};
use std::process::Abort;
use tp_wire::read_in_place;

fn frame_of(rt: &(impl Abort + AllocGlobal), shown: &Shown) -> Frame {
    frame(rt, shown.0, &shown.1)
}

/// What is done with station 35, which has one port, and what follows.
enum Step {
    /// A frame is answered by another, without an event.
    Answer(Shown, Shown),
    /// A frame isn't answered, and has no event.
    Silent(Shown),
    /// A frame that has no meaning changes nothing.
    Malformed(Shown),
    /// The frame in front leaves.
    Pop(Shown),
    /// A last packet is reported as one of nine bytes for port 1.
    WantNine(Shown),
    /// A last packet gives nine bytes at port 1.
    GiveNine(Shown),
    /// The same if the packet was read before.
    HearNine(Shown),
    /// Frames were missed.
    Overrun,
    /// Whether port 1 could be closed.
    Close(bool),
    /// Port 1 is paused.
    Pause,
    /// Port 1 is resumed.
    Resume,
    /// It is due at this tick, and not at the one before, when it refuses to fire. It has no event.
    Fire(u64),
}

// Takes a frame. If memory is refused once, it is taken again.
fn take(rt: &(impl Abort + AllocGlobal), station: &mut Station, shown: &Shown) -> Events {
    let frame = frame_of(rt, shown);
    let mut told = Events::none(rt.alloc());
    if station.take(&frame, true, 0, &mut told).is_err() {
        got(rt, station.take(&frame, true, 0, &mut told));
    }
    told
}

// Whether it takes a frame without an event, and has this answer, or none.
fn answers(
    rt: &(impl Abort + AllocGlobal),
    station: &mut Station,
    shown: &Shown,
    answer: &Option<Shown>,
) -> bool {
    take(rt, station, shown).is_empty() && is_shown(&station.pop(), answer)
}

fn wants_nine(rt: &(impl Abort + AllocGlobal), station: &Station, shown: &Shown) -> bool {
    let (ports, size) = station.wants(&frame_of(rt, shown));
    size == 9 && ports.numbers() == [1].as_slice()
}

// Whether they are one message of nine bytes that is given at port 1.
fn are_nine(events: &Events) -> bool {
    match events.get(0) {
        Some(Event::Given { port, bytes, .. }) => {
            events.len() == 1 && port.number == 1 && bytes.len() == 9
        }
        _ => false,
    }
}

fn heard(rt: &(impl Abort + AllocGlobal), station: &mut Station, shown: &Shown) -> Events {
    let frame = frame_of(rt, shown);
    let mut told = Events::none(rt.alloc());
    let Some((wire, from, to)) = read_in_place(&frame, &read_id(frame.id())) else {
        panic!(rt; "a packet without a meaning")
    };
    holds(rt, station.take_refusal().is_none());
    got(rt, station.hear(&wire, from, to, true, 0, &mut told));
    told
}

fn is_malformed(rt: &(impl Abort + AllocGlobal), station: &mut Station, shown: &Shown) -> bool {
    let mut told = Events::none(rt.alloc());
    got(rt, station.take(&frame_of(rt, shown), true, 0, &mut told)) && told.is_empty()
}

fn fires(rt: &(impl Abort + AllocGlobal), station: &mut Station, now: u64) -> bool {
    let before = now.saturating_sub(1);
    let is_early = station.is_due(before) || station.fire(before).is_ok();
    !is_early && station.is_due(now) && got(rt, station.fire(now)).is_empty()
}

// Whether a step does what it says.
fn is_so(rt: &(impl Abort + AllocGlobal), station: &mut Station, step: &Step) -> bool {
    match step {
        Step::Answer(shown, answer) => answers(rt, station, shown, &Some(*answer)),
        Step::Silent(shown) => answers(rt, station, shown, &None),
        Step::Malformed(shown) => is_malformed(rt, station, shown),
        Step::Pop(shown) => {
            let frame = Some(*shown);
            is_shown(&station.front(), &frame) && is_shown(&station.pop(), &frame)
        }
        Step::WantNine(shown) => wants_nine(rt, station, shown),
        Step::GiveNine(shown) => are_nine(&take(rt, station, shown)),
        Step::HearNine(shown) => are_nine(&heard(rt, station, shown)),
        Step::Overrun => got(rt, station.overrun()).is_empty(),
        Step::Close(done) => station.close(1).is_ok() == *done,
        Step::Pause => station.pause(1).is_ok(),
        Step::Resume => station.resume(1).is_ok(),
        Step::Fire(now) => fires(rt, station, *now),
    }
}

// Ends the test at the first step that isn't so, and prints its place in the table.
fn play(rt: &(impl Abort + AllocGlobal), station: &mut Station, steps: &[Step]) {
    for (place, step) in steps.iter().enumerate() {
        same(rt, (place, is_so(rt, station, step)), (place, true));
    }
}

// A new station 35 with one port does all this.
fn does(rt: &(impl Abort + AllocGlobal), alloc: Global, steps: &[Step]) {
    let mut station = new_station(rt, alloc, B);
    open(rt, &mut station);
    play(rt, &mut station, steps);
}

const RTS: Shown = (
    0x1CEC_3580,
    [0x10, 0x09, 0x00, 0x02, 0xFF, 0xCA, 0xFE, 0x00],
);

const CTS: Shown = (
    0x1CEC_8035,
    [0x11, 0x02, 0x01, 0xFF, 0xFF, 0xCA, 0xFE, 0x00],
);

const FIRST: Shown = (0x1CEB_3580, [1, 1, 2, 3, 4, 5, 6, 7]);

const LAST: Shown = (0x1CEB_3580, [2, 8, 9, 0xFF, 0xFF, 0xFF, 0xFF, 0xFF]);

const END: Shown = (
    0x1CEC_8035,
    [0x13, 0x09, 0x00, 0x02, 0xFF, 0xCA, 0xFE, 0x00],
);

const NO_RESOURCES: Shown = (
    0x1CEC_8035,
    [0xFF, 0x02, 0xFF, 0xFF, 0xFF, 0xCA, 0xFE, 0x00],
);

/// A frame of node 80 that belongs to no transport.
const OTHER_TRAFFIC: Shown = (
    0x18FE_F180,
    [0x10, 0x09, 0x00, 0x02, 0xFF, 0xCA, 0xFE, 0x00],
);

/// A packet that no session takes.
const NO_PACKET: Shown = (0x1CEB_3580, [0; 8]);

/// A packet out of order, which would abort a session.
const WRONG_PACKET: Shown = (0x1CEB_3580, [0x03; 8]);

const REQUEST: Shown = (
    0x18EA_3521,
    [0x00, 0xEC, 0x00, 0xFF, 0xFF, 0xFF, 0xFF, 0xFF],
);

const REQUEST_TO_ALL: Shown = (
    0x18EA_FF21,
    [0x00, 0xEC, 0x00, 0xFF, 0xFF, 0xFF, 0xFF, 0xFF],
);

const ACKNOWLEDGEMENT: Shown = (
    0x18E8_FF35,
    [0x01, 0xFF, 0xFF, 0xFF, 0x21, 0x00, 0xEC, 0x00],
);

/// A packet to all with sequence number 0.
const MALFORMED: Shown = (0x1CEB_FF80, [0; 8]);

const HOLD: Shown = (
    0x1CEC_8035,
    [0x11, 0x00, 0x01, 0xFF, 0xFF, 0xCA, 0xFE, 0x00],
);

/// An RTS of 20 bytes in two packets, and the abort that answers it.
const WRONG_RTS: Shown = (
    0x1CEC_3580,
    [0x10, 0x14, 0x00, 0x02, 0xFF, 0xCA, 0xFE, 0x00],
);

const ABORT: Shown = (
    0x1CEC_8035,
    [0xFF, 0xFA, 0xFF, 0xFF, 0xFF, 0xCA, 0xFE, 0x00],
);

const GIVEN: [Step; 7] = [
    Step::Silent(OTHER_TRAFFIC),
    Step::Malformed(NO_PACKET),
    Step::Answer(RTS, CTS),
    Step::Silent(FIRST),
    Step::WantNine(LAST),
    Step::GiveNine(LAST),
    Step::Pop(END),
];

#[test]
fn a_message_is_given(rt: HostRuntime) {
    does(&rt, rt.alloc(), &GIVEN);
}

const GIVEN_BY_WHAT_WAS_READ: [Step; 4] = [
    Step::Answer(RTS, CTS),
    Step::Silent(FIRST),
    Step::HearNine(LAST),
    Step::Pop(END),
];

#[test]
fn a_message_is_given_by_what_was_read(rt: HostRuntime) {
    does(&rt, rt.alloc(), &GIVEN_BY_WHAT_WAS_READ);
}

const REPLACED: [Step; 3] = [
    Step::Answer(RTS, CTS),
    Step::Answer(WRONG_RTS, ABORT),
    Step::Silent(WRONG_PACKET),
];

#[test]
fn a_refused_session_replaces_the_older(rt: HostRuntime) {
    does(&rt, rt.alloc(), &REPLACED);
}

const MISSED: [Step; 3] = [
    Step::Answer(RTS, CTS),
    Step::Overrun,
    Step::Silent(WRONG_PACKET),
];

#[test]
fn an_overrun_ends_sessions(rt: HostRuntime) {
    does(&rt, rt.alloc(), &MISSED);
}

const CLOSED: [Step; 6] = [
    Step::Answer(RTS, CTS),
    Step::Close(true),
    Step::Pop(NO_RESOURCES),
    Step::Close(false),
    Step::Silent(WRONG_PACKET),
    Step::Answer(RTS, NO_RESOURCES),
];

#[test]
fn a_closed_port_ends_its_session(rt: HostRuntime) {
    does(&rt, rt.alloc(), &CLOSED);
}

const REQUESTED: [Step; 3] = [
    Step::Answer(REQUEST, ACKNOWLEDGEMENT),
    Step::Silent(REQUEST_TO_ALL),
    Step::Malformed(MALFORMED),
];

#[test]
fn requests_are_answered(rt: HostRuntime) {
    does(&rt, rt.alloc(), &REQUESTED);
}

const PAUSED: [Step; 5] = [
    Step::Pause,
    Step::Answer(RTS, HOLD),
    Step::Resume,
    Step::Fire(500),
    Step::Pop(CTS),
];

#[test]
fn a_paused_port_holds_its_session(rt: HostRuntime) {
    does(&rt, rt.alloc(), &PAUSED);
}
