//! What station 21 sends, step by step. The steps of a test are a table, which one function plays: a table needs no proof, and each call in a
//! test does.
use super::{A, B, new_station, open};
use crate::checks::{got, holds, same};
use crate::means::{FECA, pgn};
use message_events::Bytes;
use pgn_ids::Address;
use station_core::*;
use std::alloc::Global;
use std::process::Abort;
use tp_wire::Outcome;

const M9: [u8; 9] = [1, 2, 3, 4, 5, 6, 7, 8, 9];

/// What is done with station 21, or is seen of it.
enum Step {
    /// A port is opened.
    Open,
    /// A message of up to nine bytes is sent, the first of its lane, or isn't.
    Send(Address, usize, Option<Refused>),
    /// The next frames to a node are queued at this tick with so many events, or aren't; so many frames are then queued.
    Pump(Address, u64, Result<usize, Refused>, usize),
    /// Message 1 to 35 ends as cancelled, or doesn't; so many frames are then queued.
    Cancel(Option<Refused>, usize),
    /// Message 1 to 35 is pending.
    Pending,
    /// Why each call would be refused: at port 1, and with message 1 to 35, of so many bytes.
    Refuse(usize, [Option<Refused>; 9]),
}

fn sends(
    rt: &impl Abort,
    alloc: Global,
    station: &mut Station,
    to: Address,
    len: usize,
    expected: &Option<Refused>,
) -> bool {
    holds(rt, len <= 9);
    let bytes = Bytes::new(got(rt, Vec::from_slice(alloc, &M9[..len])));
    match (station.send(to, pgn(rt, FECA), bytes), expected) {
        (Ok(number), None) => number == 1,
        (Err(refused), Some(cause)) => refused.cause == Stopped::Refused(*cause),
        _ => false,
    }
}

fn pumps(
    alloc: Global,
    station: &mut Station,
    to: Address,
    now: u64,
    expected: &Result<usize, Refused>,
) -> bool {
    let mut events = Events::none(alloc);
    match station.pump(to, now, &mut events) {
        Ok(()) => Ok(events.len()) == *expected,
        Err(cause) => Err(cause) == *expected,
    }
}

// Whether they are one outcome, of message 1, which was cancelled.
fn is_cancelled(events: &Events) -> bool {
    match events.get(0) {
        Some(
            Event::Outcome {
                number,
                outcome,
                ..
            },
        ) => events.len() == 1 && *number == 1 && *outcome == Outcome::Cancelled,
        _ => false,
    }
}

fn cancels(station: &mut Station, expected: &Option<Refused>) -> bool {
    match station.cancel(B, 1) {
        Ok(events) => expected.is_none() && is_cancelled(&events),
        Err(cause) => Some(cause) == *expected,
    }
}

fn refusals(station: &Station, len: usize) -> [Option<Refused>; 9] {
    [
        station.open_refusal(),
        station.close_refusal(1),
        station.pause_refusal(1),
        station.resume_refusal(1),
        station.take_refusal(),
        station.fire_refusal(0),
        station.send_refusal(B, len),
        station.pump_refusal(B, 0),
        station.cancel_refusal(B, 1),
    ]
}

// Whether a step does, or shows, what it says.
fn is_so(rt: &impl Abort, alloc: Global, station: &mut Station, step: &Step) -> bool {
    match step {
        Step::Open => {
            open(rt, station);
            true
        }
        Step::Send(to, len, refused) => sends(rt, alloc, station, *to, *len, refused),
        Step::Pump(to, now, told, queued) => {
            pumps(alloc, station, *to, *now, told) && station.queue_len() == *queued
        }
        Step::Cancel(refused, queued) => {
            cancels(station, refused) && station.queue_len() == *queued
        }
        Step::Pending => station.is_pending(B, 1),
        Step::Refuse(len, causes) => refusals(station, *len) == *causes,
    }
}

// Ends the test at the first step that isn't so, and prints its place in the table.
fn play(rt: &impl Abort, alloc: Global, station: &mut Station, steps: &[Step]) {
    for (place, step) in steps.iter().enumerate() {
        same(rt, (place, is_so(rt, alloc, station, step)), (place, true));
    }
}

// A new station 21 does all this.
fn does(rt: &impl Abort, alloc: Global, steps: &[Step]) {
    let mut station = new_station(rt, alloc, A);
    play(rt, alloc, &mut station, steps);
}

#[test]
fn only_nodes_have_stations(rt: HostRuntime) {
    for address in [Address::NULL, Address::GLOBAL] {
        let refused = Station::new(rt.alloc(), address).err();
        same(&rt, refused, Some(Stopped::Refused(Refused::NoSuchStation)));
    }
}

// The announcement and the packets are queued; the last one ends the message.
const TO_ALL: [Step; 5] = [
    Step::Send(Address::GLOBAL, 9, None),
    Step::Pump(Address::GLOBAL, 0, Ok(0), 1),
    Step::Pump(Address::GLOBAL, 49, Err(Refused::NotYet), 1),
    Step::Pump(Address::GLOBAL, 50, Ok(0), 2),
    Step::Pump(Address::GLOBAL, 100, Ok(1), 3),
];

#[test]
fn a_message_to_all_is_pumped(rt: HostRuntime) {
    does(&rt, rt.alloc(), &TO_ALL);
}

// A station without a port and a message.
const BARE: [Step; 4] = [
    Step::Refuse(
        8,
        [
            None,
            Some(Refused::NoSuchPort),
            Some(Refused::NoSuchPort),
            Some(Refused::NoSuchPort),
            None,
            Some(Refused::NothingDue),
            Some(Refused::TooShort),
            Some(Refused::NothingToSend),
            Some(Refused::NothingToSend),
        ],
    ),
    Step::Pump(B, 0, Err(Refused::NothingToSend), 0),
    Step::Send(A, 9, Some(Refused::SameStation)),
    Step::Send(B, 8, Some(Refused::TooShort)),
];

#[test]
fn messages_are_refused(rt: HostRuntime) {
    does(&rt, rt.alloc(), &BARE);
}

// With a port and a message it refuses less. The frame that began the message and its abort are queued.
const CANCELLED: [Step; 7] = [
    Step::Open,
    Step::Send(B, 9, None),
    Step::Refuse(
        9,
        [
            None,
            None,
            None,
            Some(Refused::PortNotPaused),
            None,
            Some(Refused::NothingDue),
            None,
            None,
            None,
        ],
    ),
    Step::Pump(B, 0, Ok(0), 1),
    Step::Pending,
    Step::Cancel(None, 2),
    Step::Cancel(Some(Refused::NothingToSend), 2),
];

#[test]
fn a_message_is_cancelled(rt: HostRuntime) {
    does(&rt, rt.alloc(), &CANCELLED);
}

const OPENED: [Step; 1] = [Step::Open];

const SENT: [Step; 1] = [Step::Send(B, 9, None)];

const PUMPED: [Step; 1] = [Step::Pump(B, 0, Ok(0), 1)];

// The station equals its image until these steps.
fn until(rt: &impl Abort, alloc: Global, station: &mut Station, steps: &[Step]) {
    let image = got(rt, station.image());
    let before = image.is_of(station);
    play(rt, alloc, station, steps);
    same(rt, (before, image.is_of(station)), (true, false));
}

// An image is that of its station until a port is opened, a message sent or a frame queued.
#[test]
fn an_image_is_that_of_its_station(rt: HostRuntime) {
    let mut station = new_station(&rt, rt.alloc(), A);
    until(&rt, rt.alloc(), &mut station, &OPENED);
    until(&rt, rt.alloc(), &mut station, &SENT);
    until(&rt, rt.alloc(), &mut station, &PUMPED);
}
