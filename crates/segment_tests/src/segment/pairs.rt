//! Two segments that get the same calls. A call that finds no memory must leave every reader unchanged and is made again: whichever one
//! allocation is refused, one segment meets that refusal, the other meets none, and both answer alike.
use super::calls::*;
use crate::checks::{got, holds};
use bus_frame::Frame;
use pgn_ids::{Address, Pgn};
use segment_core::*;
use std::alloc::Global;
use std::process::Abort;
use tp_wire::Outcome;

// What the readers say of a station.
#[derive(Clone, Copy, PartialEq)]
struct StationReaders {
    queue_len: usize,
    waiting: u64,
    front: Option<Frame>,
    next_pump: Option<Address>,
    is_due: bool,
    wanted: u32,
}

// What the readers say of a segment.
#[derive(Clone, Copy, PartialEq)]
struct Readers {
    now: u64,
    bus_len: u64,
    newest: Option<Frame>,
    counts: Counts,
    is_idle: bool,
    a: StationReaders,
    b: StationReaders,
}

fn of_station(segment: &Segment, station: Address) -> StationReaders {
    StationReaders {
        queue_len: segment.queue_len(station),
        waiting: segment.waiting(station),
        front: segment.front(station),
        next_pump: segment.next_pump(station),
        is_due: segment.is_due(station),
        wanted: segment.wants(station, false).1,
    }
}

fn read(segment: &Segment) -> Readers {
    let bus_len = segment.bus_len();
    Readers {
        now: segment.now(),
        bus_len,
        newest: segment.frame(bus_len),
        counts: segment.counts(),
        is_idle: segment.is_idle(),
        a: of_station(segment, A),
        b: of_station(segment, B),
    }
}

// A message that is given: its port, source, destination, PGN and bytes.
fn given(event: &Event) -> Option<(PortId, Address, Address, Pgn, &[u8])> {
    match event {
        Event::Given {
            port,
            from,
            to,
            pgn,
            bytes,
        } => Some((*port, *from, *to, *pgn, bytes.as_slice())),
        Event::Outcome { .. } => None,
    }
}

// An outcome: its source, destination, number and what it is.
fn outcome(event: &Event) -> Option<(Address, Address, u64, Outcome)> {
    match event {
        Event::Given { .. } => None,
        Event::Outcome {
            from,
            to,
            number,
            outcome,
        } => Some((*from, *to, *number, *outcome)),
    }
}

fn is_same_event(one: &Event, other: &Event) -> bool {
    given(one) == given(other) && outcome(one) == outcome(other)
}

fn are_same_events(one: &Events, other: &Events) -> bool {
    if one.len() != other.len() {
        return false;
    }
    for place in 0..one.len() {
        match (one.get(place), other.get(place)) {
            (Some(event), Some(other_event)) => {
                if !is_same_event(event, other_event) {
                    return false;
                }
            }
            _ => return false,
        }
    }
    true
}

fn is_same_reply(one: &Reply, other: &Reply) -> bool {
    match (one, other) {
        (Reply::Opened(port), Reply::Opened(other_port)) => port == other_port,
        (Reply::Sent(number), Reply::Sent(other_number)) => number == other_number,
        (Reply::Refused(cause), Reply::Refused(other_cause)) => cause == other_cause,
        (Reply::Done(events), Reply::Done(other_events)) => are_same_events(events, other_events),
        _ => false,
    }
}

// A copy of the call.
fn copied(rt: &impl Abort, alloc: Global, call: &Call) -> Call {
    match call.copy(alloc) {
        Ok(copy) => copy,
        Err(_) => got(rt, call.copy(alloc)),
    }
}

// A call is made, and again if it finds no memory, which changes nothing.
fn made(rt: &impl Abort, alloc: Global, segment: &mut Segment, call: &Call) -> Reply {
    let before = read(segment);
    match tried(segment, copied(rt, alloc, call)) {
        Ok(reply) => reply,
        Err(_) => {
            holds(rt, read(segment) == before);
            apply(rt, segment, copied(rt, alloc, call))
        }
    }
}

// Two segments that get equal calls.
#[derive(Drop)]
pub(crate) struct Pair {
    pub(crate) one: Segment,
    pub(crate) other: Segment,
}

// Both make the call and answer alike; returns the answer.
pub(crate) fn both(rt: &impl Abort, alloc: Global, pair: &mut Pair, call: Call) -> Reply {
    let reply = made(rt, alloc, &mut pair.one, &call);
    let other = made(rt, alloc, &mut pair.other, &call);
    holds(rt, is_same_reply(&reply, &other));
    holds(rt, read(&pair.one) == read(&pair.other));
    reply
}
