//! Messages to all from 21, received at the ports 35.1 and 35.2, step by step. The steps of a test are a table, which one function plays: a
//! table needs no proof, and each call in a test does. A test ends if memory is refused.
use crate::checks::{got, holds, same};
use crate::means::{FECA, FIRST, LAST, Packet, pgn, wire_pgn};
use bam_session::BamIn;
use bus_frame::Frame;
use message_events::{Event, Events};
use pgn_ids::Address;
use port_table::PortTable;
use seg_cut::{Join, packets};
use session_table::{Incoming, Key, MAX_SESSIONS, SessionKind};
use station_sessions::*;
use std::alloc::Global;
use std::process::Abort;
use tp_wire::Wire;
use tx_queue::TxQueue;

const KEY: Key = Key {
    source: Address(0x21),
    kind: SessionKind::Broadcast,
};

fn two_ports(rt: &impl Abort, alloc: Global) -> PortTable {
    let mut ports = got(rt, PortTable::new(alloc, Address(0x35)));
    got(rt, ports.open(pgn(rt, FECA), 1785));
    got(rt, ports.open(pgn(rt, FECA), 1785));
    ports
}

// A message of nine bytes to all was announced.
fn announce(rt: &impl Abort, alloc: Global, ports: &PortTable) -> Receivers {
    let set = ports.find(pgn(rt, FECA), 9);
    let mut join = Join::new(alloc, 9);
    got(rt, join.make_room(packets(9)));
    let mut sessions = Receivers::new(alloc);
    holds(rt, sessions.others(KEY) < MAX_SESSIONS);
    let state = BamIn::begin(KEY.source, wire_pgn(rt, FECA), join, 0);
    got(rt, sessions.put(KEY, set, Incoming::Broadcast(state)));
    sessions
}

// A frame is heard, in a function that owns nothing: each step adds a part of the proof for all that a function owns.
fn hear(
    rt: &impl Abort,
    sessions: &mut Receivers,
    ports: &PortTable,
    wire: &Wire<'_>,
    queue: &mut TxQueue,
    told: &mut Events,
) {
    holds(rt, queue.is_empty());
    holds(rt, told.is_empty());
    if !got(rt, sessions.receive(ports, KEY, wire, true, 0, queue)) {
        return;
    }
    if let Wire::Packet { bytes, .. } = wire {
        let given = sessions.complete(ports, KEY, bytes.array(), true, queue, told);
        got(rt, given);
    }
}

fn receive(
    rt: &impl Abort,
    alloc: Global,
    sessions: &mut Receivers,
    ports: &PortTable,
    wire: &Wire<'_>,
) -> (Option<Frame>, Events) {
    let mut queue = got(rt, TxQueue::new(alloc));
    let mut told = Events::none(alloc);
    hear(rt, sessions, ports, wire, &mut queue, &mut told);
    (queue.pop(), told)
}

fn fire(
    rt: &impl Abort,
    alloc: Global,
    sessions: &mut Receivers,
    ports: &PortTable,
    now: u64,
) -> Option<Frame> {
    let mut queue = got(rt, TxQueue::new(alloc));
    got(rt, sessions.fire(ports, KEY, now, &mut queue));
    queue.pop()
}

/// What is done with the session of the announced message, or is seen of it.
enum Step {
    /// A packet gives no message.
    Quiet(Packet),
    /// A packet gives the nine bytes at these ports.
    Give(Packet, [Option<u64>; 2]),
    /// A last packet is reported as one of nine bytes for both ports.
    Want(Packet),
    /// A port is removed from the session, which continues or ends.
    Unbind(u64),
    /// Whether it is due at this tick.
    Due(u64, bool),
    /// Its timer fires at this tick.
    Fire(u64),
    /// An abort of a message of this PGN.
    Abort(u32),
    End,
    /// Frames were missed.
    Overrun,
    /// The lowest source of a session from this address on.
    Source(u8, Option<Address>),
    /// Whether there is no session.
    Empty(bool),
}

// The number of the port at which nine bytes are given.
fn given_at(event: Option<&Event>) -> Option<u64> {
    match event {
        Some(Event::Given { port, bytes, .. }) => {
            if bytes.len() == 9 {
                return Some(port.number);
            }
            None
        }
        _ => None,
    }
}

// Whether a packet has no answer, and gives the message at these ports.
fn gives(
    rt: &impl Abort,
    alloc: Global,
    sessions: &mut Receivers,
    ports: &PortTable,
    packet: &Packet,
    numbers: &[Option<u64>; 2],
) -> bool {
    let (frame, told) = receive(rt, alloc, sessions, ports, &packet.wire());
    let given = [given_at(told.get(0)), given_at(told.get(1))];
    let count = usize::from(given[0].is_some()) + usize::from(given[1].is_some());
    frame.is_none() && given == *numbers && told.len() == count
}

fn wants(sessions: &Receivers, packet: &Packet) -> bool {
    let (set, size) = sessions.wants(KEY, &packet.wire());
    set.len() == 2 && size == 9
}

// Whether a step does, or shows, what it says. None of them has a frame.
fn is_so(
    rt: &impl Abort,
    alloc: Global,
    sessions: &mut Receivers,
    ports: &PortTable,
    step: &Step,
) -> bool {
    match step {
        Step::Quiet(packet) => gives(rt, alloc, sessions, ports, packet, &[None, None]),
        Step::Give(packet, numbers) => gives(rt, alloc, sessions, ports, packet, numbers),
        Step::Want(packet) => wants(sessions, packet),
        Step::Unbind(number) => sessions.unbind(KEY, *number).is_none(),
        Step::Due(now, true) => sessions.next_due(*now) == Some(KEY),
        Step::Due(now, false) => sessions.next_due(*now).is_none(),
        Step::Fire(now) => fire(rt, alloc, sessions, ports, *now).is_none(),
        Step::Abort(pgn) => {
            sessions.abort(KEY, wire_pgn(rt, *pgn));
            true
        }
        Step::End => {
            sessions.end(KEY);
            true
        }
        Step::Overrun => {
            sessions.overrun();
            true
        }
        Step::Source(from, source) => sessions.next_source(*from) == *source,
        Step::Empty(is_empty) => sessions.is_empty() == *is_empty,
    }
}

// Ends the test at the first step that isn't so, and prints its place in the table.
fn play(
    rt: &impl Abort,
    alloc: Global,
    sessions: &mut Receivers,
    ports: &PortTable,
    steps: &[Step],
) {
    for (place, step) in steps.iter().enumerate() {
        let so = is_so(rt, alloc, sessions, ports, step);
        same(rt, (place, so), (place, true));
    }
}

// Once the message is announced, all this is done.
fn does(rt: &impl Abort, alloc: Global, steps: &[Step]) {
    let ports = two_ports(rt, alloc);
    let mut sessions = announce(rt, alloc, &ports);
    same(rt, sessions.others(KEY), 0);
    play(rt, alloc, &mut sessions, &ports, steps);
}

const GIVEN_ONCE: [Step; 4] = [
    Step::Quiet(FIRST),
    Step::Want(LAST),
    Step::Give(LAST, [Some(1), Some(2)]),
    Step::Quiet(LAST),
];

#[test]
fn given_at_both_ports_once(rt: HostRuntime) {
    does(&rt, rt.alloc(), &GIVEN_ONCE);
}

const ONE_CLOSES: [Step; 3] = [
    Step::Unbind(1),
    Step::Quiet(FIRST),
    Step::Give(LAST, [Some(2), None]),
];

const BOTH_CLOSE: [Step; 3] = [Step::Unbind(1), Step::Unbind(2), Step::Due(u64::MAX, false)];

#[test]
fn its_ports_close(rt: HostRuntime) {
    does(&rt, rt.alloc(), &ONE_CLOSES);
    does(&rt, rt.alloc(), &BOTH_CLOSE);
}

const SOURCES: [Step; 2] = [
    Step::Source(0x21, Some(Address(0x21))),
    Step::Source(0x22, None),
];

#[test]
fn sources_are_found(rt: HostRuntime) {
    does(&rt, rt.alloc(), &SOURCES);
}

const SILENT: [Step; 6] = [
    Step::Due(749, false),
    Step::Due(750, true),
    Step::Abort(0xFEC9),
    Step::Due(750, true),
    Step::Fire(750),
    Step::Due(750, false),
];

const ABORTED: [Step; 2] = [Step::Abort(FECA), Step::Due(750, false)];

const ENDED: [Step; 2] = [Step::End, Step::Due(750, false)];

const MISSED: [Step; 4] = [
    Step::Empty(false),
    Step::Overrun,
    Step::Empty(true),
    Step::Due(750, false),
];

// By its timer, by an abort of its PGN and of no other, by a call, and by missed frames.
#[test]
fn a_session_ends(rt: HostRuntime) {
    does(&rt, rt.alloc(), &SILENT);
    does(&rt, rt.alloc(), &ABORTED);
    does(&rt, rt.alloc(), &ENDED);
    does(&rt, rt.alloc(), &MISSED);
}

// The sessions equal their image until these steps.
fn until(
    rt: &impl Abort,
    alloc: Global,
    sessions: &mut Receivers,
    ports: &PortTable,
    steps: &[Step],
) {
    let image = got(rt, sessions.image());
    let before = image.is_of(sessions);
    play(rt, alloc, sessions, ports, steps);
    same(rt, (before, image.is_of(sessions)), (true, false));
}

const TAKEN: [Step; 1] = [Step::Quiet(FIRST)];

const CLOSED: [Step; 1] = [Step::Unbind(1)];

const BOTH_CLOSED: [Step; 2] = [Step::Unbind(1), Step::Unbind(2)];

fn take_and_close(rt: &impl Abort, alloc: Global, ports: &PortTable, last: &[Step]) {
    let mut sessions = announce(rt, alloc, ports);
    until(rt, alloc, &mut sessions, ports, &TAKEN);
    until(rt, alloc, &mut sessions, ports, last);
}

#[test]
fn an_image_is_of_the_sessions_as_they_were(rt: HostRuntime) {
    let ports = two_ports(&rt, rt.alloc());
    take_and_close(&rt, rt.alloc(), &ports, &CLOSED);
    take_and_close(&rt, rt.alloc(), &ports, &BOTH_CLOSED);
}
