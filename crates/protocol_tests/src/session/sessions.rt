//! Tables of sessions whose timers all start at tick 0. The steps of a test are a table, which one function plays: a table needs no proof, and
//! each call in a test does. If memory is refused as a session is opened, it is opened again; anywhere else a test ends.
ghost use Rattle.std.specs.Prelude.{◌≡◌, None};
ghost use Rattle.session_table.specs.Sessions.{IsHeld, state_at};

use crate::checks::{got, holds, same};
use crate::means::{FECA, FIRST, LAST, Packet, wire_pgn};
use bam_session::BamIn;
use pgn_ids::{Address, WirePgn};
use responder::{Flow, Left, Peer};
use seg_cut::Join;
use session_table::*;
use std::alloc::Global;
use std::process::Abort;
use tp_wire::constants::ETP_MAX_WINDOW;
use tp_wire::{AbortReason, Wire};
use tx_queue::TxQueue;

const FROM: Address = Address(0x80);

const TO: Address = Address(0x35);

fn key(source: u8, kind: SessionKind) -> Key {
    Key {
        source: Address(source),
        kind,
    }
}

// A session of this kind, of a message with this PGN from 80 to 35.
fn begun(rt: &impl Abort, alloc: Global, kind: SessionKind, pgn: u32) -> Incoming {
    let pgn = wire_pgn(rt, pgn);
    match kind {
        SessionKind::Broadcast => broadcast(rt, alloc, pgn),
        SessionKind::Tp => connection(rt, alloc, pgn),
        SessionKind::Etp => extended_connection(rt, alloc, pgn),
    }
}

fn broadcast(rt: &impl Abort, alloc: Global, pgn: WirePgn) -> Incoming {
    let mut join = Join::new(alloc, 9);
    got(rt, join.make_room(2));
    Incoming::Broadcast(BamIn::begin(FROM, pgn, join, 0))
}

fn connection(rt: &impl Abort, alloc: Global, pgn: WirePgn) -> Incoming {
    let mut join = Join::new(alloc, 9);
    got(rt, join.make_room(2));
    let (state, _cts) = tp_session::accept(Peer::new(FROM, TO, pgn), 0, join, Flow::Open, 0);
    Incoming::Connection(state.into_receiver())
}

fn extended_connection(rt: &impl Abort, alloc: Global, pgn: WirePgn) -> Incoming {
    let mut join = Join::new(alloc, 1786);
    got(rt, join.make_room(u32::from(ETP_MAX_WINDOW)));
    let (state, _cts) = etp_session::accept(Peer::new(FROM, TO, pgn), join, Flow::Open, 0);
    Incoming::Connection(state.into_receiver())
}

// Opens a session. If memory is refused nothing has changed, and the call succeeds when it is made again.
fn open(rt: &impl Abort, alloc: Global, table: &mut SessionTable<u8>, key: Key) {
    let state = begun(rt, alloc, key.kind, FECA);
    let len = table.len();
    holds(rt, !table.contains(key));
    match table.open(key, key.source.0, state) {
        Ok(()) => {}
        Err(OpenRefused::OutOfMemory(bound, state)) => {
            same(rt, table.len(), len);
            is_open(rt, table.open(key, bound, state));
        }
        _ => panic!(rt; "full"),
    }
}

fn is_open(rt: &impl Abort, opened: Result<(), OpenRefused<u8>>) {
    match opened {
        Ok(()) => {}
        Err(_) => panic!(rt; "full, or out of memory twice"),
    }
}

// Calls whose result alone a test looks at: their contracts are not carried through it.
fn take(
    rt: &impl Abort,
    table: &mut SessionTable<u8>,
    key: Key,
    wire: &Wire<'_>,
    now: u64,
    queue: &mut TxQueue,
) -> Left
    ensures idle { state_at table.old key ≡ None → table.new ≡ table.old }
{
    holds(rt, queue.is_empty());
    table.take(key, wire, true, Flow::Open, now, queue)
}

fn fire(
    rt: &impl Abort,
    table: &mut SessionTable<u8>,
    key: Key,
    now: u64,
    queue: &mut TxQueue,
) -> Left {
    holds(rt, queue.is_empty());
    table.fire(key, Flow::Open, now, queue)
}

// Takes the session of a key out; it ends, and its place is still held.
fn take_out(rt: &impl Abort, table: &mut SessionTable<u8>, key: Key) -> Held
    ensures { IsHeld table.new result }
{
    match table.take_out(key) {
        Some((held, bound, state)) => {
            state.overrun();
            same(rt, (bound, held.key()), (key.source.0, key));
            held
        }
        None => panic!(rt; "nothing at the key"),
    }
}

/// What is done with a table of sessions, or is seen of it. A session is bound to the number of its source.
enum Step {
    Open(Key),
    /// A packet is taken at this tick, which leaves this to do.
    Take(Key, Packet, u64, Left),
    /// The same while the session is taken out, which then ends.
    TakeWithout(Key, Packet, u64, Left),
    Fire(Key, u64, Left),
    /// The session is taken out, and ends.
    End(Key),
    /// The session is removed, and ends by an abort or without a frame.
    Remove(Key, bool),
    /// The lowest key above another.
    NextKey(Option<Key>, Option<Key>),
    /// The lowest key that is due at this tick.
    NextDue(u64, Option<Key>),
    Count(usize),
}

// What a packet leaves to do while the session of its key is taken out; the session ends.
fn left_without(
    rt: &impl Abort,
    table: &mut SessionTable<u8>,
    key: Key,
    wire: &Wire<'_>,
    now: u64,
    queue: &mut TxQueue,
) -> Left {
    let held = take_out(rt, table, key);
    let left = take(rt, table, held.key(), wire, now, queue);
    table.end(held);
    left
}

fn end(rt: &impl Abort, table: &mut SessionTable<u8>, key: Key) {
    let held = take_out(rt, table, key);
    table.end(held);
}

// Whether the session of a key is removed, and ends by an abort or without a frame.
fn removes(table: &mut SessionTable<u8>, key: Key, is_aborted: bool) -> bool {
    match table.remove(key) {
        Some((bound, state)) => {
            let frame = state.end(AbortReason::Timeout);
            bound == key.source.0 && frame.is_some() == is_aborted && !table.contains(key)
        }
        None => false,
    }
}

// Whether a step does, or shows, what it says.
fn is_so(
    rt: &impl Abort,
    alloc: Global,
    table: &mut SessionTable<u8>,
    queue: &mut TxQueue,
    step: &Step,
) -> bool {
    match step {
        Step::Open(key) => {
            open(rt, alloc, table, *key);
            true
        }
        Step::Take(key, packet, now, left) => {
            take(rt, table, *key, &packet.wire(), *now, queue) == *left
        }
        Step::TakeWithout(key, packet, now, left) => {
            left_without(rt, table, *key, &packet.wire(), *now, queue) == *left
        }
        Step::Fire(key, now, left) => fire(rt, table, *key, *now, queue) == *left,
        Step::End(key) => {
            end(rt, table, *key);
            true
        }
        Step::Remove(key, is_aborted) => removes(table, *key, *is_aborted),
        Step::NextKey(low, key) => table.next_key(*low) == *key,
        Step::NextDue(now, key) => table.next_due(*now) == *key,
        Step::Count(sessions) => {
            table.len() == *sessions && table.is_empty() == (*sessions == 0)
        }
    }
}

// Ends the test at the first step that isn't so, and prints its place in the table. No step queues a frame.
fn play(rt: &impl Abort, alloc: Global, table: &mut SessionTable<u8>, steps: &[Step]) {
    let mut queue = got(rt, TxQueue::new(alloc));
    for (place, step) in steps.iter().enumerate() {
        let so = is_so(rt, alloc, table, &mut queue, step);
        same(rt, (place, so, queue.is_empty()), (place, true, true));
    }
}

// A new table does all this.
fn does(rt: &impl Abort, alloc: Global, steps: &[Step]) {
    let mut table = SessionTable::new(alloc);
    play(rt, alloc, &mut table, steps);
}

const BROADCAST: Key = Key {
    source: FROM,
    kind: SessionKind::Broadcast,
};

const TP: Key = Key {
    source: FROM,
    kind: SessionKind::Tp,
};

const ETP: Key = Key {
    source: FROM,
    kind: SessionKind::Etp,
};

const TP_OF_90: Key = Key {
    source: Address(0x90),
    kind: SessionKind::Tp,
};

const TP_OF_A0: Key = Key {
    source: Address(0xA0),
    kind: SessionKind::Tp,
};

// Keys rise by source and then by kind, in whichever order the sessions began.
const RISING: [Step; 20] = [
    Step::Open(TP_OF_A0),
    Step::Open(ETP),
    Step::Open(TP_OF_90),
    Step::Open(BROADCAST),
    Step::NextKey(None, Some(BROADCAST)),
    Step::NextKey(Some(BROADCAST), Some(ETP)),
    Step::NextKey(Some(ETP), Some(TP_OF_90)),
    Step::NextKey(Some(TP_OF_90), Some(TP_OF_A0)),
    Step::NextKey(Some(TP_OF_A0), None),
    Step::NextDue(749, None),
    Step::NextDue(750, Some(BROADCAST)),
    Step::NextDue(1250, Some(BROADCAST)),
    Step::End(BROADCAST),
    Step::NextDue(1250, Some(ETP)),
    Step::End(ETP),
    Step::NextDue(1250, Some(TP_OF_90)),
    Step::End(TP_OF_90),
    Step::NextDue(1250, Some(TP_OF_A0)),
    Step::End(TP_OF_A0),
    Step::Count(0),
];

#[test]
fn due_keys_rise(rt: HostRuntime) {
    does(&rt, rt.alloc(), &RISING);
}

const TAKEN: [Step; 7] = [
    Step::Take(BROADCAST, FIRST, 100, Left::Nothing),
    Step::Open(BROADCAST),
    Step::Take(BROADCAST, FIRST, 100, Left::Nothing),
    Step::Take(BROADCAST, LAST, 200, Left::Message),
    Step::NextDue(849, None),
    Step::NextDue(850, Some(BROADCAST)),
    Step::TakeWithout(BROADCAST, LAST, 300, Left::Nothing),
];

#[test]
fn a_packet_is_taken_where_its_session_stands(rt: HostRuntime) {
    does(&rt, rt.alloc(), &TAKEN);
}

const SILENT: [Step; 12] = [
    Step::Fire(BROADCAST, 1250, Left::Nothing),
    Step::Open(BROADCAST),
    Step::Fire(BROADCAST, 1250, Left::Abort(AbortReason::Timeout)),
    Step::Remove(BROADCAST, false),
    Step::Fire(TP, 1250, Left::Nothing),
    Step::Open(TP),
    Step::Fire(TP, 1250, Left::Abort(AbortReason::Timeout)),
    Step::Remove(TP, true),
    Step::Fire(ETP, 1250, Left::Nothing),
    Step::Open(ETP),
    Step::Fire(ETP, 1250, Left::Abort(AbortReason::Timeout)),
    Step::Remove(ETP, true),
];

#[test]
fn a_silent_session_is_to_be_ended(rt: HostRuntime) {
    does(&rt, rt.alloc(), &SILENT);
}

// A full table hands a session back with what it was to be bound to.
fn handed_back(rt: &impl Abort, opened: Result<(), OpenRefused<u8>>) -> (u8, Incoming) {
    match opened {
        Err(OpenRefused::TableFull(bound, state)) => (bound, state),
        _ => panic!(rt; "not full"),
    }
}

fn is_refused(rt: &impl Abort, table: &mut SessionTable<u8>, key: Key, state: Incoming) {
    holds(rt, !table.contains(key));
    let (bound, state) = handed_back(rt, table.open(key, 7, state));
    holds(rt, bound == 7 && state.pgn().raw() == FECA);
    state.overrun();
}

#[test]
fn the_33rd_is_refused(rt: HostRuntime) {
    let mut table = SessionTable::new(rt.alloc());
    for source in 0..32 {
        open(&rt, rt.alloc(), &mut table, key(source, SessionKind::Tp));
    }
    let state = begun(&rt, rt.alloc(), SessionKind::Tp, FECA);
    is_refused(&rt, &mut table, key(32, SessionKind::Tp), state);
    same(&rt, table.len(), 32);
}

// Whether it is the session that took the place, and what this was bound to.
fn is_next(found: Option<(&u8, &Incoming)>) -> bool {
    match found {
        Some((bound, state)) => {
            *bound == 9 && state.kind() == SessionKind::Tp && state.pgn().raw() == 0xEF00
        }
        None => false,
    }
}

#[test]
fn a_new_session_takes_the_place(rt: HostRuntime) {
    let mut table = SessionTable::new(rt.alloc());
    let key = TP;
    open(&rt, rt.alloc(), &mut table, key);
    let next = begun(&rt, rt.alloc(), key.kind, 0xEF00);
    let held = take_out(&rt, &mut table, key);
    same(&rt, (table.len(), table.get(key).is_some()), (1, false));
    same(
        &rt,
        (table.next_due(1250), table.next_key(None)),
        (None, None),
    );
    table.put_back(held, 9, next);
    holds(&rt, is_next(table.get(key)));
}

// The image of the state at a key.
fn image_at(rt: &impl Abort, alloc: Global, table: &SessionTable<u8>, key: Key) -> IncomingImage {
    let Some((_bound, state)) = table.get(key) else {
        panic!(rt; "nothing at the key")
    };
    got(rt, state.image(alloc))
}

fn is_at(image: &IncomingImage, table: &SessionTable<u8>, key: Key) -> bool {
    match table.get(key) {
        Some((_bound, state)) => image.is_of(state),
        None => false,
    }
}

const OF_A_BROADCAST: [Step; 1] = [Step::Take(BROADCAST, FIRST, 100, Left::Nothing)];

const OF_TP: [Step; 1] = [Step::Take(TP, FIRST, 100, Left::Nothing)];

// The session of a key equals its image until its first packet.
fn until(rt: &impl Abort, alloc: Global, key: Key, packet: &[Step]) {
    let mut table = SessionTable::new(alloc);
    open(rt, alloc, &mut table, key);
    let image = image_at(rt, alloc, &table, key);
    let before = is_at(&image, &table, key);
    play(rt, alloc, &mut table, packet);
    same(rt, (before, is_at(&image, &table, key)), (true, false));
}

#[test]
fn an_image_is_of_a_session_as_it_was(rt: HostRuntime) {
    until(&rt, rt.alloc(), BROADCAST, &OF_A_BROADCAST);
    until(&rt, rt.alloc(), TP, &OF_TP);
}

// Whether an image has just these keys, each with a state that is bound to the number of its source.
fn has_keys(image: &TableImage<u8>, keys: &[Key]) -> bool {
    for (place, (key, content)) in image.entries().iter().enumerate() {
        let is_bound = match content {
            Some((bound, _state)) => *bound == key.source.0,
            None => false,
        };
        if !is_bound || keys.get(place) != Some(key) {
            return false;
        }
    }
    image.entries().len() == keys.len()
}

#[test]
fn an_image_has_each_key(rt: HostRuntime) {
    let mut table = SessionTable::new(rt.alloc());
    open(&rt, rt.alloc(), &mut table, ETP);
    open(&rt, rt.alloc(), &mut table, TP_OF_90);
    let image = got(&rt, table.image(rt.alloc()));
    holds(&rt, has_keys(&image, &[ETP, TP_OF_90]));
}
