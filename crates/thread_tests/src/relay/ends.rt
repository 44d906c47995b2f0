//! Both ends of a relay without a segment, and what goes through them. Of these calls a test only looks at the answer: their contracts
//! are not carried through it. Want of memory ends the test.
ghost use Rattle.std.specs.Prelude.{◌≡◌};

use crate::checks::{got, holds, same};
pub(crate) use crate::messages::{FECA, bytes, feca};
use crate::relay::pace::Pace;
use message_events::Bytes;
use pgn_ids::{Address, Pgn};
use port_relay::{Gate, Relayed, Route, Stop, relay, relay_until};
use port_table::PortId;
use segment_rings::{Bell, Client, Delivery, Door, Doorway, Inbox, Seat, Submission};
use std::alloc::{AllocError, Global};
use std::process::Abort;
use std::sync::Wait;
use std::thread::Threads;

pub(crate) const SENDER: Address = Address(0x21);

pub(crate) const RECEIVER: Address = Address(0x35);

pub(crate) const GATEWAY: Address = Address(0x40);

pub(crate) const FAR: Address = Address(0x50);

/// How many turns each worker has, if they are to suffice.
pub(crate) const TURNS: u64 = 2_000;

const PORT: PortId = PortId {
    station: RECEIVER,
    number: 1,
};

/// A port of the first segment with its inbox, and a client of the second with its seat.
#[derive(Drop)]
pub(crate) struct Ends {
    pub(crate) door: Door,
    pub(crate) inbox: Inbox,
    pub(crate) seat: Seat,
    pub(crate) client: Client,
}

impl Ends {
    pub(crate) fn new(rt: &impl Abort, alloc: Global) -> Ends {
        let (door, inbox) = got(rt, Doorway::new(alloc)).open(PORT);
        let (seat, client) = got(rt, Seat::new(alloc, 0, GATEWAY, got(rt, Bell::new(alloc))));
        Ends {
            door,
            inbox,
            seat,
            client,
        }
    }
}

fn delivery(rt: &impl Abort, alloc: Global, first: u8, many: u8) -> Delivery {
    Delivery {
        from: SENDER,
        to: RECEIVER,
        pgn: feca(rt),
        bytes: bytes(rt, alloc, first, many),
    }
}

fn again(rt: &impl Abort, alloc: Global, delivery: &Delivery) -> Delivery
    ensures { result ≡ delivery.now }
{
    Delivery {
        from: delivery.from,
        to: delivery.to,
        pgn: delivery.pgn,
        bytes: got(rt, delivery.bytes.copy(alloc)),
    }
}

/// Gives a message of so many bytes, from this one on.
pub(crate) fn give(rt: &impl Abort, alloc: Global, door: &mut Door, first: u8, many: u8) {
    let pushed = delivery(rt, alloc, first, many);
    let kept = again(rt, alloc, &pushed);
    holds(rt, got(rt, door.prepare(1)));
    door.give(pushed, kept);
}

/// Submits a message of nine bytes.
pub(crate) fn submit(rt: &impl Abort, client: &mut Client, to: Address, nine: Bytes) {
    if let Err(refused) = client.submit(to, FECA, nine) {
        same(rt, refused.refusal, None);
        got(rt, Err(AllocError))
    }
}

fn route(rt: &impl Abort, to: Address) -> Route {
    got(rt, Route::new(to))
}

/// The destination of a test's relay, how many messages it receives at most, and how many turns each worker has.
#[derive(Drop)]
pub(crate) struct Job {
    pub(crate) to: Address,
    pub(crate) limit: u64,
    pub(crate) turns: u64,
}

fn run<R: Threads + Wait + Abort + Sync, G: Gate + Sync>(
    rt: &R,
    alloc: Global,
    inbox: &mut Inbox,
    client: &mut Client,
    job: &Job,
    gate: &G,
    stop: Option<&Stop>,
) -> Result<Relayed, AllocError> {
    let route = route(rt, job.to);
    match stop {
        None => relay(rt, alloc, inbox, client, route, job.limit, job.turns, gate),
        Some(stop) => relay_until(
            rt, alloc, inbox, client, route, job.limit, job.turns, gate, stop,
        ),
    }
}

/// Runs a relay that loses no message, however it ends, until it is stopped, if it can be.
pub(crate) fn run_whole<R: Threads + Wait + Abort + Sync, G: Gate + Sync>(
    rt: &R,
    alloc: Global,
    inbox: &mut Inbox,
    client: &mut Client,
    job: &Job,
    gate: &G,
    stop: Option<&Stop>,
) -> Result<Relayed, AllocError> {
    let received = inbox.received().len();
    let submitted = client.submitted().len();
    let relayed = run(rt, alloc, inbox, client, job, gate, stop)?;
    let came = behind(rt, inbox.received(), received);
    let went = behind(rt, client.submitted(), submitted);
    is_whole(rt, came, went, &relayed, job.to);
    Ok(relayed)
}

// The relay of a test, unless one of its workers stayed alone: then nothing was moved.
fn crossed<R: Threads + Wait + Abort + Sync>(
    rt: &R,
    alloc: Global,
    inbox: &mut Inbox,
    client: &mut Client,
    job: &Job,
) -> Result<Option<Relayed>, AllocError> {
    let stop = Stop::new();
    let pace = Pace::new(&stop);
    let relayed = run_whole(rt, alloc, inbox, client, job, &pace, Some(&stop))?;
    if stop.is_stopped() {
        drop(relayed);
        return Ok(None);
    }
    Ok(Some(relayed))
}

/// The relay of a test. If one of its workers was late, or there was no memory for its thread, it is run again.
pub(crate) fn relayed<R: Threads + Wait + Abort + Sync>(
    rt: &R,
    alloc: Global,
    inbox: &mut Inbox,
    client: &mut Client,
    job: &Job,
) -> Result<Relayed, AllocError> {
    if let Some(relayed) = crossed(rt, alloc, inbox, client, job)? {
        return Ok(relayed);
    }
    crossed(rt, alloc, inbox, client, job)?.ok_or(AllocError)
}

// The elements behind so many.
fn behind<'a, T>(rt: &impl Abort, all: &'a [T], many: usize) -> &'a [T] {
    holds(rt, many <= all.len());
    &all[many..]
}

// What was received is what was sent to a station, and then what is left.
fn is_whole(
    rt: &impl Abort,
    came: &[Delivery],
    went: &[Submission],
    relayed: &Relayed,
    to: Address,
) {
    let left = relayed.left.as_slice();
    same(rt, relayed.pulled, came.len() as u64);
    same(rt, relayed.pushed, went.len() as u64);
    same(rt, went.len().saturating_add(left.len()), came.len());
    are_sent_on(rt, came, went, to);
    are_left(rt, behind(rt, came, went.len()), left);
}

fn are_sent_on(rt: &impl Abort, came: &[Delivery], went: &[Submission], to: Address) {
    for (k, submission) in went.iter().enumerate() {
        same(rt, submission.to, to);
        holds(rt, has_pgn(came, k, submission.pgn));
        holds(rt, has_bytes(came, k, &submission.bytes));
    }
}

fn are_left(rt: &impl Abort, came: &[Delivery], left: &[Delivery]) {
    for (k, delivery) in left.iter().enumerate() {
        holds(rt, has_bytes(came, k, &delivery.bytes));
    }
}

fn has_bytes(came: &[Delivery], k: usize, bytes: &Bytes) -> bool {
    match came.get(k) {
        Some(delivery) => delivery.bytes.as_slice() == bytes.as_slice(),
        None => false,
    }
}

fn has_pgn(came: &[Delivery], k: usize, pgn: Pgn) -> bool {
    match came.get(k) {
        Some(delivery) => delivery.pgn == pgn,
        None => false,
    }
}

/// Pulled, pushed and left. Fewer than are meant to be are want of memory.
pub(crate) fn counts(relayed: &Relayed, meant: [u64; 3]) -> Result<(), AllocError> {
    let left = relayed.left.len() as u64;
    if [relayed.pulled, relayed.pushed, left] != meant {
        return Err(AllocError);
    }
    Ok(())
}
