//! The ends of a relay whose turns don't run out: at its limit, with one of its sides, and when it is stopped. Each of these relays also
//! ends, in the same way, if no second thread can be made.
use crate::checks::{got, holds, same};
use crate::relay::ends::*;
use message_events::Bytes;
use port_relay::{Ended, Gate, Relayed, Stop};
use segment_rings::Delivery;
use segment_shared::Refusal;
use std::alloc::{AllocError, Global};
use std::process::Abort;
use std::sync::Wait;
use std::sync::atomic::{AtomicU64, Ordering};
use std::thread;
use std::thread::Threads;

/// More turns than a relay makes in any time.
const NO_END: u64 = u64::MAX;

/// Lets each side pass at once.
#[derive(Drop)]
struct Open {}

impl Gate for Open {
    fn pass(&self, _side: u8, _turn: u64) {}
}

fn job(limit: u64, turns: u64) -> Job {
    Job {
        to: FAR,
        limit,
        turns,
    }
}

// Gives so many messages of so many bytes, the first of which are 1, 2, 3 and so on.
fn give_all(rt: &impl Abort, alloc: Global, ends: &mut Ends, messages: u8, many: u8) {
    for k in 0..messages {
        give(rt, alloc, &mut ends.door, k.wrapping_add(1), many);
    }
}

fn carry<R: Threads + Wait + Abort + Sync, G: Gate + Sync>(
    rt: &R,
    alloc: Global,
    ends: &mut Ends,
    job: &Job,
    gate: &G,
    stop: Option<&Stop>,
) -> Relayed {
    let Ends { inbox, client, .. } = ends;
    got(rt, run_whole(rt, alloc, inbox, client, job, gate, stop))
}

// So many were pulled, pushed and left, and for these reasons the sides ended, or for want of memory if one of them lacked it.
fn is_ended(rt: &impl Abort, carried: &Relayed, meant: [u64; 3], pulling: Ended, pushing: Ended) {
    has_memory(rt, carried);
    got(rt, counts(carried, meant));
    same(rt, carried.pulling, pulling);
    same(rt, carried.pushing, pushing);
}

fn has_memory(rt: &impl Abort, carried: &Relayed) {
    if carried.pulling == Ended::OutOfMemory || carried.pushing == Ended::OutOfMemory {
        got(rt, Err(AllocError))
    }
}

fn carry_to_the_limit<R: Threads + Wait + Abort + Sync>(rt: &R, alloc: Global, ends: &mut Ends) {
    give_all(rt, alloc, ends, 40, 9);
    let carried = carry(rt, alloc, ends, &job(40, NO_END), &Open {}, None);
    is_ended(rt, &carried, [40, 40, 0], Ended::Limit, Ended::OtherEnded);
    drop(carried);
}

#[test]
fn a_relay_ends_at_its_limit(rt: HostRuntime) {
    let mut ends = Ends::new(&rt, rt.alloc());
    carry_to_the_limit(&rt, rt.alloc(), &mut ends);
    drop(ends);
}

// The only message is too short to be submitted, and no other arrives: the receiving ends too.
fn carry_a_short_one<R: Threads + Wait + Abort + Sync>(rt: &R, alloc: Global, ends: &mut Ends) {
    give_all(rt, alloc, ends, 1, 8);
    let carried = carry(rt, alloc, ends, &job(5, NO_END), &Open {}, None);
    let refused = Ended::Refused(Refusal::TooShort);
    is_ended(rt, &carried, [1, 0, 1], Ended::OtherEnded, refused);
    drop(carried);
}

#[test]
fn the_receiving_ends_with_the_submitting(rt: HostRuntime) {
    let mut ends = Ends::new(&rt, rt.alloc());
    carry_a_short_one(&rt, rt.alloc(), &mut ends);
    drop(ends);
}

fn is_by_turns(rt: &impl Abort, ended: Ended) {
    holds(rt, ended == Ended::Turns || ended == Ended::OtherEnded);
}

// Which side is through its turns first is the threads' affair.
fn carry_nothing<R: Threads + Wait + Abort + Sync>(rt: &R, alloc: Global, ends: &mut Ends) {
    let carried = carry(rt, alloc, ends, &job(5, 7), &Open {}, None);
    has_memory(rt, &carried);
    same(rt, (carried.pulled, carried.pushed), (0, 0));
    is_by_turns(rt, carried.pulling);
    is_by_turns(rt, carried.pushing);
    holds(
        rt,
        carried.pulling != carried.pushing || carried.pulling == Ended::Turns,
    );
    drop(carried);
}

#[test]
fn a_relay_ends_after_its_turns(rt: HostRuntime) {
    let mut ends = Ends::new(&rt, rt.alloc());
    carry_nothing(&rt, rt.alloc(), &mut ends);
    drop(ends);
}

/// The turn of a side by which something else must have ended the other one.
const FAR_TOO_MANY: u64 = 100_000;

// Sets it once the side that receives has filled the line, the other one has tried its message twice behind that, and the first has made
// three turns more: by then each of both holds a message.
#[derive(Drop)]
struct OnceFull<'s> {
    stop: &'s Stop,
    steps: AtomicU64,
}

impl OnceFull<'_> {
    // Each step is made by one of both alone.
    fn step_from(&self, first: u64, end: u64) {
        let steps = self.steps.load(Ordering::SeqCst);
        if first <= steps && steps < end {
            self.steps.store(steps.saturating_add(1), Ordering::SeqCst);
        }
    }
}

impl Gate for OnceFull<'_> {
    fn pass(&self, side: u8, turn: u64) {
        if side == 1 {
            self.step_from(1, 3);
        } else {
            if turn >= 20 {
                self.step_from(0, 1);
            }
            self.step_from(3, 6);
        }
        if self.steps.load(Ordering::SeqCst) == 6 || turn == FAR_TOO_MANY {
            self.stop.stop();
        }
    }
}

fn starts_with(rt: &impl Abort, bytes: &Bytes, first: u8) {
    holds(rt, bytes.len() > 0);
    same(rt, bytes.as_slice()[0], first);
}

fn are_in_order(rt: &impl Abort, left: &[Delivery]) {
    let mut first = 0u8;
    for delivery in left {
        first = first.wrapping_add(1);
        starts_with(rt, &delivery.bytes, first);
    }
}

// The client's ring is full: the first message waits with the side that submits, sixteen in the line, and one with the side that receives.
fn stop_when_full<R: Threads + Wait + Abort + Sync>(rt: &R, alloc: Global, ends: &mut Ends) {
    give_all(rt, alloc, ends, 40, 9);
    for _ in 0..64 {
        submit(rt, &mut ends.client, RECEIVER, bytes(rt, alloc, 0x80, 9));
    }
    let stop = Stop::new();
    let gate = OnceFull {
        stop: &stop,
        steps: AtomicU64::new(0),
    };
    let carried = carry(rt, alloc, ends, &job(40, NO_END), &gate, Some(&stop));
    is_ended(rt, &carried, [18, 0, 18], Ended::Stopped, Ended::Stopped);
    are_in_order(rt, carried.left.as_slice());
    drop(carried);
}

#[test]
fn what_a_stopped_relay_holds_is_left(rt: HostRuntime) {
    let mut ends = Ends::new(&rt, rt.alloc());
    stop_when_full(&rt, rt.alloc(), &mut ends);
    drop(ends);
}

fn stop_before<R: Threads + Wait + Abort + Sync>(rt: &R, alloc: Global, ends: &mut Ends) {
    give_all(rt, alloc, ends, 3, 9);
    let stop = Stop::new();
    holds(rt, !stop.is_stopped());
    stop.stop();
    holds(rt, stop.is_stopped());
    let carried = carry(rt, alloc, ends, &job(3, NO_END), &Open {}, Some(&stop));
    is_ended(rt, &carried, [0, 0, 0], Ended::Stopped, Ended::Stopped);
    drop(carried);
}

#[test]
fn a_relay_that_is_stopped_before_moves_nothing(rt: HostRuntime) {
    let mut ends = Ends::new(&rt, rt.alloc());
    stop_before(&rt, rt.alloc(), &mut ends);
    drop(ends);
}

/// How often the thread that stops looks whether the relay has begun.
const LOOKS: u64 = 100_000;

/// How many turns of both sides it waits for.
const BEGUN: u64 = 100;

// Counts the turns of both sides.
#[derive(Drop)]
struct Counted {
    turns: AtomicU64,
}

impl Gate for Counted {
    fn pass(&self, _side: u8, _turn: u64) {
        self.turns.fetch_add(1, Ordering::SeqCst);
    }
}

fn stop_later(gate: &Counted, stop: &Stop) {
    for _ in 0..LOOKS {
        if gate.turns.load(Ordering::SeqCst) >= BEGUN {
            break;
        }
        thread::yield_now();
    }
    stop.stop();
}

// Nobody waits for the turns of a relay that has ended.
fn carry_counted<R: Threads + Wait + Abort + Sync>(
    rt: &R,
    alloc: Global,
    ends: &mut Ends,
    gate: &Counted,
    stop: &Stop,
) -> Relayed {
    let carried = carry(rt, alloc, ends, &job(3, NO_END), gate, Some(stop));
    gate.turns.fetch_add(BEGUN, Ordering::SeqCst);
    carried
}

fn is_stopped(ended: Ended) -> bool {
    ended == Ended::Stopped || ended == Ended::OtherEnded
}

// Two messages of three arrive, so that nothing but the other thread ends the relay.
fn stop_beside<R: Threads + Wait + Abort + Sync>(rt: &R, alloc: Global, ends: &mut Ends) {
    give_all(rt, alloc, ends, 2, 9);
    let stop = Stop::new();
    let gate = Counted {
        turns: AtomicU64::new(0),
    };
    let (carried, _) = thread::join(
        rt,
        || carry_counted(rt, alloc, ends, &gate, &stop),
        || stop_later(&gate, &stop),
    );
    has_memory(rt, &carried);
    holds(
        rt,
        is_stopped(carried.pulling) && is_stopped(carried.pushing),
    );
    holds(
        rt,
        carried.pulling != carried.pushing || carried.pulling == Ended::Stopped,
    );
    drop(carried);
}

#[test]
fn another_thread_stops_a_relay(rt: HostRuntime) {
    let mut ends = Ends::new(&rt, rt.alloc());
    stop_beside(&rt, rt.alloc(), &mut ends);
    drop(ends);
}

fn cross<R: Threads + Wait + Abort + Sync>(rt: &R, alloc: Global, ends: &mut Ends) {
    give_all(rt, alloc, ends, 40, 9);
    let Ends { inbox, client, .. } = ends;
    let carried = got(rt, relayed(rt, alloc, inbox, client, &job(40, NO_END)));
    is_ended(rt, &carried, [40, 40, 0], Ended::Limit, Ended::OtherEnded);
    drop(carried);
}

#[test]
fn relay_crossed(rt: HostRuntime) {
    let mut ends = Ends::new(&rt, rt.alloc());
    cross(&rt, rt.alloc(), &mut ends);
    drop(ends);
}
