//! Workers that go by a clock, and sleep while nothing is to do.
use super::{A, Hand, Open, R, two};
use crate::calls::*;
use crate::checks::{got, holds, same};
use bus_frame::{CanId, Frame};
use pgn_ids::Address;
use segment_shared::{
    Client, Clock, Cutting, Inbox, MachineClock, Pace, SharedSegment, WorkerCall, WorkerEnd,
    clocked_bus_worker, clocked_station_worker,
};
use std::alloc::{AllocError, Global};
use std::process::Abort;
use std::sync::Wait;
use std::sync::atomic::{AtomicU64, Ordering};
use std::thread;
use std::thread::{Scope, Threads};
use std::time::Duration;
use tp_wire::Outcome;

// Some turns of both stations and of the bus, one after another, by this clock.
fn go_by(rt: &impl Wait, shared: &SharedSegment, hand: &Hand, rounds: u64) {
    let gate = Open::new();
    let cutting = Cutting {
        keeper: hand,
        at: usize::MAX,
    };
    for _ in 0..rounds {
        let _one = clocked_station_worker(rt, shared, A, &gate, &cutting, hand, 1);
        let _other = clocked_station_worker(rt, shared, R, &gate, &cutting, hand, 1);
        let _bus = clocked_bus_worker(rt, shared, &gate, &cutting, hand, 1);
    }
}

/// A node that is no station.
const FOREIGN: Address = Address(0x80);

/// What is done with the clock, the segment or its client of 21, or is seen of them.
enum Step {
    /// The clock is set.
    Set(u64),
    /// So many turns of each worker.
    Go(u64),
    /// The segment's clock is at this tick.
    Stands(u64),
    /// How many calls are stored.
    Calls(usize),
    /// The client submits a message to the foreign node.
    Submit,
    /// The foreign node puts a frame of a connection with 21 on the bus.
    Inject([u8; 8]),
    /// The outcome that the client reads, if there is one.
    Outcome(Option<Outcome>),
}

fn is_so(
    rt: &(impl Abort + Wait),
    alloc: Global,
    shared: &SharedSegment,
    hand: &Hand,
    client: &mut Client,
    step: &Step,
) -> bool {
    match step {
        Step::Set(at) => hand.set(*at),
        Step::Go(rounds) => go_by(rt, shared, hand, *rounds),
        Step::Stands(at) => return shared.lock(rt).segment().now() == *at,
        Step::Calls(count) => return shared.lock(rt).calls().len() == *count,
        Step::Submit => submit(rt, client, FOREIGN, alloc),
        Step::Inject(bytes) => is_done(rt, shared.apply(rt, injected(rt, *bytes))),
        Step::Outcome(expected) => return outcome(rt, client) == *expected,
    }
    true
}

fn submit(rt: &impl Abort, client: &mut Client, to: Address, alloc: Global) {
    got(rt, submitted(rt, client, to, FECA, bytes(rt, alloc, 1, 9)));
}

fn injected(rt: &impl Abort, bytes: [u8; 8]) -> WorkerCall {
    WorkerCall::Inject {
        frame: Frame::full(got(rt, CanId::new(0x1CEC_2180)), bytes),
    }
}

fn outcome(rt: &impl Abort, client: &mut Client) -> Option<Outcome> {
    match got(rt, client.try_outcome()) {
        Some(note) => Some(note.outcome),
        None => None,
    }
}

// Ends the test at the first step that isn't so, and prints its place in the table.
fn play(
    rt: &(impl Abort + Wait),
    alloc: Global,
    shared: &SharedSegment,
    client: &mut Client,
    steps: &[Step],
) {
    let hand = Hand::new();
    for (place, step) in steps.iter().enumerate() {
        let so = is_so(rt, alloc, shared, &hand, client, step);
        same(rt, (place, so), (place, true));
    }
}

// A segment and a client of 21 do all this.
fn does(rt: &(impl Abort + Wait), alloc: Global, steps: &[Step]) {
    let mut live = two(rt, alloc);
    let mut client = got(rt, live.attach(A));
    let shared = SharedSegment::share(live);
    play(rt, alloc, &shared, &mut client, steps);
    drop(client);
    drop(shared);
}

const SET: [Step; 12] = [
    Step::Go(3),
    Step::Stands(0),
    Step::Set(7),
    Step::Go(3),
    Step::Stands(7),
    Step::Set(5),
    Step::Go(3),
    Step::Stands(7),
    Step::Set(60),
    Step::Go(3),
    Step::Stands(60),
    Step::Calls(2),
];

#[test]
fn the_segment_goes_by_its_clock_alone(rt: HostRuntime) {
    does(&rt, rt.alloc(), &SET);
}

/// More turns than the bus needs for the 1,250 ticks that the sender waits, if its clock advances by 50 ticks a turn at
/// rest.
const LONG: u64 = 40;

// The foreign node answers when many turns of each worker have passed, and one tick before the sender's timer is due.
const ANSWERED: [Step; 11] = [
    Step::Submit,
    Step::Go(LONG),
    Step::Set(1_249),
    Step::Go(LONG),
    Step::Outcome(None),
    Step::Inject([17, 2, 1, 0xFF, 0xFF, 0xCA, 0xFE, 0]),
    Step::Go(LONG),
    Step::Outcome(None),
    Step::Inject([19, 9, 0, 2, 0xFF, 0xCA, 0xFE, 0]),
    Step::Go(10),
    Step::Outcome(Some(Outcome::Acknowledged)),
];

#[test]
fn a_foreign_node_has_the_time_of_the_clock(rt: HostRuntime) {
    does(&rt, rt.alloc(), &ANSWERED);
}

/// How often a worker looks by itself: within a test never.
const NEVER: u64 = 3_600_000;

/// The stations of the workers, and none for the bus's.
const WORKERS: [Option<Address>; 3] = [Some(A), Some(R), None];

// A worker, which counts how many have ended by a stop.
fn work<T: Wait + std::time::Clock>(
    rt: &T,
    shared: &SharedSegment,
    clock: &MachineClock<'_, T>,
    stopped: &AtomicU64,
    station: Option<Address>,
) {
    let gate = Pace::new(rt, shared, clock, NEVER);
    let hand = Hand::new();
    let cutting = Cutting {
        keeper: &hand,
        at: usize::MAX,
    };
    let most = u64::MAX;
    let tally = match station {
        Some(station) => clocked_station_worker(rt, shared, station, &gate, &cutting, clock, most),
        None => clocked_bus_worker(rt, shared, &gate, &cutting, clock, most),
    };
    if tally.end == WorkerEnd::Stopped {
        stopped.fetch_add(1, Ordering::SeqCst);
    }
}

fn start_workers<'s, E, T: Threads + Wait + std::time::Clock + Sync>(
    scope: &Scope<'s, E>,
    rt: &'s T,
    shared: &'s SharedSegment,
    clock: &'s MachineClock<'s, T>,
    stopped: &'s AtomicU64,
) -> Result<(), AllocError> {
    for station in &WORKERS {
        scope.spawn(move || work(rt, shared, clock, stopped, *station))?;
    }
    Ok(())
}

// Wakes the workers for a message that was submitted, and looks for its outcome for a while; again if memory was
// refused meanwhile.
fn is_noted_after_a_wake<T: Wait + Abort + std::time::Clock>(
    rt: &T,
    shared: &SharedSegment,
    client: &mut Client,
) -> bool {
    for _ in 0..20 {
        shared.wake();
        for _ in 0..1_000 {
            if got(rt, client.try_outcome()).is_some() {
                return true;
            }
            thread::sleep(rt, Duration::from_millis(1));
        }
    }
    false
}

// The workers sleep already as the message is submitted, or find it at their first turn.
fn submit_and_wake<T: Wait + Abort + std::time::Clock>(
    rt: &T,
    alloc: Global,
    shared: &SharedSegment,
    client: &mut Client,
) {
    for _ in 0..3 {
        thread::sleep(rt, Duration::from_millis(20));
        submit(rt, client, R, alloc);
        holds(rt, is_noted_after_a_wake(rt, shared, client));
    }
}

fn serve<T: Threads + Wait + Abort + std::time::Clock + Sync>(
    rt: &T,
    alloc: Global,
    shared: &SharedSegment,
    client: &mut Client,
) {
    let clock = MachineClock::new(rt, 0);
    let stopped = AtomicU64::new(0);
    let (clock, ended) = (&clock, &stopped);
    thread::scope(thread::scope_env(), rt, move |scope| {
        got(rt, start_workers(scope, rt, shared, clock, ended));
        submit_and_wake(rt, alloc, shared, client);
        shared.stop(rt);
    });
    same(rt, stopped.load(Ordering::SeqCst), 3);
}

fn is_received(rt: &impl Abort, inbox: &mut Inbox) {
    for _ in 0..3 {
        holds(rt, got(rt, inbox.try_receive()).is_some());
    }
    holds(rt, got(rt, inbox.try_receive()).is_none());
}

fn serve_of<T: Threads + Wait + Abort + std::time::Clock + Sync>(rt: &T, alloc: Global) {
    let mut live = two(rt, alloc);
    let mut inbox = got(rt, live.open_port(R, feca(rt), 1785));
    let mut client = got(rt, live.attach(A));
    let shared = SharedSegment::share(live);
    serve(rt, alloc, &shared, &mut client);
    is_received(rt, &mut inbox);
    drop(client);
    drop(inbox);
    drop(shared);
}

#[test]
fn sleeping_workers_wake_for_a_submission_and_for_a_stop(rt: HostRuntime) {
    serve_of(&rt, rt.alloc());
}

// A worker that made a call passes at once, and one that made none sleeps until the next tick at which it looks: each of so many turns takes that long.
fn sleep_between_turns<T: Wait + Abort + std::time::Clock>(rt: &T, shared: &SharedSegment) {
    let clock = MachineClock::new(rt, 0);
    let gate = Pace::new(rt, shared, &clock, 10);
    let hand = Hand::new();
    let cutting = Cutting {
        keeper: &hand,
        at: usize::MAX,
    };
    let before = clock.now();
    let station = clocked_station_worker(rt, shared, A, &gate, &cutting, &clock, 21);
    holds(rt, station.end == WorkerEnd::Turns);
    let passed = clock.now().saturating_sub(before);
    holds(rt, passed >= 180);
    holds(rt, shared.lock(rt).segment().now() <= clock.now());
}

#[test]
fn a_worker_with_nothing_to_do_sleeps(rt: HostRuntime) {
    let shared = SharedSegment::share(two(&rt, rt.alloc()));
    sleep_between_turns(&rt, &shared);
    drop(shared);
}
