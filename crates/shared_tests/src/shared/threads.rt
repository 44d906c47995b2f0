//! A worker for each of three stations and one for the bus, each a thread of its own, and two clients and an inbox.
use super::left::*;
use super::steps::*;
use pgn_ids::Address;
use segment_shared::{Client, Gate, Inbox, Live, SharedSegment, Tally, bus_worker, station_worker};
use std::alloc::{AllocError, Global};
use std::process::Abort;
use std::sync::Wait;
use std::sync::atomic::{AtomicU64, Ordering};
use std::thread;
use std::thread::{Scope, Threads};

/// The stations of the workers, and none for the bus's.
const WORKERS: [Option<Address>; 4] = [Some(A), Some(B), Some(R), None];

/// The most turns of each worker.
const TURNS: u64 = 20_000;

/// How many turns a worker may be ahead of the others, on an average.
const AHEAD: u64 = 16;

/// How often a client or an inbox looks before it is asked whether the workers have ended.
const LOOKS: u64 = 64;

/// Holds each worker at its first turn until all are there, and at each later one while it is ahead of the others. A turn with nothing
/// to do takes next to no time: without this gate a worker would use up all its turns before one that has to wait for a processor made
/// its first. Once one has ended, or not all could be started, it lets all pass, so that none waits for a thread that isn't there.
#[derive(Drop)]
struct Pace {
    passed: AtomicU64,
    calls: AtomicU64,
    open: AtomicU64,
    missed: AtomicU64,
}

impl Pace {
    fn new() -> Pace {
        Pace {
            passed: AtomicU64::new(0),
            calls: AtomicU64::new(0),
            open: AtomicU64::new(0),
            missed: AtomicU64::new(0),
        }
    }

    fn open(&self) {
        self.open.fetch_add(1, Ordering::SeqCst);
    }

    fn is_open(&self) -> bool {
        self.open.load(Ordering::SeqCst) > 0
    }

    // Waits until the workers have made so many turns, or all pass; whether they have made them.
    fn comes_to(&self, needed: u64) -> bool {
        for _ in 0..u64::MAX {
            if self.passed.load(Ordering::SeqCst) >= needed {
                return true;
            }
            if self.is_open() {
                return false;
            }
            thread::yield_now();
        }
        false
    }

    // A worker has ended.
    fn end(&self, tally: Tally) {
        self.calls.fetch_add(tally.calls, Ordering::SeqCst);
        self.open();
    }
}

impl Gate for Pace {
    fn pass(&self, _worker: u8, turn: u64) {
        let needed = turn
            .saturating_sub(AHEAD)
            .max(1)
            .saturating_mul(WORKERS.len() as u64);
        self.passed.fetch_add(1, Ordering::SeqCst);
        if !self.comes_to(needed) && turn == 1 {
            self.missed.fetch_add(1, Ordering::SeqCst);
        }
    }
}

fn work(rt: &impl Wait, shared: &SharedSegment, pace: &Pace, station: Option<Address>) {
    let tally = match station {
        Some(station) => station_worker(rt, shared, station, pace, TURNS),
        None => bus_worker(rt, shared, pace, TURNS),
    };
    pace.end(tally);
}

/// How many notes of the first and of the second client are to arrive, and how many deliveries.
const ALL: [u64; 3] = [1, 1, 2];

// How many of them arrived before the workers ended.
fn arrived(
    rt: &(impl Abort + Wait),
    pace: &Pace,
    first: &mut Client,
    second: &mut Client,
    inbox: &mut Inbox,
) -> [u64; 3] {
    let mut counts = [0u64; 3];
    for _ in 0..u64::MAX {
        let last = pace.is_open();
        let came = [
            got(rt, first.outcome(rt, LOOKS)).is_some(),
            got(rt, second.outcome(rt, LOOKS)).is_some(),
            got(rt, inbox.receive(rt, LOOKS)).is_some(),
        ];
        for k in 0..3 {
            counts[k] = counts[k].saturating_add(came[k] as u64);
        }
        if counts == ALL || last && came == [false; 3] {
            return counts;
        }
    }
    counts
}

// Both clients submit, and each of the notes and deliveries arrives.
fn talk(
    rt: &(impl Abort + Wait),
    alloc: Global,
    pace: &Pace,
    first: &mut Client,
    second: &mut Client,
    inbox: &mut Inbox,
) {
    got(rt, submitted(rt, first, R, FECA, bytes(rt, alloc, 1, 9)));
    got(
        rt,
        submitted(rt, second, R, FECA, bytes(rt, alloc, 0x11, 10)),
    );
    same(rt, arrived(rt, pace, first, second, inbox), ALL);
}

// Starts a thread for each worker.
fn start_workers<'s, E, T: Threads + Wait + Sync>(
    scope: &Scope<'s, E>,
    rt: &'s T,
    shared: &'s SharedSegment,
    pace: &'s Pace,
) -> Result<(), AllocError> {
    for station in &WORKERS {
        scope.spawn(move || work(rt, shared, pace, *station))?;
    }
    Ok(())
}

// The talk beside the workers. If not all of their threads could be started there is none.
fn talk_by_threads<T: Threads + Wait + Abort + Sync>(
    rt: &T,
    alloc: Global,
    shared: &SharedSegment,
    pace: &Pace,
    first: &mut Client,
    second: &mut Client,
    inbox: &mut Inbox,
) {
    thread::scope(thread::scope_env(), rt, move |scope| {
        got(rt, start_workers(scope, rt, shared, pace));
        talk(rt, alloc, pace, first, second, inbox);
        shared.stop(rt);
        pace.open();
    })
}

// Each worker was at its first turn before any continued. Beside the opening of the port, which none of them made, the stored calls are those that
// the workers say they made.
fn add_up(rt: &impl Abort, live: &Live, pace: &Pace) {
    holds(rt, live.is_stopped());
    same(rt, pace.missed.load(Ordering::SeqCst), 0);
    let applied = pace.calls.load(Ordering::SeqCst);
    same(rt, live.calls().len() as u64, applied.saturating_add(1));
}

const NOTHING: Left = Left {
    clients: 2,
    submissions: 0,
    notes: 0,
    inboxes: 1,
    deliveries: 0,
};

// The two clients talk by threads, and nothing is left.
fn talk_through<T: Threads + Wait + Abort + Sync>(
    rt: &T,
    alloc: Global,
    pace: &Pace,
    live: Live,
    first: Client,
    second: Client,
    inbox: Inbox,
) {
    let (mut first, mut second, mut inbox) = (first, second, inbox);
    let shared = SharedSegment::share(live);
    talk_by_threads(
        rt,
        alloc,
        &shared,
        pace,
        &mut first,
        &mut second,
        &mut inbox,
    );
    let mut live = shared.into_live();
    add_up(rt, &live, pace);
    let clients = got(rt, vec![in alloc; first, second]);
    leaves(rt, alloc, &mut live, clients, inbox, &NOTHING);
    drop(live);
}

#[test]
fn messages_of_two_threads_come_to_a_third(rt: HostRuntime) {
    let mut live = three(&rt, rt.alloc());
    let (inbox, first) = port_and_client(&rt, &mut live);
    let second = client(&rt, &mut live, B);
    let pace = Pace::new();
    talk_through(&rt, rt.alloc(), &pace, live, first, second, inbox);
    drop(pace);
}
