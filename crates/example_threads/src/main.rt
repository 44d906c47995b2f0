//! Two stations on one bus, and a thread for each: it sends the other a message, waits for the outcome, and receives the other's.
//! Three more threads drive the bus. If one of them can't be made, the program says so and ends.
#![tactic(auto)]

use anyhow::bail;
use pgn_ids::{Address, Pgn};
use segment_shared::{
    Bytes, Client, Delivery, Gate, Inbox, Live, Note, SharedSegment, bus_worker, station_worker,
};
use std::alloc::{AllocError, Global};
use std::sync::Wait;
use std::thread::{self, Scope, Threads};

const HERE: Address = Address(0x21);

const THERE: Address = Address(0x35);

const PGN: u32 = 0xFECA;

/// The most turns of each worker, and of each wait: more than a busy machine uses up before each thread has run.
const TURNS: u64 = 1_000_000_000;

/// Lets the other threads run before each turn of a worker: those with nothing to do would else soon have filled the record of calls.
#[derive(Drop)]
struct Pace {}

impl Gate for Pace {
    fn pass(&self, _worker: u8, _turn: u64) {
        for _ in 0..32 {
            thread::yield_now();
        }
    }
}

/// A station's client and inbox, and the message that it sends.
type Ends = (Client, Inbox, Bytes);

fn ends(alloc: Global, live: &mut Live, at: Address, text: &[u8]) -> anyhow::Result<Ends> {
    let bytes = Bytes::new(Vec::from_slice(alloc, text)?);
    let inbox = live.open_port(at, Pgn::new(PGN)?, 1785)?;
    Ok((live.attach(at)?, inbox, bytes))
}

/// The outcome of a thread's message, and the message that it received.
type Talk = Result<(Option<Note>, Option<Delivery>), AllocError>;

fn talk<R: Wait>(rt: &R, ends: Ends, to: Address) -> Talk {
    let (mut client, mut inbox, bytes) = ends;
    let _ticket = client.submit(to, PGN, bytes);
    Ok((client.outcome(rt, TURNS)?, inbox.receive(rt, TURNS)?))
}

/// A thread for each station's turns, one for those of the bus, one for the talk of 21, and this one for that of 35, which waits for
/// the others: so it begins once all are made.
fn talk_both<'s, E, R: Threads + Wait + Sync>(
    scope: &Scope<'s, E>,
    rt: &'s R,
    shared: &'s SharedSegment,
    here: Ends,
    there: Ends,
) -> Result<(Talk, Talk), AllocError> {
    for address in [HERE, THERE] {
        scope.spawn(move || station_worker(rt, shared, address, &Pace {}, TURNS))?;
    }
    scope.spawn(move || bus_worker(rt, shared, &Pace {}, TURNS))?;
    let at_21 = scope.spawn(move || talk(rt, here, THERE))?;
    let at_35 = talk(rt, there, HERE);
    Ok((at_21.join(rt), at_35))
}

/// The result of the talks. The workers are stopped in each case: the scope ends with its threads.
fn run<R: Threads + Wait + Sync>(
    rt: &R,
    shared: &SharedSegment,
    here: Ends,
    there: Ends,
) -> Result<(Talk, Talk), AllocError> {
    thread::scope(thread::scope_env(), rt, move |scope| {
        let talks = talk_both(scope, rt, shared, here, there);
        shared.stop(rt);
        talks
    })
}

fn show(rt: &impl Print, name: &str, talk: Talk) -> anyhow::Result<()> {
    if let (Some(Note { outcome, .. }), Some(delivery)) = talk? {
        let text = std::str::from_utf8(delivery.bytes.as_slice()).unwrap_or("");
        println!(rt; "{name}: sent, {outcome:?}; received {text}")?;
    }
    Ok(())
}

fn main(rt: HostRuntime) -> anyhow::Result<()> {
    let mut live = Live::new(rt.alloc(), &[HERE, THERE])?;
    let here = ends(rt.alloc(), &mut live, HERE, b"ping from 21")?;
    let there = ends(rt.alloc(), &mut live, THERE, b"pong from 35")?;
    let shared = SharedSegment::share(live);
    let Ok((at_21, at_35)) = run(&rt, &shared, here, there) else {
        bail!("a thread could not be made");
    };
    show(&rt, "21", at_21)?;
    show(&rt, "35", at_35)
}
