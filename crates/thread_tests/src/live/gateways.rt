//! Scripts of two segments with a relay between them.
use crate::checks::same;
use crate::live::ended::*;
use bus_relay::{Cause, Gate, RelayFault, RelayRan, run_relay};
use std::alloc::Global;
use std::process::Abort;
use std::sync::Wait;
use std::sync::atomic::{AtomicU64, Ordering};
use std::thread;
use std::thread::Threads;

const LOOKS: u64 = 500_000;

/// The two workers of the relay, behind three of each segment.
const FIRST: u8 = 6;

// Holds both workers of the relay at their first turns until both are noted, or the looks are used up.
#[derive(Drop)]
struct Crossing {
    come: AtomicU64,
    missed: AtomicU64,
}

impl Gate for Crossing {
    fn pass(&self, worker: u8, turn: u64) {
        if turn > 1 || worker < FIRST {
            return;
        }
        self.come.fetch_add(1, Ordering::SeqCst);
        for _ in 0..LOOKS {
            if self.come.load(Ordering::SeqCst) >= 2 {
                return;
            }
            thread::yield_now();
        }
        self.missed.fetch_add(1, Ordering::SeqCst);
    }
}

const SCRIPT: &str =
    "stations 21 35\nopen 35 FECA 1785\nsend 21 35 FECA 010203040506070809\nstations 40 50\nopen 50 FECA 1785\nroute 35.1 40 50\n";

const TEXT: &str =
    "port 50.1\n  given 50.1 40 50 0FECA 9 010203040506070809\nrelayed 1 1 0\noutcome 21 35 1 Acknowledged\noutcome 40 50 1 Acknowledged\n";

fn run_once<T: Threads + Wait + Sync, G: Gate + Sync>(
    rt: &T,
    alloc: Global,
    script: &str,
    writer: &mut Vec<u8>,
    gate: &G,
    turns: u64,
) -> RelayRan {
    let mut reader = script.as_bytes();
    run_relay(rt, alloc, &mut reader, writer, gate, turns)
}

// Whether a run may have ended for want of memory, the only reason for which a vector refuses a write. A relay that finds none stops,
// and then some messages are missing, as when the turns run out; but many turns don't run out.
fn may_lack_memory(ran: RelayRan, turns: u64) -> bool {
    match ran.fault {
        Some(RelayFault::Script(fault)) => {
            fault.cause == Cause::OutOfMemory || fault.cause == Cause::WriteFailed
        }
        _ => ran.ran_out && turns > 1,
    }
}

// Runs a script, and again if memory was refused.
fn run_past<T: Threads + Wait + Sync>(
    rt: &T,
    alloc: Global,
    script: &str,
    writer: &mut Vec<u8>,
    turns: u64,
) -> RelayRan {
    let ran = run_once(rt, alloc, script, writer, &OpenGate {}, turns);
    if !may_lack_memory(ran, turns) {
        return ran;
    }
    writer.clear();
    run_once(rt, alloc, script, writer, &OpenGate {}, turns)
}

// Runs a script, which ends with this status and writes this text.
fn writes<T: Threads + Wait + Abort + Sync>(
    rt: &T,
    alloc: Global,
    script: &str,
    turns: u64,
    status: u8,
    meant: &str,
) {
    let mut text = Vec::new(alloc);
    let ran = run_past(rt, alloc, script, &mut text, turns);
    wrote(rt, ran, status, text.as_slice(), meant);
}

// Runs a script that ends at a fault, and this is its line.
fn fails_by<T: Threads + Wait + Abort + Sync>(rt: &T, alloc: Global, script: &str, meant: &str) {
    let mut text = Vec::new(alloc);
    let ran = run_past(rt, alloc, script, &mut text, 1);
    is_told(rt, alloc, ran, meant);
}

// Runs the script with both workers held at their first turns, and counts those that were alone there.
fn crossed<T: Threads + Wait + Sync>(rt: &T, alloc: Global, text: &mut Vec<u8>) -> (RelayRan, u64) {
    let gate = Crossing {
        come: AtomicU64::new(0),
        missed: AtomicU64::new(0),
    };
    let ran = run_once(rt, alloc, SCRIPT, text, &gate, MANY_TURNS);
    (ran, gate.missed.load(Ordering::SeqCst))
}

// `crossed`, and again if memory was refused. If there is none for a thread, one thread makes the two sides, and is alone at each.
fn crossed_past<T: Threads + Wait + Sync>(
    rt: &T,
    alloc: Global,
    text: &mut Vec<u8>,
) -> (RelayRan, u64) {
    let first = crossed(rt, alloc, text);
    if first.1 == 0 && !may_lack_memory(first.0, MANY_TURNS) {
        return first;
    }
    text.clear();
    crossed(rt, alloc, text)
}

#[test]
fn a_message_is_relayed_by_two_threads(rt: HostRuntime) {
    let mut text = Vec::new(rt.alloc());
    let (ran, missed) = crossed_past(&rt, rt.alloc(), &mut text);
    wrote(&rt, ran, 0, text.as_slice(), TEXT);
    same(&rt, missed, 0);
}

const MANY: &str =
    "stations 21 35 22\nopen 35 FECA 1785\nopen 35 FEE3 1785\nopen 22 FECA 1785\nsend 21 35 FECA 010203040506070809\nsend 21 FF FECA 1112131415161718191A\nsend 21 35 FEE3 313233343536373839\nsend 21 22 FECA 414243444546474849\nstations 50 21\nopen 50 FECA 1785\nroute 35.1 21 50\n";

const MANY_TEXT: &str =
    "port 50.1\n  given 50.1 21 50 0FECA 9 010203040506070809\n  given 50.1 21 50 0FECA 10 1112131415161718191A\nrelayed 2 2 0\noutcome 21 22 1 Acknowledged\noutcome 21 35 1 Acknowledged\noutcome 21 35 2 Acknowledged\noutcome 21 FF 1 Broadcast\noutcome 21 50 1 Acknowledged\noutcome 21 50 2 Acknowledged\n";

#[test]
fn the_limit_is_what_the_port_is_sent(rt: HostRuntime) {
    writes(&rt, rt.alloc(), MANY, MANY_TURNS, 0, MANY_TEXT);
}

// Scripts whose route is refused or that have none, and what they write.
const WITHOUT_ROUTES: [(&str, &str); 5] = [
    (
        "stations 21\nstations 40\nroute 21.1 21 FF\n",
        "refused 12 NoSuchPort\nrelayed 0 0 0\n",
    ),
    (
        "stations 21\nopen 21 FECA 9\nstations 40\nroute 21.1 21 21\n",
        "refused 14 NoSuchStation\nrelayed 0 0 0\n",
    ),
    (
        "stations 21\nopen 21 FECA 9\nstations 40\nroute 21.1 40 FE\n",
        "refused 14 NoSuchStation\nrelayed 0 0 0\n",
    ),
    (
        "stations 21\nopen 21 FECA 9\nstations 40\nroute 21.1 40 40\n",
        "refused 17 SameStation\nrelayed 0 0 0\n",
    ),
    ("stations 21\nstations 40\n", "relayed 0 0 0\n"),
];

#[test]
fn refused_routes_relay_nothing(rt: HostRuntime) {
    for (script, meant) in &WITHOUT_ROUTES {
        writes(&rt, rt.alloc(), script, MANY_TURNS, 0, meant);
    }
}

// Scripts that end at a fault, and its line.
const OUT_OF_ORDER: [(&str, &str); 7] = [
    ("", "line 1: no stations"),
    ("stations 21\n", "line 2: no stations"),
    ("stations 21\nroute 21.1 40 50\n", "line 2: unknown command"),
    (
        "stations 21\nstations 40\nsend 40 FF FECA 010203040506070809\n",
        "line 3: unknown command",
    ),
    (
        "stations 21\nstations 40\nstations 50\n",
        "line 3: stations twice",
    ),
    (
        "stations 21\nstations 40\nroute 21.1 40\n",
        "line 3: wrong number of words",
    ),
    (
        "stations 21\nstations 40\nroute 21.1 40 50\nopen 40 FECA 9\n",
        "line 4: unknown command",
    ),
];

#[test]
fn lines_stand_in_their_order(rt: HostRuntime) {
    for (script, meant) in &OUT_OF_ORDER {
        fails_by(&rt, rt.alloc(), script, meant);
    }
}

#[test]
fn one_turn_relays_nothing(rt: HostRuntime) {
    let meant = "port 50.1\nrelayed 0 0 0\nturns ran out\n";
    writes(&rt, rt.alloc(), SCRIPT, 1, 3, meant);
}
