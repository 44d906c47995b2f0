//! Scripts run by threads.
use crate::checks::{got, same};
use crate::live::ended::*;
use bus_live::{Cause, Gate, LiveRan, run_live};
use std::alloc::Global;
use std::io::{BufRead, BufReader, Error, ErrorKind, Read, Write};
use std::process::Abort;
use std::sync::Wait;
use std::sync::atomic::{AtomicU64, Ordering};
use std::thread::Threads;
use std::{io, thread};

const LOOKS: u64 = 100_000_000;

// Holds each of four workers at its first turn until all are noted, or the looks are used up.
#[derive(Drop)]
struct Crossing {
    come: AtomicU64,
    missed: AtomicU64,
}

impl Gate for Crossing {
    fn pass(&self, _worker: u8, turn: u64) {
        if turn > 1 {
            return;
        }
        self.come.fetch_add(1, Ordering::SeqCst);
        for _ in 0..LOOKS {
            if self.come.load(Ordering::SeqCst) >= 4 {
                return;
            }
            thread::yield_now();
        }
        self.missed.fetch_add(1, Ordering::SeqCst);
    }
}

const SCRIPT: &str =
    "stations 21 22 35\nopen 35 FECA 1785\nsend 21 35 FECA 010203040506070809\nsend 22 35 FECA 1112131415161718191A\n";

const TEXT: &str =
    "port 35.1\n  given 35.1 21 35 0FECA 9 010203040506070809\n  given 35.1 22 35 0FECA 10 1112131415161718191A\noutcome 21 35 1 Acknowledged\noutcome 22 35 1 Acknowledged\n";

// A run, for tests that only look at its end and its output.
fn run_from<T: Threads + Wait + Sync, R: BufRead, W: Write, G: Gate + Sync>(
    rt: &T,
    alloc: Global,
    reader: &mut R,
    writer: &mut W,
    gate: &G,
    turns: u64,
) -> LiveRan {
    run_live(rt, alloc, reader, writer, gate, turns)
}

fn run_once<T: Threads + Wait + Sync, W: Write, G: Gate + Sync>(
    rt: &T,
    alloc: Global,
    script: &str,
    writer: &mut W,
    gate: &G,
    turns: u64,
) -> LiveRan {
    let mut reader = script.as_bytes();
    run_from(rt, alloc, &mut reader, writer, gate, turns)
}

// Runs a script, and again if memory was refused, the only reason for which a vector refuses a write.
fn run_past<T: Threads + Wait + Sync, G: Gate + Sync>(
    rt: &T,
    alloc: Global,
    script: &str,
    writer: &mut Vec<u8>,
    gate: &G,
    turns: u64,
) -> LiveRan {
    let ran = run_once(rt, alloc, script, writer, gate, turns);
    if !ended_by(ran, Cause::OutOfMemory) && !ended_by(ran, Cause::WriteFailed) {
        return ran;
    }
    writer.clear();
    run_once(rt, alloc, script, writer, gate, turns)
}

#[test]
fn two_messages_by_threads(rt: HostRuntime) {
    let alloc = rt.alloc();
    let gate = Crossing {
        come: AtomicU64::new(0),
        missed: AtomicU64::new(0),
    };
    let mut text = Vec::new(alloc);
    let ran = run_past(&rt, alloc, SCRIPT, &mut text, &gate, MANY_TURNS);
    wrote(&rt, ran, 0, text.as_slice(), TEXT);
    same(&rt, gate.missed.load(Ordering::SeqCst), 0);
}

// Runs a script, which ends with this status and writes this text.
fn writes<T: Threads + Wait + Abort + Sync>(
    rt: &T,
    alloc: Global,
    script: &str,
    turns: u64,
    status: u8,
    meant: &str,
) {
    let mut text = Vec::new(alloc);
    let ran = run_past(rt, alloc, script, &mut text, &OpenGate {}, turns);
    wrote(rt, ran, status, text.as_slice(), meant);
}

// Runs a script that ends at a fault: it writes this text before it, and its line is this.
fn fails<T: Threads + Wait + Abort + Sync>(
    rt: &T,
    alloc: Global,
    script: &str,
    meant: &str,
    line: &str,
) {
    let mut text = Vec::new(alloc);
    let ran = run_past(rt, alloc, script, &mut text, &OpenGate {}, 1);
    wrote(rt, ran, 1, text.as_slice(), meant);
    is_told(rt, alloc, ran, line);
}

#[test]
fn one_turn_is_too_few(rt: HostRuntime) {
    let meant = "port 35.1\nturns ran out\n";
    writes(&rt, rt.alloc(), SCRIPT, 1, 3, meant);
}

const MANY: &str =
    "stations 35 22 21\nopen 35 FECA 1785\nopen 22 FECA 9\nopen 35 FECA 8\nsend 22 35 FECA 313233343536373839\nsend 21 FF FECA 010203040506070809\nsend 21 35 FECA 1112131415161718191A\nsend 21 35 FECA 212223242526272829\n";

const MANY_TEXT: &str =
    "port 22.1\n  given 22.1 21 FF 0FECA 9 010203040506070809\nport 35.1\n  given 35.1 21 35 0FECA 10 1112131415161718191A\n  given 35.1 21 35 0FECA 9 212223242526272829\n  given 35.1 21 FF 0FECA 9 010203040506070809\n  given 35.1 22 35 0FECA 9 313233343536373839\nport 35.2\noutcome 21 35 1 Acknowledged\noutcome 21 35 2 Acknowledged\noutcome 21 FF 1 Broadcast\noutcome 22 35 1 Acknowledged\n";

#[test]
fn lines_rise_by_address(rt: HostRuntime) {
    writes(&rt, rt.alloc(), MANY, MANY_TURNS, 0, MANY_TEXT);
}

const ABSENT: &str =
    "stations 21\nsend 21 80 FECA 010203040506070809\nsend 21 80 FECA 010203040506070809\nsend 21 21 FECA 010203040506070809\n";

const ABSENT_TEXT: &str =
    "refused 17 SameStation\noutcome 21 80 1 TimedOut\noutcome 21 80 2 Unreachable\n";

#[test]
fn messages_to_an_absent_node_have_outcomes(rt: HostRuntime) {
    writes(&rt, rt.alloc(), ABSENT, MANY_TURNS, 0, ABSENT_TEXT);
}

#[test]
fn other_commands_are_unknown(rt: HostRuntime) {
    let script = "stations 21 35\nopen 50 FECA 9\ntick 1\n";
    let meant = "refused 14 NoSuchStation\n";
    fails(&rt, rt.alloc(), script, meant, "line 3: unknown command");
}

// Scripts that end at a fault, and its line.
const UNBOUNDED: [(&str, &str); 3] = [
    ("stations 1 2 3 4 5 6 7 8 9\n", "line 1: bad word"),
    ("stations 1\nstations 2\n", "line 2: stations twice"),
    ("send 21 35 FECA 01\n", "line 1: no stations"),
];

#[test]
fn scripts_are_bounded(rt: HostRuntime) {
    writes(&rt, rt.alloc(), "\n", 1, 0, "");
    for (script, line) in &UNBOUNDED {
        fails(&rt, rt.alloc(), script, "", line);
    }
}

// A script of so many messages.
fn script_of(rt: &impl Abort, alloc: Global, messages: u64) -> String {
    let mut script = got(rt, format!(in alloc; "stations 21 35\n"));
    for _ in 0..messages {
        got(rt, script.push_str("send 21 35 FECA 010203040506070809\n"));
    }
    script
}

#[test]
fn messages_are_at_most_64(rt: HostRuntime) {
    let script = script_of(&rt, rt.alloc(), 65);
    fails(&rt, rt.alloc(), script.as_str(), "", "line 66: bad word");
}

// Takes nothing.
#[derive(Drop)]
struct Full {}

impl Write for Full {
    fn write(&mut self, _buf: &[u8]) -> io::Result<usize> {
        Err(Error::from(ErrorKind::StorageFull))
    }

    fn flush(&mut self) -> io::Result<()> {
        Ok(())
    }
}

// Runs the script into it, and again if memory was refused.
fn run_full<T: Threads + Wait + Sync>(rt: &T, alloc: Global) -> LiveRan {
    let ran = run_once(rt, alloc, SCRIPT, &mut Full {}, &OpenGate {}, 1);
    if !ended_by(ran, Cause::OutOfMemory) {
        return ran;
    }
    run_once(rt, alloc, SCRIPT, &mut Full {}, &OpenGate {}, 1)
}

#[test]
fn failed_write_is_told(rt: HostRuntime) {
    let ran = run_full(&rt, rt.alloc());
    same(&rt, ran.status(), 1);
    is_told(&rt, rt.alloc(), ran, "write failed");
}

// Gives nothing.
#[derive(Drop)]
struct Broken {}

impl Read for Broken {
    fn read(&mut self, _buf: &mut [u8]) -> io::Result<usize> {
        Err(Error::from(ErrorKind::BrokenPipe))
    }
}

#[test]
fn failed_read_is_told(rt: HostRuntime) {
    let alloc = rt.alloc();
    let mut text = Vec::new(alloc);
    let mut reader = got(&rt, BufReader::new(alloc, Broken {}));
    let ran = run_from(&rt, alloc, &mut reader, &mut text, &OpenGate {}, 1);
    wrote(&rt, ran, 1, text.as_slice(), "");
    is_told(&rt, alloc, ran, "line 1: read failed");
}
