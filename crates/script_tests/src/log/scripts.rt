//! The log of a script, decoded: its messages are those that the ports were given.
use crate::checks::{holds, same};
use bus_decode::{Decoded, Options, Wanted, run_decode};
use bus_script::{Ran, run_logged};
use std::alloc::Global;

/// A message to all, and one by a connection.
const SCRIPT: &str = "stations 21 35\n\
open 35 FECA 4000\n\
send 21 FF FECA 010203040506070809\n\
drive 21 FF 3\n\
send 21 35 FECA fill 20\n\
drive 21 35 6\n";

const REPLIES: &str = "done\n\
opened 35.1\n\
sent 1\n\
drove 3 turns\n\
\x20\x20outcome 21 FF 1 Broadcast\n\
\x20\x20given 35.1 21 FF 0FECA 9 010203040506070809\n\
sent 1\n\
drove 6 turns\n\
\x20\x20given 35.1 21 35 0FECA 20 0102030405060708090A0B0C0D0E0F1011121314\n\
\x20\x20outcome 21 35 1 Acknowledged\n";

const MESSAGES: &str = "\
(0000000000.100000) bus0 given 21 FF 0FECA 9 010203040506070809\n\
(0000000000.100000) bus0 given 21 35 0FECA 20 0102030405060708090A0B0C0D0E0F1011121314\n";

/// Runs the script, and again if memory was refused.
fn logged(alloc: Global, log: &mut Vec<u8>, replies: &mut Vec<u8>) -> Ran {
    let mut reader = SCRIPT.as_bytes();
    let first = run_logged(alloc, &mut reader, log, replies);
    if first.fault.is_none() && !first.memory_refused {
        return first;
    }
    log.clear();
    replies.clear();
    let mut reader = SCRIPT.as_bytes();
    run_logged(alloc, &mut reader, log, replies)
}

fn all(alloc: Global) -> Options {
    Options {
        pgns: Wanted::all(alloc),
        from: Wanted::all(alloc),
        to: Wanted::all(alloc),
        most: 1_785,
        singles: true,
        strict: false,
        json: false,
        frames: false,
        explain: false,
        summary: false,
        quiet: false,
    }
}

/// Decodes the log, and again if memory was refused.
fn decoded(alloc: Global, log: &[u8], messages: &mut Vec<u8>) -> Decoded {
    let mut reader = log;
    let first = run_decode(alloc, &all(alloc), &mut reader, messages);
    if first.fault.is_none() {
        return first;
    }
    messages.clear();
    let mut reader = log;
    run_decode(alloc, &all(alloc), &mut reader, messages)
}

#[test]
fn what_is_decoded_is_what_the_ports_were_given(rt: HostRuntime) {
    let alloc = rt.alloc();
    let mut log = Vec::new(alloc);
    let mut replies = Vec::new(alloc);
    let ran = logged(alloc, &mut log, &mut replies);
    holds(&rt, ran.fault.is_none());
    same(&rt, replies.as_slice(), REPLIES.as_bytes());
    let mut messages = Vec::new(alloc);
    let decoded = decoded(alloc, log.as_slice(), &mut messages);
    holds(&rt, decoded.fault.is_none());
    same(&rt, decoded.counts.frames, 9);
    same(&rt, messages.as_slice(), MESSAGES.as_bytes());
}
