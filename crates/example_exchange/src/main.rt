//! Two stations on one bus, and a message each way by TP (SAE J1939-21): the replies to the calls, what was put on the bus, and
//! the events.
#![tactic(auto)]

use anyhow::Result;
use pgn_ids::{Address, Pgn};
use segment_core::{Bytes, Call, Driven, Event, Segment};
use std::alloc::Global;

const A: Address = Address(0x21);

const B: Address = Address(0x35);

/// Makes one call, and shows the reply.
fn call(rt: &impl Print, segment: &mut Segment, call: Call) -> Result<()> {
    let reply = segment.apply(call)?;
    println!(rt; "{reply:?}")?;
    Ok(())
}

/// Shows what a drive did.
fn show(rt: &impl Print, driven: Driven) -> Result<()> {
    for frame in driven.frames.as_slice() {
        print!(rt; "{:08X}", frame.id().raw())?;
        for byte in frame.bytes() {
            print!(rt; " {byte:02X}")?;
        }
        println!(rt;)?;
    }
    for events in driven.events.into_parts() {
        for event in events {
            tell(rt, &event)?;
        }
    }
    Ok(())
}

/// Shows an event: a message at a port, or the outcome of one that was sent.
fn tell(rt: &impl Print, event: &Event) -> Result<()> {
    match event {
        Event::Given { port, bytes, .. } => {
            let text = std::str::from_utf8(bytes.as_slice()).unwrap_or("");
            println!(rt; "given at {:02X}: {text}", port.station.0)?;
        }
        Event::Outcome { from, outcome, .. } => {
            println!(rt; "sent by {:02X}: {outcome:?}", from.0)?;
        }
    }
    Ok(())
}

/// Opens a port of each station, and sends a message each way.
fn run(rt: &impl Print, alloc: Global, segment: &mut Segment) -> Result<()> {
    let pgn = Pgn::new(0xFECA)?;
    for station in [A, B] {
        let open = Call::Open {
            station,
            pgn,
            max_len: 1785,
        };
        call(rt, segment, open)?;
    }
    for (from, to, text) in [(A, B, "ping from 21"), (B, A, "pong from 35")] {
        let send = Call::Send {
            from,
            to,
            pgn,
            bytes: Bytes::new(Vec::from_slice(alloc, text.as_bytes())?),
        };
        call(rt, segment, send)?;
        // In each turn a frame is put, and both stations take it. It ends once the lane has nothing to send.
        show(rt, segment.drive(from, to, 100))?;
    }
    // All is at rest, and nothing is waited for.
    println!(rt; "next timer: {:?}", segment.next_due_at())?;
    Ok(())
}

fn main(rt: HostRuntime) -> Result<()> {
    let alloc = rt.alloc();
    let mut segment = Segment::new(alloc, &[A, B])?;
    run(&rt, alloc, &mut segment)
}
