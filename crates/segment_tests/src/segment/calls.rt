//! Calls on a segment of stations 21 and 35, whose result alone a test looks at: their contracts are not carried
//! through it.
use crate::checks::got;
pub(super) use crate::stations::{A, B, PORT, pgn};
use bus_frame::{CanId, Frame};
use pgn_ids::Address;
use segment_core::*;
use std::alloc::{AllocError, Global};
use std::process::Abort;

/// A frame by its identifier and its bytes.
pub(super) type Shown = (u32, [u8; 8]);

/// A call without bytes, as tables have it.
pub(super) enum PlainCall {
    /// 21 queues the next frames to this destination.
    Pump(Address),
    Transmit(Address),
    Take(Address),
    /// A station takes again what it took last.
    Again(Address),
    /// 35 misses the next frame.
    Miss,
    Tick(u64),
    Fire(Address),
    Inject(Shown),
    /// Port 35.1 is closed.
    Close,
    /// Port 35.1 is resumed.
    Resume,
}

pub(super) fn call_of(rt: &impl Abort, call: &PlainCall) -> Call {
    match call {
        PlainCall::Pump(to) => Call::Pump {
            station: A,
            to: *to,
        },
        PlainCall::Transmit(station) => Call::Transmit { station: *station },
        PlainCall::Take(station) => Call::Take {
            station: *station,
            room: true,
        },
        PlainCall::Again(station) => Call::TakeAgain {
            station: *station,
            room: true,
        },
        PlainCall::Miss => Call::Overrun { station: B, n: 1 },
        PlainCall::Tick(n) => Call::Tick { n: *n },
        PlainCall::Fire(station) => Call::Fire { station: *station },
        PlainCall::Inject(shown) => Call::Inject {
            frame: frame(rt, shown.0, &shown.1),
        },
        PlainCall::Close => Call::Close { port: PORT },
        PlainCall::Resume => Call::Resume { port: PORT },
    }
}

pub(super) fn frame(rt: &impl Abort, id: u32, bytes: &[u8]) -> Frame {
    got(rt, Frame::new(got(rt, CanId::new(id)), bytes))
}

pub(super) fn tried(segment: &mut Segment, call: Call) -> Result<Reply, AllocError> {
    segment.apply(call)
}

/// `tried`, for a test that ends if a call finds no memory.
pub(super) fn apply(rt: &impl Abort, segment: &mut Segment, call: Call) -> Reply {
    got(rt, tried(segment, call))
}

pub(super) fn drive(segment: &mut Segment, from: Address, to: Address, turns: u64) -> Driven {
    segment.drive(from, to, turns)
}

/// `drive`, for a test that ends if a drive finds no memory: such a drive is an error, not a shorter one.
pub(super) fn driven(
    rt: &impl Abort,
    segment: &mut Segment,
    from: Address,
    to: Address,
    turns: u64,
) -> Driven {
    let driven = drive(segment, from, to, turns);
    if driven.end == DriveEnd::OutOfMemory {
        panic!(rt; "error: out of memory");
    }
    driven
}

pub(super) fn run(segment: &mut Segment, calls: Vec<Call>) -> Ran {
    segment.run(calls)
}

pub(super) fn queue_len(segment: &Segment, station: Address) -> usize {
    segment.queue_len(station)
}

/// A segment of the two stations. It is asked for again if memory is refused, and so are the bytes below, for tests that
/// continue then.
pub(super) fn segment(rt: &impl Abort, alloc: Global) -> Segment {
    match Segment::new(alloc, &[B, A]) {
        Ok(segment) => segment,
        Err(_) => got(rt, Segment::new(alloc, &[B, A])),
    }
}

// Bytes 1, 2, 3 and so on, each modulo 256.
fn filled(rt: &impl Abort, alloc: Global, len: u32) -> Vec<u8> {
    match places(alloc, len) {
        Ok(bytes) => bytes,
        Err(_) => got(rt, places(alloc, len)),
    }
}

fn places(alloc: Global, len: u32) -> Result<Vec<u8>, AllocError> {
    let mut bytes = Vec::with_capacity(alloc, len as usize)?;
    let mut byte = 0u8;
    for _ in 0..len {
        byte = byte.wrapping_add(1);
        bytes.push(byte)?;
    }
    Ok(bytes)
}

/// A port of 35 on FECA, for messages of at most so many bytes.
pub(super) fn opening(rt: &impl Abort, max_len: u32) -> Call {
    Call::Open {
        station: B,
        pgn: pgn(rt),
        max_len,
    }
}

/// A message of so many bytes from 21, as `filled` makes them.
pub(super) fn sending(rt: &impl Abort, alloc: Global, to: Address, len: u32) -> Call {
    Call::Send {
        from: A,
        to,
        pgn: pgn(rt),
        bytes: Bytes::new(filled(rt, alloc, len)),
    }
}
