//! A listener that is called frame by frame.
use crate::checks::{got, holds, same};
use bus_frame::{CanId, Frame};
use log_decode::Decoder;
use log_reports::{Cause, Told, Transport};
use log_text::Iface;
use std::alloc::Global;
use std::process::Abort;

fn frame(rt: &impl Abort, id: u32, bytes: [u8; 8]) -> Frame {
    Frame::full(got(rt, CanId::new(id)), bytes)
}

/// A frame is seen; what that promises is no business of a test's proof.
fn see(
    rt: &impl Abort,
    decoder: &mut Decoder,
    alloc: Global,
    time: u64,
    frame: &Frame,
    told: &mut Vec<Told>,
) {
    got(
        rt,
        decoder.take(alloc, time, got(rt, Iface::new(b"can0")), frame, told),
    );
}

fn sees(
    rt: &impl Abort,
    decoder: &mut Decoder,
    alloc: Global,
    time: u64,
    id: u32,
    bytes: [u8; 8],
    told: &mut Vec<Told>,
) {
    see(rt, decoder, alloc, time, &frame(rt, id, bytes), told)
}

fn message_to_all(rt: &impl Abort, alloc: Global, decoder: &mut Decoder, told: &mut Vec<Told>) {
    let bam = [0x20, 9, 0, 2, 0xFF, 0xCA, 0xFE, 0];
    sees(rt, decoder, alloc, 2_000, 0x1CEC_FF21, bam, told);
    let first = [1, 1, 2, 3, 4, 5, 6, 7];
    sees(rt, decoder, alloc, 3_000, 0x1CEB_FF21, first, told);
    holds(rt, told.is_empty());
    let last = [2, 8, 9, 0xFF, 0xFF, 0xFF, 0xFF, 0xFF];
    sees(rt, decoder, alloc, 4_000, 0x1CEB_FF21, last, told);
    same(rt, told.len(), 1);
    holds(rt, told.first().is_some_and(is_given));
}

// A connection is waited for 1,500 ms.
fn silence(rt: &impl Abort, alloc: Global, decoder: &mut Decoder, told: &mut Vec<Told>) {
    let other = got(rt, Frame::new(got(rt, CanId::new(0x18FE_F100)), &[]));
    see(rt, decoder, alloc, 1_500_999, &other, told);
    same(rt, told.len(), 1);
    see(rt, decoder, alloc, 1_501_000, &other, told);
    same(rt, told.len(), 2);
    holds(rt, told.last().is_some_and(is_timed_out));
    same(rt, decoder.time(), 1_501_000);
}

fn finishes(rt: &impl Abort, decoder: &Decoder, told: &mut Vec<Told>) {
    got(rt, decoder.finish(told));
    same(rt, told.len(), 2);
}

// The steps of a test are functions of their own, which own nothing. A step that can end a test drops what the test owns, and each such
// place takes its part of the proof.
fn message_and_silence(
    rt: &impl Abort,
    alloc: Global,
    decoder: &mut Decoder,
    told: &mut Vec<Told>,
) {
    let rts = [0x10, 9, 0, 2, 0xFF, 0xCA, 0xFE, 0];
    sees(rt, decoder, alloc, 1_000, 0x1CEC_3521, rts, told);
    message_to_all(rt, alloc, decoder, told);
    silence(rt, alloc, decoder, told)
}

#[test]
fn a_listener_is_told_of_a_message_and_of_silence(rt: HostRuntime) {
    let mut decoder = Decoder::new(rt.alloc(), 1_785);
    let mut told = Vec::new(rt.alloc());
    message_and_silence(&rt, rt.alloc(), &mut decoder, &mut told);
    finishes(&rt, &decoder, &mut told)
}

fn is_given(told: &Told) -> bool {
    match told {
        Told::Given { key, pgn, bytes } => {
            key.transport == Transport::Tp
                && pgn.raw() == 0xFECA
                && bytes.as_slice() == [1, 2, 3, 4, 5, 6, 7, 8, 9].as_slice()
        }
        _ => false,
    }
}

fn is_timed_out(told: &Told) -> bool {
    match told {
        Told::Lost {
            have,
            size,
            cause,
            ..
        } => { *have == 0 && *size == 9 && *cause == Cause::TimedOut }
        _ => false,
    }
}
