//! Each line with its exact text. A test ends if memory is refused.
use super::calls::*;
use super::played::{Step, play};
use crate::checks::{got, same};
use bus_frame::Frame;
use message_events::Bytes;
use pgn_ids::Address;
use script_text::*;
use segment_core::{Event, Events, Refusal, Reply, Segment};
use std::alloc::{AllocError, Global};
use std::process::Abort;
use tp_wire::Outcome;

const REPLIES: &str =
    "no memory\nrefused 13 BadAddresses\nopened 35.1\nsent 18446744073709551615\nrefused 20 NothingDue\ndone\n";

fn prints_reply(rt: &impl Abort, out: &mut Vec<u8>, reply: &Reply) {
    got(rt, print_reply(out, reply));
}

#[test]
fn replies_have_their_lines(rt: HostRuntime) {
    let mut out = Vec::new(rt.alloc());
    got(&rt, print_text(&mut out, "no memory"));
    got(&rt, print_refused(&mut out, Refusal::BadAddresses));
    prints_reply(&rt, &mut out, &Reply::Opened(PORT));
    prints_reply(&rt, &mut out, &Reply::Sent(18_446_744_073_709_551_615));
    prints_reply(&rt, &mut out, &Reply::Refused(Refusal::NothingDue));
    prints_reply(&rt, &mut out, &Reply::Done(Events::none(rt.alloc())));
    same(&rt, out.as_slice(), REPLIES.as_bytes());
}

const EVENTS: &str = "\x20\x20put 18EA35F9 00 EE 0A\n\
    \x20 put 0CF00400\n\
    \x20 given 35.1 21 FF 0FECA 3 012AFF\n\
    \x20 outcome 21 35 1 Acknowledged\n\
    \x20 outcome 21 35 2 Broadcast\n\
    \x20 outcome 21 35 3 Aborted 250\n\
    \x20 outcome 21 35 4 TimedOut\n\
    \x20 outcome 21 35 5 Overrun\n\
    \x20 outcome 21 35 6 Cancelled\n\
    \x20 outcome 21 35 7 Unreachable\n";

fn prints_put(rt: &impl Abort, out: &mut Vec<u8>, frame: &Frame) {
    got(rt, print_put(out, frame));
}

// Messages 1 to 7 from 21 to 35, each with its outcome.
fn seven_ended(alloc: Global) -> Result<Vec<Event>, AllocError> {
    let mut ended = Vec::new(alloc);
    for (number, outcome) in [
        (1, Outcome::Acknowledged),
        (2, Outcome::Broadcast),
        (3, Outcome::Aborted(250)),
        (4, Outcome::TimedOut),
        (5, Outcome::Overrun),
        (6, Outcome::Cancelled),
        (7, Outcome::Unreachable),
    ] {
        ended.push(Event::Outcome {
            from: A,
            to: B,
            number,
            outcome,
        })?;
    }
    Ok(ended)
}

fn given(rt: &impl Abort, alloc: Global) -> Event {
    Event::Given {
        port: PORT,
        from: A,
        to: Address::GLOBAL,
        pgn: pgn(rt),
        bytes: Bytes::new(got(rt, Vec::from_slice(alloc, &[0x01, 0x2A, 0xFF]))),
    }
}

#[test]
fn frames_and_events_have_their_lines(rt: HostRuntime) {
    let mut out = Vec::new(rt.alloc());
    prints_put(&rt, &mut out, &frame(&rt, 0x18EA_35F9, &[0x00, 0xEE, 0x0A]));
    prints_put(&rt, &mut out, &frame(&rt, 0x0CF0_0400, &[]));
    let ended = got(&rt, seven_ended(rt.alloc()));
    let events = Events::all(given(&rt, rt.alloc()), ended);
    got(&rt, print_events(&mut out, &events));
    same(&rt, out.as_slice(), EVENTS.as_bytes());
}

const DRIVES: &str = "drove 4 turns\n\
    \x20 put 1CEC3521 10 09 00 02 FF CA FE 00\n\
    \x20 put 1CEC2135 11 02 01 FF FF CA FE 00\n\
    \x20 put 1CEB3521 01 01 02 03 04 05 06 07\n\
    \x20 put 1CEB3521 02 08 09 FF FF FF FF FF\n\
    \x20 given 35.1 21 35 0FECA 9 010203040506070809\n\
    drove 1 idle\n\
    \x20 put 1CEC2135 13 09 00 02 FF CA FE 00\n\
    \x20 outcome 21 35 1 Acknowledged\n\
    drove 0 refused 14 NoSuchStation\n\
    frames 5 malformed 0 repeated 0 given 1 Acknowledged 1 Broadcast 0 Aborted 0 TimedOut 0 Overrun 0 Cancelled 0 \
    Unreachable 0\n";

fn prints_drive(
    rt: &impl Abort,
    out: &mut Vec<u8>,
    segment: &mut Segment,
    from: Address,
    turns: u64,
) {
    let driven = driven(rt, segment, from, B, turns);
    got(rt, print_drove(out, driven.turns, driven.end));
    got(rt, print_frames(out, driven.frames.as_slice()));
    for part in driven.events.parts() {
        got(rt, print_events(out, part));
    }
}

fn prints_drives(rt: &impl Abort, out: &mut Vec<u8>, segment: &mut Segment) {
    prints_drive(rt, out, segment, A, 4);
    prints_drive(rt, out, segment, A, 9);
    prints_drive(rt, out, segment, Address(0x99), 1);
    got(rt, print_counts(out, segment.counts()));
}

const SENT: [Step; 2] = [Step::Open(4000), Step::Send(B, 9, 1)];

#[test]
fn drives_and_counts_have_their_lines(rt: HostRuntime) {
    let mut out = Vec::new(rt.alloc());
    let mut segment = segment(&rt, rt.alloc());
    play(&rt, rt.alloc(), &mut segment, &SENT);
    prints_drives(&rt, &mut out, &mut segment);
    same(&rt, out.as_slice(), DRIVES.as_bytes());
}
