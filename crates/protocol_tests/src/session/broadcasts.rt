//! Messages to all of node 21, which has nine bytes to send or is received. What is done with a receiver is a table, which one function plays:
//! a table needs no proof, and each call in a test does.
ghost use Rattle.std.specs.Prelude.{◌≡◌};
ghost use Rattle.bam_session.specs.declared.outgoing.BamPumped.TheVariants as BamPumped;

use crate::checks::{got, holds, same};
use crate::means::{FECA, FIRST, LAST, Packet, Shown, is_frame, pgn, wire_pgn};
use bam_session::*;
use bus_frame::Frame;
use pgn_ids::Address;
use seg_cut::Join;
use std::alloc::Global;
use std::process::Abort;
use tick_timers::T1;
use tp_wire::Kind;

const SOURCE: Address = Address(0x21);

const M9: [u8; 9] = [1, 2, 3, 4, 5, 6, 7, 8, 9];

const BAM: Shown = (0x1CEC_FF21, [0x20, 9, 0, 2, 0xFF, 0xCA, 0xFE, 0]);

const BAM_OF_1785: Shown = (0x1CEC_FF21, [0x20, 0xF9, 6, 0xFF, 0xFF, 0x35, 0xF0, 1]);

const FIRST_FRAME: Shown = (0x1CEB_FF21, [1, 1, 2, 3, 4, 5, 6, 7]);

const LAST_FRAME: Shown = (0x1CEB_FF21, [2, 8, 9, 0xFF, 0xFF, 0xFF, 0xFF, 0xFF]);

fn shows(rt: &impl Abort, frame: Frame, shown: Shown) {
    holds(rt, is_frame(&frame, &shown));
}

fn goes_on(rt: &impl Abort, pumped: BamPumped) -> (BamOut, Frame)
    ensures { pumped ≡ BamPumped.On result.0 result.1 }
{
    match pumped {
        BamPumped::On(out, frame) => (out, frame),
        _ => panic!(rt; "no packet, or the last one"),
    }
}

fn waits(rt: &impl Abort, pumped: BamPumped) -> BamOut
    ensures { pumped ≡ BamPumped.NotYet result }
{
    match pumped {
        BamPumped::NotYet(out) => out,
        _ => panic!(rt; "a packet"),
    }
}

fn ends(rt: &impl Abort, pumped: BamPumped) -> Frame {
    match pumped {
        BamPumped::Last(frame) => frame,
        _ => panic!(rt; "not the last packet"),
    }
}

// It is due after 50 ticks, of which so many are missing.
fn falls_due(rt: &impl Abort, out: &BamOut) {
    same(rt, (out.is_due(49), out.is_due(50)), (false, true));
    let missing = (out.missing(0), out.missing(49), out.missing(51));
    same(rt, missing, (50, 1, 0));
}

#[test]
fn nine_bytes_are_sent(rt: HostRuntime) {
    let (out, announcement) = BamOut::begin(SOURCE, pgn(&rt, FECA), 9, 0);
    shows(&rt, announcement, BAM);
    falls_due(&rt, &out);
    let out = waits(&rt, out.pump(&M9, 49));
    let (out, first) = goes_on(&rt, out.pump(&M9, 50));
    shows(&rt, first, FIRST_FRAME);
    let out = waits(&rt, out.pump(&M9, 99));
    shows(&rt, ends(&rt, out.pump(&M9, 100)), LAST_FRAME);
}

fn is_packet(taken: &Option<BamPacket>, packet: Shown, is_last: bool) -> bool {
    match taken {
        Some(taken) => is_frame(&taken.frame, &packet) && taken.is_last == is_last,
        None => false,
    }
}

// An image is that of the message until its next packet.
#[test]
fn packets_are_sent_where_the_state_stands(rt: HostRuntime) {
    let (mut out, _announcement) = BamOut::begin(SOURCE, pgn(&rt, FECA), 9, 0);
    let begun = out.image();
    let early = out.take_packet(&M9, 49);
    same(&rt, (early.is_some(), begun.is_of(&out)), (false, true));
    let first = out.take_packet(&M9, 50);
    holds(&rt, is_packet(&first, FIRST_FRAME, false));
    same(&rt, (begun.is_of(&out), out.missing(60)), (false, 40));
    holds(&rt, out.image().is_of(&out));
    let last = out.take_packet(&M9, 100);
    holds(&rt, is_packet(&last, LAST_FRAME, true));
    out.cancel();
}

#[test]
fn the_longest_is_announced(rt: HostRuntime) {
    let (out, announcement) = BamOut::begin(SOURCE, pgn(&rt, 0x1_F035), 1785, 0);
    out.cancel();
    shows(&rt, announcement, BAM_OF_1785);
}

/// What is done with a receiver of the nine bytes, which took the BAM at tick 0.
enum Step {
    /// A packet is taken by value at this tick, and more are awaited.
    On(Packet, u64),
    /// A packet is taken in place at this tick, which leaves this to do.
    Take(Packet, u64, BamLeft),
    /// It is due at this tick, and not at the one before.
    Due(u64),
    /// Whether a packet would complete the message.
    Complete(Packet, bool),
}

/// How it ends.
enum End {
    /// A packet is taken by value at this tick, and completes the nine bytes.
    CompleteByValue(Packet, u64),
    /// The same in place.
    Complete(Packet, u64),
    /// A packet is taken by value, which drops it.
    Drop(Packet),
    Expire,
    Close,
    Overrun,
}

fn receiver(rt: &impl Abort, alloc: Global) -> BamIn {
    let mut join = Join::new(alloc, 9);
    got(rt, join.make_room(2));
    BamIn::begin(SOURCE, wire_pgn(rt, FECA), join, 0)
}

fn awaits(rt: &impl Abort, stepped: BamStepped) -> BamIn {
    match stepped {
        BamStepped::On(state) => state,
        _ => panic!(rt; "complete or dropped"),
    }
}

// What a step leaves of the receiver, and whether it does, or shows, what it says.
fn next(rt: &impl Abort, mut state: BamIn, step: &Step) -> (BamIn, bool) {
    let so = match step {
        Step::On(packet, now) => return (awaits(rt, state.step(&packet.wire(), *now)), true),
        Step::Take(packet, now, left) => state.take(&packet.wire(), *now) == *left,
        Step::Due(now) => state.is_due(*now) && !state.is_due(now.saturating_sub(1)),
        Step::Complete(packet, completes) => state.completes(&packet.wire()) == *completes,
    };
    (state, so)
}

fn is_complete(rt: &impl Abort, stepped: BamStepped) -> bool {
    match stepped {
        BamStepped::Complete(bytes) => bytes.as_slice() == M9.as_slice(),
        _ => panic!(rt; "not complete"),
    }
}

fn is_dropped(rt: &impl Abort, stepped: BamStepped) -> bool {
    match stepped {
        BamStepped::Dropped => true,
        _ => panic!(rt; "not dropped"),
    }
}

fn completes(rt: &impl Abort, mut state: BamIn, packet: &Packet, now: u64) -> bool {
    match state.take(&packet.wire(), now) {
        BamLeft::Message => state.complete(&packet.bytes).as_slice() == M9.as_slice(),
        _ => panic!(rt; "not complete"),
    }
}

// Whether it ends so.
fn is_end(rt: &impl Abort, state: BamIn, end: &End) -> bool {
    match end {
        End::CompleteByValue(packet, now) => is_complete(rt, state.step(&packet.wire(), *now)),
        End::Complete(packet, now) => completes(rt, state, packet, *now),
        End::Drop(packet) => is_dropped(rt, state.step(&packet.wire(), 1)),
        End::Expire => {
            state.expire();
            true
        }
        End::Close => {
            state.close();
            true
        }
        End::Overrun => {
            state.overrun();
            true
        }
    }
}

// A receiver does all this, and ends so. A step that isn't so ends the test, and its place in the table is printed.
fn does(rt: &impl Abort, alloc: Global, steps: &[Step], end: &End) {
    let mut state = receiver(rt, alloc);
    holds(
        rt,
        state.from() == SOURCE && state.pgn().raw() == FECA && state.size() == 9,
    );
    for (place, step) in steps.iter().enumerate() {
        let (left, so) = next(rt, state, step);
        same(rt, (place, so), (place, true));
        state = left;
    }
    holds(rt, is_end(rt, state, end));
}

// A packet past the last one.
const PAST: Packet = Packet {
    kind: Kind::Tp,
    sequence: 3,
    bytes: [8, 9, 0xFF, 0xFF, 0xFF, 0xFF, 0xFF],
};

// A repeated packet is ignored, and T1 keeps running.
const RECEIVED: [Step; 7] = [
    Step::Due(T1),
    Step::Complete(FIRST, false),
    Step::Complete(LAST, false),
    Step::On(FIRST, 100),
    Step::On(FIRST, 700),
    Step::Due(850),
    Step::Complete(LAST, true),
];

#[test]
fn nine_bytes_are_received(rt: HostRuntime) {
    does(&rt, rt.alloc(), &RECEIVED, &End::CompleteByValue(LAST, 849));
}

// A repeated packet changes nothing, nor does one that is skipped, nor the last one.
const TAKEN: [Step; 5] = [
    Step::Take(FIRST, 100, BamLeft::Nothing),
    Step::Take(FIRST, 700, BamLeft::Nothing),
    Step::Take(PAST, 700, BamLeft::Dropped),
    Step::Take(LAST, 700, BamLeft::Message),
    Step::Due(850),
];

#[test]
fn nine_bytes_are_taken(rt: HostRuntime) {
    does(&rt, rt.alloc(), &TAKEN, &End::Complete(LAST, 800));
}

// By a packet that is skipped, by its timer, by the end of its ports, and by missed frames.
const ENDS: [End; 4] = [End::Drop(LAST), End::Expire, End::Close, End::Overrun];

#[test]
fn a_message_is_dropped(rt: HostRuntime) {
    for end in &ENDS {
        does(&rt, rt.alloc(), &[], end);
    }
}
