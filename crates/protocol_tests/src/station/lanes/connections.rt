//! Connections: packets that are sent again, aborts and missed frames.
use super::{CM_TO_35, CM_TO_80, DT_TO_80, Left, REQUEST_TO_35, REQUEST_TO_80, RTS, Step, does};
use crate::means::{Cm, Means};
use pgn_ids::Address;
use tp_wire::Outcome;

const SENT_AGAIN: [Step; 11] = [
    Step::Push(1),
    Step::Push(2),
    Step::Pump(0, Left::Queued(CM_TO_80, RTS)),
    Step::Hear(Means::Cm(Cm::Cts(2, 1)), 0, Left::Nothing),
    Step::Pump(0, Left::Packets(DT_TO_80)),
    Step::Hear(Means::Cm(Cm::Cts(2, 1)), 0, Left::Nothing),
    Step::Pump(0, Left::Packets(DT_TO_80)),
    Step::Hear(Means::Cm(Cm::Cts(2, 1)), 0, Left::Nothing),
    Step::Pump(0, Left::Packets(DT_TO_80)),
    Step::Hear(
        Means::Cm(Cm::Cts(2, 1)),
        0,
        Left::Aborted(CM_TO_80, 5, 1, Outcome::Aborted(5)),
    ),
    Step::Pump(0, Left::Request(REQUEST_TO_80, 0xEC)),
];

#[test]
fn packets_are_sent_again_twice(rt: HostRuntime) {
    does(&rt, rt.alloc(), Address(0x80), &SENT_AGAIN);
}

const SKIPPED: [Step; 3] = [
    Step::Push(1),
    Step::Pump(0, Left::Queued(CM_TO_80, RTS)),
    Step::Hear(
        Means::Cm(Cm::Cts(1, 2)),
        0,
        Left::Aborted(CM_TO_80, 250, 1, Outcome::Aborted(250)),
    ),
];

#[test]
fn a_packet_cannot_be_skipped(rt: HostRuntime) {
    does(&rt, rt.alloc(), Address(0x80), &SKIPPED);
}

// An abort of another message, or of another protocol, doesn't concern this one.
const ABORTED: [Step; 5] = [
    Step::Push(1),
    Step::Pump(0, Left::Queued(CM_TO_35, RTS)),
    Step::Hear(Means::CmOfOther(Cm::Abort(2)), 0, Left::Nothing),
    Step::Hear(Means::Cm(Cm::EtpAbort(2)), 0, Left::Nothing),
    Step::Hear(
        Means::Cm(Cm::Abort(2)),
        0,
        Left::Ended(1, Outcome::Aborted(2)),
    ),
];

#[test]
fn an_abort_is_that_of_its_message(rt: HostRuntime) {
    does(&rt, rt.alloc(), Address(0x35), &ABORTED);
}

const MISSED: [Step; 7] = [
    Step::PushLong(1),
    Step::Push(2),
    Step::Pump(
        0,
        Left::Queued(0x1CC8_3521, [0x14, 0xFA, 6, 0, 0, 0xCA, 0xFE, 0]),
    ),
    Step::Hear(Means::Cm(Cm::EtpCts(64, 1)), 0, Left::Nothing),
    Step::Pump(
        0,
        Left::Window(0x1CC8_3521, [0x16, 0x40, 0, 0, 0, 0xCA, 0xFE, 0]),
    ),
    Step::Overrun(Left::Ended(1, Outcome::Overrun)),
    Step::Pump(0, Left::Request(REQUEST_TO_35, 0xEC)),
];

#[test]
fn an_overrun_leaves_doubt(rt: HostRuntime) {
    does(&rt, rt.alloc(), Address(0x35), &MISSED);
}
