//! Exact frames of extended connections, and that calls succeed. Whole exchanges are cases: message_of_1786_bytes_is_given, and in
//! script_tests one of 100,000 bytes.
use crate::means::{Cm, FECA, Means, Packet, Shown};
use crate::session::exchanges::{Begun, ByValue, End, Step, does};
use responder::{Flow, Left};
use tp_wire::{AbortReason, Kind};

// What 35 sends to 21 in ETP.CM.
const CM_TO_21: u32 = 0x1CC8_2135;

// The aborts that 35 sends to 21: a timeout, no resources, and any other reason.
const TIMEOUT: Shown = (CM_TO_21, [0xFF, 3, 0xFF, 0xFF, 0xFF, 0xCA, 0xFE, 0]);

const NO_RESOURCES: Shown = (CM_TO_21, [0xFF, 2, 0xFF, 0xFF, 0xFF, 0xCA, 0xFE, 0]);

const OTHER: Shown = (CM_TO_21, [0xFF, 250, 0xFF, 0xFF, 0xFF, 0xCA, 0xFE, 0]);

// A message of 1,786 bytes whose first window is granted.
const BEGUN: Begun = Begun {
    kind: Kind::Etp,
    from: 0x21,
    pgn: FECA,
    size: 1786,
    most: 64,
    flow: Flow::Open,
    asked: (CM_TO_21, [0x15, 0x40, 1, 0, 0, 0xCA, 0xFE, 0]),
};

const FIRST: Means = Means::Packet(Packet {
    kind: Kind::Etp,
    sequence: 1,
    bytes: [0; 7],
});

const SECOND: Means = Means::Packet(Packet {
    kind: Kind::Etp,
    sequence: 2,
    bytes: [0; 7],
});

const THIRD: Means = Means::Packet(Packet {
    kind: Kind::Etp,
    sequence: 3,
    bytes: [0; 7],
});

const FOURTH: Means = Means::Packet(Packet {
    kind: Kind::Etp,
    sequence: 4,
    bytes: [0; 7],
});

const SIXTY_FOURTH: Means = Means::Packet(Packet {
    kind: Kind::Etp,
    sequence: 64,
    bytes: [0; 7],
});

const SIXTY_FIFTH: Means = Means::Packet(Packet {
    kind: Kind::Etp,
    sequence: 65,
    bytes: [0; 7],
});

// The offset of a whole window.
const OFFSET: Means = Means::Cm(Cm::EtpDpo(64, 0));

// A packet before its DPO, and a DPO of no packets, of a wrong offset and of more packets than were granted.
const ENDED_AT_ONCE: [End; 4] = [
    End::Aborted((FIRST, true, Flow::Open, 0), OTHER),
    End::Aborted((Means::Cm(Cm::EtpDpo(0, 0)), true, Flow::Open, 0), OTHER),
    End::Aborted((Means::Cm(Cm::EtpDpo(1, 1)), true, Flow::Open, 0), OTHER),
    End::Aborted((Means::Cm(Cm::EtpDpo(65, 0)), true, Flow::Open, 0), OTHER),
];

// A DPO of another message changes nothing.
const GOES_ON: [ByValue; 2] = [
    ByValue::On(
        (Means::CmOfOther(Cm::EtpDpo(64, 0)), true, Flow::Open, 0),
        None,
    ),
    ByValue::On((OFFSET, true, Flow::Open, 0), None),
];

#[test]
fn begins(rt: HostRuntime) {
    for end in &ENDED_AT_ONCE {
        does(&rt, rt.alloc(), &BEGUN, &[], &[], end);
    }
    does(&rt, rt.alloc(), &BEGUN, &GOES_ON, &[], &End::Overrun);
}

const WRONG: Left = Left::Abort(AbortReason::Other);

// Packets that no DPO has announced and a DPO past what was granted change nothing, nor do a repeated packet and one that is skipped.
const THREE: [Step; 10] = [
    Step::Take((FIRST, true, Flow::Open, 50), WRONG, None),
    Step::Take(
        (Means::Cm(Cm::EtpDpo(3, 1)), true, Flow::Open, 50),
        WRONG,
        None,
    ),
    Step::Take(
        (Means::Cm(Cm::EtpDpo(3, 0)), true, Flow::Open, 60),
        Left::Nothing,
        None,
    ),
    Step::Take((FIRST, true, Flow::Open, 100), Left::Nothing, None),
    Step::Take((SECOND, true, Flow::Open, 200), Left::Nothing, None),
    Step::Take((SECOND, true, Flow::Open, 300), Left::Nothing, None),
    Step::Take((FOURTH, true, Flow::Open, 300), WRONG, None),
    Step::Due(950),
    Step::Take(
        (THIRD, true, Flow::Open, 400),
        Left::Nothing,
        Some((CM_TO_21, [0x15, 0x40, 4, 0, 0, 0xCA, 0xFE, 0])),
    ),
    Step::Memory(67 * 7),
];

#[test]
fn packets_in_a_window_are_taken(rt: HostRuntime) {
    does(&rt, rt.alloc(), &BEGUN, &[], &THREE, &End::OverrunInPlace);
}

const NEXT: Shown = (CM_TO_21, [0x15, 0x40, 0x41, 0, 0, 0xCA, 0xFE, 0]);

const WINDOW_AND_REPEATED: [ByValue; 4] = [
    ByValue::On((OFFSET, true, Flow::Open, 0), None),
    ByValue::OnUpTo(63, Flow::Open),
    ByValue::On((SIXTY_FOURTH, true, Flow::Open, 0), Some(NEXT)),
    ByValue::On((SIXTY_FOURTH, true, Flow::Open, 0), None),
];

const TWO_WINDOWS: [Step; 1] = [Step::Memory(2 * 64 * 7)];

const OLD_OFFSET: End = End::Aborted((SIXTY_FIFTH, true, Flow::Open, 0), OTHER);

#[test]
fn old_offset(rt: HostRuntime) {
    does(
        &rt,
        rt.alloc(),
        &BEGUN,
        &WINDOW_AND_REPEATED,
        &TWO_WINDOWS,
        &OLD_OFFSET,
    );
}

const HOLD: Shown = (CM_TO_21, [0x15, 0, 0x41, 0, 0, 0xCA, 0xFE, 0]);

const WINDOW_AND_HOLD: [ByValue; 4] = [
    ByValue::On((OFFSET, true, Flow::Held, 0), None),
    ByValue::OnUpTo(63, Flow::Held),
    ByValue::On((SIXTY_FOURTH, true, Flow::Held, 0), Some(HOLD)),
    ByValue::Due(500),
];

const HELD: [Step; 4] = [
    Step::Fire(Flow::Held, 500, Left::Nothing, Some(HOLD)),
    Step::Memory(64 * 7),
    Step::Fire(Flow::Open, 1000, Left::Nothing, Some(NEXT)),
    Step::Memory(2 * 64 * 7),
];

// The hold is repeated, and ends once there is room.
#[test]
fn a_hold_ends_where_the_receiver_stands(rt: HostRuntime) {
    does(
        &rt,
        rt.alloc(),
        &BEGUN,
        &WINDOW_AND_HOLD,
        &HELD,
        &End::AbortInPlace,
    );
}

#[test]
fn a_closed_session_is_aborted(rt: HostRuntime) {
    does(
        &rt,
        rt.alloc(),
        &BEGUN,
        &[],
        &[],
        &End::Closed(NO_RESOURCES),
    );
}

const SILENT: [ByValue; 4] = [
    ByValue::Due(1250),
    ByValue::On((OFFSET, true, Flow::Open, 0), None),
    ByValue::On((FIRST, true, Flow::Open, 0), None),
    ByValue::Due(750),
];

#[test]
fn times_out(rt: HostRuntime) {
    does(
        &rt,
        rt.alloc(),
        &BEGUN,
        &SILENT,
        &[],
        &End::TimedOut(750, TIMEOUT),
    );
}
