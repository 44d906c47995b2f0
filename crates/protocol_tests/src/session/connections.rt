//! Exchanges of TP of node 35 with node 21, frame by frame.
use crate::means::{self, FECA, Means, Packet, Shown};
use crate::session::exchanges::{Begun, ByValue, End, Step, does};
use responder::{Flow, Left};
use tp_wire::{AbortReason, Kind};

// What 35 sends to 21 and to 80 in TP.CM.
const CM_TO_21: u32 = 0x1CEC_2135;

const CM_TO_80: u32 = 0x1CEC_8035;

// The packets of a message whose bytes are their places, from 1.
const FIRST: Means = Means::Packet(means::FIRST);

const SECOND: Means = Means::Packet(Packet {
    kind: Kind::Tp,
    sequence: 2,
    bytes: [8, 9, 10, 11, 12, 13, 14],
});

const THIRD: Means = Means::Packet(Packet {
    kind: Kind::Tp,
    sequence: 3,
    bytes: [15, 16, 17, 18, 19, 20, 21],
});

const FOURTH: Means = Means::Packet(Packet {
    kind: Kind::Tp,
    sequence: 4,
    bytes: [22, 23, 24, 25, 26, 27, 28],
});

// The last of nine bytes.
const LAST: Means = Means::Packet(means::LAST);

// A packet that the window doesn't have.
const PAST: Means = Means::Packet(Packet {
    kind: Kind::Tp,
    sequence: 255,
    bytes: [0; 7],
});

// The aborts that 35 sends to 21: a timeout, no resources, and any other reason.
const TIMEOUT: Shown = (CM_TO_21, [0xFF, 3, 0xFF, 0xFF, 0xFF, 0xCA, 0xFE, 0]);

const NO_RESOURCES: Shown = (CM_TO_21, [0xFF, 2, 0xFF, 0xFF, 0xFF, 0xCA, 0xFE, 0]);

const OTHER: Shown = (CM_TO_21, [0xFF, 250, 0xFF, 0xFF, 0xFF, 0xCA, 0xFE, 0]);

const NINE_BYTES: Begun = Begun {
    kind: Kind::Tp,
    from: 0x21,
    pgn: FECA,
    size: 9,
    most: 255,
    flow: Flow::Open,
    asked: (CM_TO_21, [0x11, 2, 1, 0xFF, 0xFF, 0xCA, 0xFE, 0]),
};

const OF_NINE_BYTES: [Step; 4] = [
    Step::Take((FIRST, true, Flow::Open, 1), Left::Nothing, None),
    Step::Take((FIRST, false, Flow::Open, 2), Left::Nothing, None),
    Step::Complete(LAST, true),
    Step::Complete(FIRST, false),
];

const GIVEN: End = End::Given(
    (LAST, true, Flow::Held, 3),
    (CM_TO_21, [0x13, 9, 0, 2, 0xFF, 0xCA, 0xFE, 0]),
);

const REFUSED: End = End::Refused((LAST, true, Flow::Held, 3), NO_RESOURCES);

#[test]
fn nine_bytes_are_given_or_refused(rt: HostRuntime) {
    does(&rt, rt.alloc(), &NINE_BYTES, &[], &OF_NINE_BYTES, &GIVEN);
    does(&rt, rt.alloc(), &NINE_BYTES, &[], &OF_NINE_BYTES, &REFUSED);
}

// In windows of one packet.
const ONE_BY_ONE: Begun = Begun {
    kind: Kind::Tp,
    from: 0x80,
    pgn: 0xEF35,
    size: 9,
    most: 1,
    flow: Flow::Open,
    asked: (CM_TO_80, [0x11, 1, 1, 0xFF, 0xFF, 0x35, 0xEF, 0]),
};

const OF_ONE_BY_ONE: [ByValue; 1] = [ByValue::On(
    (FIRST, true, Flow::Open, 0),
    Some((CM_TO_80, [0x11, 1, 2, 0xFF, 0xFF, 0x35, 0xEF, 0])),
)];

const GIVEN_ONE_BY_ONE: End = End::GivenByValue(
    (LAST, true, Flow::Open, 0),
    (CM_TO_80, [0x13, 9, 0, 2, 0xFF, 0x35, 0xEF, 0]),
);

#[test]
fn a_window_is_what_the_rts_allows(rt: HostRuntime) {
    does(
        &rt,
        rt.alloc(),
        &ONE_BY_ONE,
        &OF_ONE_BY_ONE,
        &[],
        &GIVEN_ONE_BY_ONE,
    );
}

const HOLD: Shown = (CM_TO_21, [0x11, 0, 1, 0xFF, 0xFF, 0xCA, 0xFE, 0]);

const HELD: Begun = Begun {
    kind: Kind::Tp,
    from: 0x21,
    pgn: FECA,
    size: 200,
    most: 255,
    flow: Flow::Held,
    asked: HOLD,
};

const OF_HELD: [ByValue; 2] = [ByValue::Expire(Flow::Held, 500, HOLD), ByValue::Due(1000)];

#[test]
fn a_hold_is_repeated(rt: HostRuntime) {
    does(&rt, rt.alloc(), &HELD, &OF_HELD, &[], &End::Abort);
}

// Four packets, in windows of three.
const THREE_BY_THREE: Begun = Begun {
    kind: Kind::Tp,
    from: 0x21,
    pgn: FECA,
    size: 28,
    most: 3,
    flow: Flow::Open,
    asked: (CM_TO_21, [0x11, 3, 1, 0xFF, 0xFF, 0xCA, 0xFE, 0]),
};

const NEXT: Shown = (CM_TO_21, [0x11, 1, 4, 0xFF, 0xFF, 0xCA, 0xFE, 0]);

const HOLD_AT_4: Shown = (CM_TO_21, [0x11, 0, 4, 0xFF, 0xFF, 0xCA, 0xFE, 0]);

const WRONG: Left = Left::Abort(AbortReason::Other);

const WITHOUT_ROOM: Left = Left::Abort(AbortReason::Resources);

// A repeated packet and one that is skipped change nothing, nor does the last of the window without room.
const OF_THREE_BY_THREE: [Step; 9] = [
    Step::Take((FIRST, true, Flow::Open, 100), Left::Nothing, None),
    Step::Take((SECOND, false, Flow::Held, 200), Left::Nothing, None),
    Step::Take((SECOND, true, Flow::Open, 300), Left::Nothing, None),
    Step::Take((FOURTH, true, Flow::Open, 300), WRONG, None),
    Step::Take((THIRD, false, Flow::Open, 300), WITHOUT_ROOM, None),
    Step::Take((THIRD, false, Flow::Held, 300), WITHOUT_ROOM, None),
    Step::Due(950),
    Step::Take((THIRD, true, Flow::Open, 400), Left::Nothing, Some(NEXT)),
    Step::Due(1650),
];

const GIVEN_WHOLE: End = End::Given(
    (FOURTH, true, Flow::Open, 500),
    (CM_TO_21, [0x13, 28, 0, 4, 0xFF, 0xCA, 0xFE, 0]),
);

#[test]
fn a_window_is_followed_by_the_next(rt: HostRuntime) {
    does(
        &rt,
        rt.alloc(),
        &THREE_BY_THREE,
        &[],
        &OF_THREE_BY_THREE,
        &GIVEN_WHOLE,
    );
}

const HELD_AT_4: [Step; 8] = [
    Step::Take((FIRST, true, Flow::Open, 100), Left::Nothing, None),
    Step::Take((SECOND, false, Flow::Held, 200), Left::Nothing, None),
    Step::Due(950),
    Step::Take(
        (THIRD, true, Flow::Held, 400),
        Left::Nothing,
        Some(HOLD_AT_4),
    ),
    Step::Due(900),
    Step::Fire(Flow::Held, 900, Left::Nothing, Some(HOLD_AT_4)),
    Step::Fire(Flow::Open, 1400, Left::Nothing, Some(NEXT)),
    Step::Fire(Flow::Open, 2650, Left::Abort(AbortReason::Timeout), None),
];

const ENDED: End = End::Ended(AbortReason::Timeout, TIMEOUT);

#[test]
fn a_hold_ends_where_the_receiver_stands(rt: HostRuntime) {
    does(&rt, rt.alloc(), &THREE_BY_THREE, &[], &HELD_AT_4, &ENDED);
}

// Three packets, in windows of two.
const TWO_BY_TWO: Begun = Begun {
    kind: Kind::Tp,
    from: 0x21,
    pgn: FECA,
    size: 21,
    most: 2,
    flow: Flow::Open,
    asked: (CM_TO_21, [0x11, 2, 1, 0xFF, 0xFF, 0xCA, 0xFE, 0]),
};

const FIRST_OF_TWO: [ByValue; 1] = [ByValue::On((FIRST, true, Flow::Open, 100), None)];

// Without room at the end of a window, by a packet that is skipped, and by one that the message doesn't have.
const ABORTED: [End; 3] = [
    End::Aborted((SECOND, false, Flow::Open, 200), NO_RESOURCES),
    End::Aborted((THIRD, true, Flow::Open, 200), OTHER),
    End::Aborted((PAST, true, Flow::Open, 200), OTHER),
];

#[test]
fn a_session_ends_by_its_abort(rt: HostRuntime) {
    for end in &ABORTED {
        does(&rt, rt.alloc(), &TWO_BY_TWO, &FIRST_OF_TWO, &[], end);
    }
}

// T2 after the CTS at tick 200.
const AFTER_ITS_CTS: [ByValue; 3] = [
    ByValue::On((FIRST, true, Flow::Open, 100), None),
    ByValue::On(
        (SECOND, true, Flow::Open, 200),
        Some((CM_TO_21, [0x11, 1, 3, 0xFF, 0xFF, 0xCA, 0xFE, 0])),
    ),
    ByValue::Due(1450),
];

// T1 after the repeated packet's first coming at tick 100.
const AFTER_A_PACKET: [ByValue; 3] = [
    ByValue::On((FIRST, true, Flow::Open, 100), None),
    ByValue::On((FIRST, true, Flow::Open, 200), None),
    ByValue::Due(850),
];

#[test]
fn a_session_waits_for_packets(rt: HostRuntime) {
    let (alloc, begun) = (rt.alloc(), &TWO_BY_TWO);
    does(
        &rt,
        alloc,
        begun,
        &AFTER_ITS_CTS,
        &[],
        &End::TimedOut(1450, TIMEOUT),
    );
    does(
        &rt,
        alloc,
        begun,
        &AFTER_A_PACKET,
        &[],
        &End::TimedOut(850, TIMEOUT),
    );
}

const ENDS: [End; 5] = [
    End::Closed(NO_RESOURCES),
    End::Abort,
    End::Overrun,
    End::AbortInPlace,
    End::OverrunInPlace,
];

#[test]
fn a_session_is_closed_aborted_or_overrun(rt: HostRuntime) {
    for end in &ENDS {
        does(&rt, rt.alloc(), &NINE_BYTES, &[], &[], end);
        does(&rt, rt.alloc(), &HELD, &[], &[], end);
    }
}
