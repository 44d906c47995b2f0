//! The sending side of a connection, step by step: node 21 sends nine bytes. The steps of a test are a table, which one function plays: a table
//! needs no proof, and each call in a test does. Exchanges of 1,785 and 1,786 bytes are cases, message_of_1785_bytes_is_given and
//! message_of_1786_bytes_is_given.
use crate::checks::{got, holds, same};
use crate::means::{Cm, FECA, Means, Shown, is_frame, is_shown, pgn, wire};
use bus_frame::Frame;
use originator::{AwaitCts, Ending, OutOver, OutState, Stepped, begin};
use pgn_ids::Address;
use std::alloc::Global;
use std::process::Abort;
use tp_wire::constants::ETP_MAX_SIZE;
use tp_wire::{AbortReason, Kind, Outcome};
use tx_queue::TxQueue;

const OWN: Address = Address(0x21);

const PEER: Address = Address(0x35);

const NINE: [u8; 9] = [1, 2, 3, 4, 5, 6, 7, 8, 9];

/// A destination, the request to send to it, and both packets.
type To = (Address, Shown, [Shown; 2]);

const TO_35: To = (
    PEER,
    (0x1CEC_3521, [0x10, 9, 0, 2, 0xFF, 0xCA, 0xFE, 0]),
    [
        (0x1CEB_3521, [1, 1, 2, 3, 4, 5, 6, 7]),
        (0x1CEB_3521, [2, 8, 9, 0xFF, 0xFF, 0xFF, 0xFF, 0xFF]),
    ],
);

const TO_80: To = (
    Address(0x80),
    (0x1CEC_8021, [0x10, 9, 0, 2, 0xFF, 0xCA, 0xFE, 0]),
    [
        (0x1CEB_8021, [1, 1, 2, 3, 4, 5, 6, 7]),
        (0x1CEB_8021, [2, 8, 9, 0xFF, 0xFF, 0xFF, 0xFF, 0xFF]),
    ],
);

/// What is done with the message, which continues, or is seen of it.
enum Step {
    /// A frame is taken by value, at tick 0.
    On(Means),
    /// A frame is taken in place at this tick, and ends the message so if at all.
    Take(Means, u64, Option<Ending>),
    /// Both packets are queued at this tick, or nothing is.
    Pump(u64, bool),
    /// It is due at this tick, and not at the one before.
    Due(u64),
    /// It is never due.
    Idle,
}

/// How the message ends.
enum End {
    /// A frame is taken by value.
    Step(Means),
    Expire,
    /// It is due at this tick, and not at the one before, and expires: the state of its stage says so.
    ExpireStage(u64),
    Cancel,
    Abort(u8),
    Overrun,
    End(Ending),
}

/// An end, and the outcome and the frame of it.
type Over = (End, Outcome, Option<Shown>);

/// The message that continues after this frame.
fn goes_on(rt: &impl Abort, state: OutState, means: &Means) -> OutState {
    match state.step(&wire(rt, means), 0) {
        Stepped::On(state) => state,
        Stepped::Over(_) => panic!(rt; "the message ended"),
    }
}

/// How it ended with this frame.
fn ends(rt: &impl Abort, state: OutState, means: &Means) -> OutOver {
    match state.step(&wire(rt, means), 0) {
        Stepped::On(state) => {
            let _ = state.overrun();
            panic!(rt; "the message goes on")
        }
        Stepped::Over(over) => over,
    }
}

fn pumps(
    rt: &impl Abort,
    state: &mut OutState,
    queue: &mut TxQueue,
    packets: &[Shown; 2],
    now: u64,
    are_queued: bool,
) -> bool {
    holds(rt, state.len() == 9 && queue.free() >= 8);
    state.pump(&NINE, now, queue);
    if !are_queued {
        return queue.is_empty();
    }
    is_shown(&queue.pop(), &Some(packets[0]))
        && is_shown(&queue.pop(), &Some(packets[1]))
        && queue.is_empty()
}

// What a step leaves of the message, and whether it does, or shows, what it says.
fn next(
    rt: &impl Abort,
    mut state: OutState,
    queue: &mut TxQueue,
    packets: &[Shown; 2],
    step: &Step,
) -> (OutState, bool) {
    let so = match step {
        Step::On(means) => return (goes_on(rt, state, means), true),
        Step::Take(means, now, ending) => state.take(&wire(rt, means), *now) == *ending,
        Step::Pump(now, are_queued) => pumps(rt, &mut state, queue, packets, *now, *are_queued),
        Step::Due(now) => state.is_due(*now) && !state.is_due(now.saturating_sub(1)),
        Step::Idle => !state.is_due(u64::MAX),
    };
    (state, so)
}

// Ends the test at the first step that isn't so, and prints its place in the table.
fn play(
    rt: &impl Abort,
    mut state: OutState,
    queue: &mut TxQueue,
    packets: &[Shown; 2],
    steps: &[Step],
) -> OutState {
    for (place, step) in steps.iter().enumerate() {
        let (left, so) = next(rt, state, queue, packets, step);
        same(rt, (place, so), (place, true));
        state = left;
    }
    state
}

fn expire_stage(rt: &impl Abort, state: OutState, now: u64) -> OutOver {
    let before = now.saturating_sub(1);
    match state {
        OutState::AwaitCts(state) => {
            holds(rt, state.is_due(now) && !state.is_due(before));
            state.expire()
        }
        OutState::AwaitEnd(state) => {
            holds(rt, state.is_due(now) && !state.is_due(before));
            state.expire()
        }
        other => {
            let _ = other.overrun();
            panic!(rt; "a packet is left")
        }
    }
}

fn ended(rt: &impl Abort, state: OutState, end: &End) -> OutOver {
    match end {
        End::Step(means) => ends(rt, state, means),
        End::Expire => state.expire(),
        End::ExpireStage(now) => expire_stage(rt, state, *now),
        End::Cancel => state.cancel(),
        End::Abort(reason) => state.abort(*reason),
        End::Overrun => state.overrun(),
        End::End(ending) => state.end(*ending),
    }
}

fn is_over(over: &OutOver, outcome: Outcome, frame: &Option<Shown>) -> bool {
    over.outcome == outcome && is_shown(&over.frame, frame)
}

// A message begins at tick 0 with its request to send.
fn is_begun(rt: &impl Abort, state: AwaitCts, frame: Frame, rts: &Shown) -> OutState {
    holds(rt, is_frame(&frame, rts));
    OutState::AwaitCts(state)
}

fn begun(rt: &impl Abort, (to, rts, _): &To) -> OutState {
    let pgn = pgn(rt, FECA);
    holds(rt, to.is_one());
    let (state, frame) = begin(Kind::Tp, OWN, *to, pgn, 9, 0);
    let state = is_begun(rt, state, frame, rts);
    holds(
        rt,
        state.is_of(Kind::Tp, pgn.field()) && !state.is_of(Kind::Etp, pgn.field()),
    );
    state
}

// A message does all this, and ends so.
fn does(rt: &impl Abort, alloc: Global, to: &To, steps: &[Step], (end, outcome, frame): &Over) {
    let mut queue = got(rt, TxQueue::new(alloc));
    let state = play(rt, begun(rt, to), &mut queue, &to.2, steps);
    holds(rt, is_over(&ended(rt, state, end), *outcome, frame));
}

const GRANT: Means = Means::Cm(Cm::Cts(2, 1));

const HOLD: Means = Means::Cm(Cm::Cts(0, 1));

const ALL: Means = Means::Cm(Cm::End(9, 2));

// An end of message acknowledgement before its time, and those of other sizes, change nothing.
const NINE_BYTES: [Step; 6] = [
    Step::On(ALL),
    Step::On(GRANT),
    Step::Pump(0, true),
    Step::On(Means::Cm(Cm::End(10, 2))),
    Step::On(Means::Cm(Cm::End(9, 3))),
    Step::Pump(0, false),
];

const ACKNOWLEDGED: Over = (End::Step(ALL), Outcome::Acknowledged, None);

#[test]
fn nine_bytes_are_acknowledged(rt: HostRuntime) {
    does(&rt, rt.alloc(), &TO_35, &NINE_BYTES, &ACKNOWLEDGED);
}

const GRANTED_TWICE: [Step; 3] = [Step::On(GRANT), Step::Idle, Step::On(GRANT)];

const DURING: Over = (
    End::Step(Means::Cm(Cm::Cts(1, 1))),
    Outcome::Aborted(4),
    Some((0x1CEC_8021, [0xFF, 4, 0xFF, 0xFF, 0xFF, 0xCA, 0xFE, 0])),
);

#[test]
fn cts_during_a_transfer(rt: HostRuntime) {
    does(&rt, rt.alloc(), &TO_80, &GRANTED_TWICE, &DURING);
}

// Frames of another message, of no connection and before their time change nothing, nor does a CTS that skips a packet or comes during a
// transfer.
const IN_PLACE: [Step; 12] = [
    Step::Take(Means::CmOfOther(Cm::Cts(2, 1)), 3, None),
    Step::Take(Means::Request(FECA), 3, None),
    Step::Take(ALL, 3, None),
    Step::Take(
        Means::Cm(Cm::Cts(1, 2)),
        3,
        Some(Ending::Abort(AbortReason::Other)),
    ),
    Step::Due(1250),
    Step::Take(HOLD, 300, None),
    Step::Due(1350),
    Step::Take(GRANT, 400, None),
    Step::Take(GRANT, 400, None),
    Step::Take(
        Means::Cm(Cm::Cts(1, 1)),
        400,
        Some(Ending::Abort(AbortReason::CtsDuringTransfer)),
    ),
    Step::Pump(400, true),
    Step::Take(ALL, 500, Some(Ending::Acknowledged)),
];

const ABORTED: Over = (End::End(Ending::Aborted(2)), Outcome::Aborted(2), None);

#[test]
fn frames_are_taken_where_the_state_stands(rt: HostRuntime) {
    does(&rt, rt.alloc(), &TO_80, &IN_PLACE, &ABORTED);
}

const TIMEOUT: Option<Shown> = Some((0x1CEC_8021, [0xFF, 3, 0xFF, 0xFF, 0xFF, 0xCA, 0xFE, 0]));

const WITHOUT_A_CTS: Over = (End::ExpireStage(1250), Outcome::TimedOut, TIMEOUT);

const ON_HOLD: [Step; 2] = [Step::On(HOLD), Step::Due(1050)];

const AFTER_A_HOLD: Over = (End::Expire, Outcome::TimedOut, TIMEOUT);

const SENT_AT_7: [Step; 2] = [Step::On(GRANT), Step::Pump(7, true)];

const WITHOUT_AN_END: Over = (End::ExpireStage(1257), Outcome::TimedOut, TIMEOUT);

#[test]
fn timers(rt: HostRuntime) {
    does(&rt, rt.alloc(), &TO_80, &[], &WITHOUT_A_CTS);
    does(&rt, rt.alloc(), &TO_80, &ON_HOLD, &AFTER_A_HOLD);
    does(&rt, rt.alloc(), &TO_80, &SENT_AT_7, &WITHOUT_AN_END);
}

const OUTSIDE: [Over; 3] = [
    (
        End::Cancel,
        Outcome::Cancelled,
        Some((0x1CEC_8021, [0xFF, 250, 0xFF, 0xFF, 0xFF, 0xCA, 0xFE, 0])),
    ),
    (End::Abort(2), Outcome::Aborted(2), None),
    (End::Overrun, Outcome::Overrun, None),
];

#[test]
fn ends_from_outside(rt: HostRuntime) {
    for end in &OUTSIDE {
        does(&rt, rt.alloc(), &TO_80, &[], end);
    }
}

const LARGEST: Shown = (
    0x1CC8_3521,
    [0x14, 0xF9, 0xFF, 0xFF, 0x06, 0xCA, 0xFE, 0x00],
);

// Each transport begins a message of its own, the extended one its largest.
#[test]
fn a_message_is_sent_by_its_rts(rt: HostRuntime) {
    let pgn = pgn(&rt, FECA);
    let (state, rts) = tp_session::begin(OWN, PEER, pgn, 9, 0);
    let nine = is_begun(&rt, state, rts, &TO_35.1).overrun();
    let (state, rts) = etp_session::begin(OWN, PEER, pgn, ETP_MAX_SIZE, 0);
    let largest = is_begun(&rt, state, rts, &LARGEST).overrun();
    same(&rt, [nine.outcome, largest.outcome], [Outcome::Overrun; 2]);
}

const TAKEN: [Step; 1] = [Step::Take(GRANT, 1, None)];

const PUMPED: [Step; 1] = [Step::Pump(2, true)];

// The message equals its image until these steps.
fn until(rt: &impl Abort, state: OutState, queue: &mut TxQueue, steps: &[Step]) -> OutState {
    let image = state.image();
    let before = image.is_of(&state);
    let state = play(rt, state, queue, &TO_35.2, steps);
    same(rt, (before, image.is_of(&state)), (true, false));
    state
}

#[test]
fn a_connection_and_its_image(rt: HostRuntime) {
    let mut queue = got(&rt, TxQueue::new(rt.alloc()));
    let state = until(&rt, begun(&rt, &TO_35), &mut queue, &TAKEN);
    let state = until(&rt, state, &mut queue, &PUMPED);
    holds(&rt, state.image().is_of(&state));
    let _over = state.overrun();
}
