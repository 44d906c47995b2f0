//! Full rings, owed places, and the most calls that are stored.
use super::EXCHANGE;
use super::played::*;
use super::steps::*;
use pgn_ids::Address;
use segment_shared::{Accepted, Client, Inbox, Live, MOST_CALLS, Refusal};
use std::alloc::Global;
use std::process::Abort;
use tp_wire::Outcome;

const EXCHANGED: [Step; 3] = [
    Step::Submit(R),
    Step::GoOn,
    Step::Noted(Outcome::Acknowledged),
];

const TURNED_AWAY: [Step; 3] = [
    Step::Submit(R),
    Step::GoOn,
    Step::Noted(Outcome::Aborted(2)),
];

const FULL_PORT: [Rounds; 6] = [
    (64, &EXCHANGED),
    (1, &[Step::Counts(64, 0)]),
    (1, &TURNED_AWAY),
    (1, &[Step::Receive(true)]),
    (1, &EXCHANGED),
    (1, &[Step::Counts(65, 0)]),
];

#[test]
fn a_port_whose_ring_is_full_is_given_nothing(rt: HostRuntime) {
    does(&rt, rt.alloc(), &FULL_PORT);
}

// A message is given to both ports of 35 or to neither.
const TO_NEITHER: [Rounds; 2] = [(1, &TURNED_AWAY), (1, &[Step::Counts(64, 0)])];

const TO_BOTH: [Rounds; 3] = [
    (1, &[Step::Receive(true)]),
    (1, &EXCHANGED),
    (1, &[Step::Counts(66, 0)]),
];

// The ring of a second port of 35 is empty and that of the first full.
fn give_both_or_neither(
    rt: &impl Abort,
    alloc: Global,
    live: &mut Live,
    first: &mut Inbox,
    second: &mut Inbox,
    sender: &mut Client,
) {
    play(rt, alloc, live, first, sender, &TO_NEITHER);
    play(
        rt,
        alloc,
        live,
        second,
        sender,
        &[(1, &[Step::Receive(false)])],
    );
    play(rt, alloc, live, first, sender, &TO_BOTH);
    play(
        rt,
        alloc,
        live,
        second,
        sender,
        &[(1, &[Step::Receive(true)])],
    );
}

fn fill_first_of(rt: &impl Abort, alloc: Global, live: &mut Live) {
    let (mut first, mut sender) = port_and_client(rt, live);
    play(
        rt,
        alloc,
        live,
        &mut first,
        &mut sender,
        &[(64, &EXCHANGED)],
    );
    let mut second = port(rt, live);
    give_both_or_neither(rt, alloc, live, &mut first, &mut second, &mut sender);
    drop(first);
    drop(second);
    drop(sender);
}

#[test]
fn a_full_ring_keeps_a_message_from_every_port(rt: HostRuntime) {
    let mut live = three(&rt, rt.alloc());
    fill_first_of(&rt, rt.alloc(), &mut live);
    drop(live);
}

// As many messages to one destination as its lane holds.
const ACCEPTED: [Step; 32] = [
    Step::Accept(Accepted::Sent(1)),
    Step::Accept(Accepted::Sent(2)),
    Step::Accept(Accepted::Sent(3)),
    Step::Accept(Accepted::Sent(4)),
    Step::Accept(Accepted::Sent(5)),
    Step::Accept(Accepted::Sent(6)),
    Step::Accept(Accepted::Sent(7)),
    Step::Accept(Accepted::Sent(8)),
    Step::Accept(Accepted::Sent(9)),
    Step::Accept(Accepted::Sent(10)),
    Step::Accept(Accepted::Sent(11)),
    Step::Accept(Accepted::Sent(12)),
    Step::Accept(Accepted::Sent(13)),
    Step::Accept(Accepted::Sent(14)),
    Step::Accept(Accepted::Sent(15)),
    Step::Accept(Accepted::Sent(16)),
    Step::Accept(Accepted::Sent(17)),
    Step::Accept(Accepted::Sent(18)),
    Step::Accept(Accepted::Sent(19)),
    Step::Accept(Accepted::Sent(20)),
    Step::Accept(Accepted::Sent(21)),
    Step::Accept(Accepted::Sent(22)),
    Step::Accept(Accepted::Sent(23)),
    Step::Accept(Accepted::Sent(24)),
    Step::Accept(Accepted::Sent(25)),
    Step::Accept(Accepted::Sent(26)),
    Step::Accept(Accepted::Sent(27)),
    Step::Accept(Accepted::Sent(28)),
    Step::Accept(Accepted::Sent(29)),
    Step::Accept(Accepted::Sent(30)),
    Step::Accept(Accepted::Sent(31)),
    Step::Accept(Accepted::Sent(32)),
];

// The first message of 21 to 35 is cancelled.
const CANCEL: Work = Work::Cancel(A, R, 1);

const OWED_PLACES: [Rounds; 5] = [
    (32, &[Step::Submit(R)]),
    (1, &ACCEPTED),
    (32, &[Step::Submit(Address::GLOBAL)]),
    (1, &ACCEPTED),
    (
        1,
        &[
            Step::Submit(Address(0x80)),
            Step::Accept(Accepted::Owed),
            Step::Make(CANCEL, 1),
            Step::Note(1, Outcome::Cancelled),
            Step::Accept(Accepted::Sent(1)),
        ],
    ),
];

#[test]
fn messages_without_an_outcome_hold_their_places(rt: HostRuntime) {
    does(&rt, rt.alloc(), &OWED_PLACES);
}

const FULL_LANE: [Rounds; 3] = [
    (33, &[Step::Submit(R)]),
    (1, &ACCEPTED),
    (
        1,
        &[
            Step::Accept(Accepted::Refused(Refusal::LaneFull)),
            Step::Make(CANCEL, 1),
            Step::Accept(Accepted::Sent(33)),
        ],
    ),
];

#[test]
fn a_full_lane_keeps_its_submission(rt: HostRuntime) {
    does(&rt, rt.alloc(), &FULL_LANE);
}

// Messages that aren't to be sent; as many as the ring holds, and one more; and as many accepted as the lane holds. The Send of the one behind
// them is refused each time, and it stays in front. Once the first message is given, ring and lane have a place for the next ones.
const REFUSED: [Rounds; 7] = [
    (
        1,
        &[
            Step::Unsent(Address::NULL, 9, Refusal::NoSuchStation),
            Step::Unsent(A, 9, Refusal::SameStation),
            Step::Unsent(R, 8, Refusal::TooShort),
        ],
    ),
    (64, &[Step::Submit(R)]),
    (1, &[Step::Unsent(R, 9, Refusal::RingFull)]),
    (1, &ACCEPTED),
    (
        1,
        &[
            Step::Accept(Accepted::Refused(Refusal::LaneFull)),
            Step::Accept(Accepted::Refused(Refusal::LaneFull)),
            Step::Submit(R),
        ],
    ),
    (1, &EXCHANGE),
    (
        1,
        &[
            Step::Receive(true),
            Step::Note(1, Outcome::Acknowledged),
            Step::Accept(Accepted::Sent(33)),
            Step::Open(R, None),
            Step::Attach(A, None),
        ],
    ),
];

#[test]
fn refused_submissions_with_each_growth_refused(rt: HostRuntime) {
    does(&rt, rt.alloc(), &REFUSED);
}

const TICK: Work = Work::Tick(0);

// What was refused is done once the calls are handed out.
const FULL_OF_CALLS: [Rounds; 2] = [
    (MOST_CALLS as u64 - 1, &[Step::Make(TICK, 0)]),
    (
        1,
        &[
            Step::Submit(R),
            Step::Refuse(TICK, Refusal::TraceFull),
            Step::Accept(Accepted::Refused(Refusal::TraceFull)),
            Step::Close(Err(Refusal::TraceFull)),
            Step::Open(R, Some(Refusal::TraceFull)),
            Step::Open(Address(0x50), Some(Refusal::NoSuchStation)),
            Step::Cut(1),
            Step::Holds(MOST_CALLS),
            Step::Make(TICK, 0),
            Step::Accept(Accepted::Sent(1)),
        ],
    ),
];

#[test]
fn no_more_calls_are_stored(rt: HostRuntime) {
    does(&rt, rt.alloc(), &FULL_OF_CALLS);
}

// Node 80, which is no station, asks to send 35 the nine bytes of a message in two packets. No port takes it, so 35 answers with an abort.
const REQUEST: [u8; 8] = [16, 9, 0, 2, 0xFF, 0xCB, 0xFE, 0];

const ASK: Step = Step::Make(Work::Inject(0x1CEC_3580, REQUEST), 0);

const TAKE_A: Work = Work::Take(A);

const TAKE_B: Work = Work::Take(B);

const TAKE_R: Work = Work::Take(R);

// All three stations take as many requests as 35's queue holds frames, and 35 answers each. With the frame that each took last, the bus keeps
// 4,096. 35 can neither take nor transmit until it has missed what waits for it, and the others have taken a frame.
const STUCK: [Rounds; 3] = [
    (
        64,
        &[
            ASK,
            Step::Make(TAKE_A, 0),
            Step::Make(TAKE_B, 0),
            Step::Make(TAKE_R, 0),
        ],
    ),
    (4_095, &[ASK]),
    (
        1,
        &[
            Step::Refuse(Work::Inject(0x1CEC_3580, REQUEST), Refusal::BusFull),
            Step::Refuse(TAKE_R, Refusal::TxFull),
            Step::TurnOf(R, 1),
            Step::Refuse(TAKE_R, Refusal::NothingToTake),
            Step::Make(TAKE_A, 0),
            Step::Make(TAKE_B, 0),
            Step::Make(Work::Put(R), 0),
        ],
    ),
];

#[test]
fn a_station_that_can_take_nothing_more_misses_what_waits(rt: HostRuntime) {
    does(&rt, rt.alloc(), &STUCK);
}
