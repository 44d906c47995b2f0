//! What a segment and its ends keep after cuts: what was read is dropped, and what wasn't is still there.
use super::left::*;
use super::played::*;
use super::steps::*;
use super::{GIVE, refuse_ends};
use tp_wire::Outcome;

// Two messages were given, one of which is read before the cut. A third one is given, and the second one read, before the second cut. What
// the ends let go they let go at their next calls.
const CUT_TWICE: [Rounds; 4] = [
    (2, &GIVE),
    (
        1,
        &[
            Step::Receive(true),
            Step::Note(1, Outcome::Acknowledged),
            Step::Cut(1),
            Step::Given(1, 1),
            Step::Notes(1, 1),
            Step::Received(0, 1),
            Step::Submitted(0, 2),
            Step::WasRead(0, 1),
        ],
    ),
    (1, &GIVE),
    (
        1,
        &[
            Step::Receive(true),
            Step::Note(2, Outcome::Acknowledged),
            Step::Received(1, 1),
            Step::Submitted(2, 1),
            Step::WasRead(1, 1),
            Step::Cut(2),
            Step::Given(2, 1),
            Step::Notes(2, 1),
        ],
    ),
];

const ONE_UNREAD: Left = Left {
    clients: 1,
    submissions: 0,
    notes: 1,
    inboxes: 1,
    deliveries: 1,
};

#[test]
fn what_was_read_is_let_go_after_a_cut(rt: HostRuntime) {
    does_and_leaves(&rt, rt.alloc(), &CUT_TWICE, &ONE_UNREAD);
}

// One of three deliveries is received before the cut.
const CLOSED_AFTER: [Rounds; 2] = [
    (3, &GIVE),
    (
        1,
        &[
            Step::Receive(true),
            Step::Note(1, Outcome::Acknowledged),
            Step::Cut(1),
            Step::Close(Ok(2)),
            Step::Close(Ok(0)),
            Step::Received(0, 3),
        ],
    ),
];

const NOTES_UNREAD: Left = Left {
    clients: 1,
    submissions: 0,
    notes: 2,
    inboxes: 1,
    deliveries: 0,
};

#[test]
fn a_closing_hands_out_what_was_unread_at_a_cut(rt: HostRuntime) {
    does_and_leaves(&rt, rt.alloc(), &CLOSED_AFTER, &NOTES_UNREAD);
}

// Two messages are read, and their deliveries and notes are kept no more.
const READ: [Rounds; 2] = [
    (2, &GIVE),
    (
        1,
        &[
            Step::Receive(true),
            Step::Note(1, Outcome::Acknowledged),
            Step::Receive(true),
            Step::Note(2, Outcome::Acknowledged),
            Step::Cut(1),
            Step::Given(2, 0),
            Step::Notes(2, 0),
        ],
    ),
];

// Those ends received and read less than is kept no more here.
#[test]
fn ends_of_another_segment_are_refused_after_a_cut(rt: HostRuntime) {
    let mut live = three(&rt, rt.alloc());
    does_on(&rt, rt.alloc(), &mut live, &READ);
    refuse_ends(&rt, rt.alloc(), &mut live);
    drop(live);
}
