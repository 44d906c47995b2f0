//! A message of 255 packets of which the receiver misses one frame, whichever it is.
use super::calls::*;
use super::played::{Step, is_done, is_refused, play};
use crate::checks::holds;
use segment_core::*;
use std::alloc::Global;
use std::process::Abort;

const PUMP: PlainCall = PlainCall::Pump(B);

const TRANSMIT_A: PlainCall = PlainCall::Transmit(A);

const TRANSMIT_B: PlainCall = PlainCall::Transmit(B);

const TAKE_A: PlainCall = PlainCall::Take(A);

const TAKE_B: PlainCall = PlainCall::Take(B);

const MISS: PlainCall = PlainCall::Miss;

fn made(rt: &impl Abort, segment: &mut Segment, call: &PlainCall) -> Reply {
    apply(rt, segment, call_of(rt, call))
}

fn done(rt: &impl Abort, segment: &mut Segment, call: &PlainCall) {
    holds(rt, is_done(made(rt, segment, call)));
}

// Puts the next frame of the station that has one queued; false if none has.
fn puts_queued(rt: &impl Abort, segment: &mut Segment) -> bool {
    if queue_len(segment, A) > 0 {
        done(rt, segment, &TRANSMIT_A);
        return true;
    }
    if queue_len(segment, B) > 0 {
        done(rt, segment, &TRANSMIT_B);
        return true;
    }
    false
}

// Queues the next frames if no queue has one, and puts a frame; false if nothing is left to put.
fn puts(rt: &impl Abort, segment: &mut Segment) -> bool {
    if puts_queued(rt, segment) {
        return true;
    }
    if is_refused(made(rt, segment, &PUMP), Refusal::NothingToSend) {
        return false;
    }
    done(rt, segment, &TRANSMIT_A);
    true
}

const SENT: [Step; 2] = [Step::Open(4000), Step::Send(B, 1785, 1)];

// A message of 1,785 bytes. 35 misses one frame: the one that would have been its `missed`th.
fn miss_frame(rt: &impl Abort, alloc: Global, segment: &mut Segment, missed: u32) {
    play(rt, alloc, segment, &SENT);
    for taken in 1..=274 {
        if !puts(rt, segment) {
            return;
        }
        done(rt, segment, &TAKE_A);
        let take = if taken == missed { &MISS } else { &TAKE_B };
        done(rt, segment, take);
    }
}

// The message ends without an acknowledgement, and the next one is acknowledged: the abort, the Request and its answer, and five frames of
// that message are put.
const TIMED_OUT: [Step; 9] = [
    Step::Ended((0, 0, 0)),
    Step::Queued(A, 0),
    Step::Queued(B, 0),
    Step::Do(PlainCall::Tick(1250)),
    Step::Do(PlainCall::Fire(A)),
    Step::Ended((0, 1, 0)),
    Step::Send(B, 9, 2),
    Step::Put(B, 8),
    Step::Ended((1, 1, 1)),
];

fn one_missed(rt: &impl Abort, alloc: Global, missed: u32) {
    let mut segment = segment(rt, alloc);
    miss_frame(rt, alloc, &mut segment, missed);
    play(rt, alloc, &mut segment, &TIMED_OUT);
}

#[test]
fn one_missed_frame_ends_the_message_and_no_other(rt: HostRuntime) {
    for missed in 1..273 {
        one_missed(&rt, rt.alloc(), missed);
    }
}

const ACKNOWLEDGED_TWICE: [Step; 4] = [
    Step::Ended((1, 0, 1)),
    Step::Send(B, 9, 2),
    Step::Put(B, 5),
    Step::Ended((2, 0, 2)),
];

#[test]
fn missed_end_acknowledgement_of_its_own_is_none(rt: HostRuntime) {
    let mut segment = segment(&rt, rt.alloc());
    miss_frame(&rt, rt.alloc(), &mut segment, 273);
    play(&rt, rt.alloc(), &mut segment, &ACKNOWLEDGED_TWICE);
}
