//! Calls of a worker that no turn makes: a port is paused and resumed, a frame is taken again, and frames were missed.
use super::played::*;
use super::steps::*;
use segment_shared::{Accepted, Refusal};
use tp_wire::Outcome;

const PUMP: Work = Work::Pump(A, R);

const PUT_A: Work = Work::Put(A);

const PUT_R: Work = Work::Put(R);

const TAKE_A: Work = Work::Take(A);

const TAKE_R: Work = Work::Take(R);

const AGAIN_R: Work = Work::TakeAgain(R);

const PAUSE: Work = Work::Pause;

const RESUME: Work = Work::Resume;

const MISS_4: Work = Work::Miss(R, 4);

const MISS_3: Work = Work::Miss(R, 3);

// The request to send is answered by a hold, which 21 takes. After 500 ticks the grant follows. 35 takes both packets behind the hold and the
// grant, and 21 the end acknowledgement behind the packets.
const HELD: [Step; 32] = [
    Step::Submit(R),
    Step::Accept(Accepted::Sent(1)),
    Step::Make(PAUSE, 0),
    Step::Refuse(PAUSE, Refusal::PortPaused),
    Step::Make(PUMP, 0),
    Step::Make(PUT_A, 0),
    Step::Make(TAKE_R, 0),
    Step::Make(PUT_R, 0),
    Step::Make(TAKE_A, 0),
    Step::Make(TAKE_A, 0),
    Step::Refuse(PUMP, Refusal::NothingToSend),
    Step::Counts(0, 0),
    Step::Make(RESUME, 0),
    Step::Refuse(RESUME, Refusal::PortNotPaused),
    Step::Make(Work::Tick(500), 0),
    Step::Make(Work::Fire(R), 0),
    Step::Make(PUT_R, 0),
    Step::Make(TAKE_A, 0),
    Step::Make(PUMP, 0),
    Step::Make(PUT_A, 0),
    Step::Make(PUT_A, 0),
    Step::Make(TAKE_R, 0),
    Step::Make(TAKE_R, 0),
    Step::Make(TAKE_R, 0),
    Step::Make(TAKE_R, 1),
    Step::Make(PUT_R, 0),
    Step::Make(TAKE_A, 0),
    Step::Make(TAKE_A, 0),
    Step::Make(TAKE_A, 1),
    Step::Receive(true),
    Step::Note(1, Outcome::Acknowledged),
    Step::Counts(1, 0),
];

#[test]
fn a_paused_port_is_given_nothing_until_it_goes_on(rt: HostRuntime) {
    does(&rt, rt.alloc(), &[(1, &HELD)]);
}

// The request is taken twice, and answered by two grants.
const TAKEN_TWICE: [Step; 11] = [
    Step::Refuse(AGAIN_R, Refusal::NothingToRepeat),
    Step::Submit(R),
    Step::Accept(Accepted::Sent(1)),
    Step::Make(PUMP, 0),
    Step::Make(PUT_A, 0),
    Step::Make(TAKE_R, 0),
    Step::Make(AGAIN_R, 0),
    Step::Counts(0, 1),
    Step::Make(PUT_R, 0),
    Step::Make(PUT_R, 0),
    Step::Refuse(PUT_R, Refusal::NothingToSend),
];

#[test]
fn a_frame_is_taken_once_more(rt: HostRuntime) {
    does(&rt, rt.alloc(), &[(1, &TAKEN_TWICE)]);
}

// 35 misses its own grant and both packets. The message is over: 21 waits for its acknowledgement in vain.
const MISSED: [Step; 19] = [
    Step::Submit(R),
    Step::Accept(Accepted::Sent(1)),
    Step::Make(PUMP, 0),
    Step::Make(PUT_A, 0),
    Step::Make(TAKE_R, 0),
    Step::Make(PUT_R, 0),
    Step::Make(TAKE_A, 0),
    Step::Make(TAKE_A, 0),
    Step::Make(PUMP, 0),
    Step::Make(PUT_A, 0),
    Step::Make(PUT_A, 0),
    Step::Refuse(MISS_4, Refusal::NothingToTake),
    Step::Make(MISS_3, 0),
    Step::Refuse(TAKE_R, Refusal::NothingToTake),
    Step::Refuse(AGAIN_R, Refusal::NothingToRepeat),
    Step::Make(Work::Tick(1250), 0),
    Step::Make(Work::Fire(A), 1),
    Step::Note(1, Outcome::TimedOut),
    Step::Counts(0, 0),
];

#[test]
fn a_message_of_which_frames_were_missed_is_not_given(rt: HostRuntime) {
    does(&rt, rt.alloc(), &[(1, &MISSED)]);
}
