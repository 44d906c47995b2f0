//! Threads on one segment, and what clients, ports and workers do on one thread.
mod cuts;
mod left;
mod limits;
mod news;
mod pieces;
mod played;
mod steps;
mod threads;
mod worker_calls;

use crate::serving::Open;
use left::*;
use pgn_ids::Address;
use played::*;
use segment_shared::{
    Accepted, Client, Inbox, Live, Refusal, SharedSegment, WorkerCall, bus_worker, finish,
};
use std::alloc::Global;
use std::process::Abort;
use std::sync::Wait;
use steps::*;
use tp_wire::Outcome;

const ATTACHED: Step = Step::Attach(A, None);

// With the client that is there already, 16 of 21.
const FULL_OF_CLIENTS: [Rounds; 4] = [
    (15, &[ATTACHED]),
    (
        1,
        &[
            Step::Attach(A, Some(Refusal::ClientsFull)),
            Step::Attach(Address(0x50), Some(Refusal::NoSuchStation)),
        ],
    ),
    (64, &[Step::Submit(R)]),
    (1, &[Step::Unsent(R, 9, Refusal::RingFull)]),
];

#[test]
fn clients_and_submissions_are_limited(rt: HostRuntime) {
    does(&rt, rt.alloc(), &FULL_OF_CLIENTS);
}

// A client that is detached is looked at no more, but keeps what it had.
const DETACHED: [Rounds; 2] = [
    (15, &[ATTACHED]),
    (
        1,
        &[
            Step::Submit(R),
            Step::Detach,
            Step::Accept(Accepted::Empty),
            Step::Agree,
            ATTACHED,
            Step::Attach(A, Some(Refusal::ClientsFull)),
        ],
    ),
];

#[test]
fn a_detached_client_makes_room_for_another(rt: HostRuntime) {
    does(&rt, rt.alloc(), &DETACHED);
}

// The third one comes while the second one is known, and waits to be seen. A turn that finds no memory leaves its submission to the next one.
const ACCEPTED_IN_TURNS: [Step; 8] = [
    Step::Submit(R),
    Step::Submit(R),
    Step::Turn(A),
    Step::Submit(R),
    Step::Turn(A),
    Step::Turn(A),
    Step::Turn(A),
    Step::Accept(Accepted::Empty),
];

#[test]
fn each_submission_is_accepted_in_some_turn(rt: HostRuntime) {
    does(&rt, rt.alloc(), &[(1, &ACCEPTED_IN_TURNS)]);
}

const PUMP: Work = Work::Pump(A, R);

const PUT_A: Work = Work::Put(A);

const PUT_R: Work = Work::Put(R);

const TAKE_A: Work = Work::Take(A);

const TAKE_R: Work = Work::Take(R);

// The calls that give 35 the message of 21, and let 21 take its end acknowledgement.
const EXCHANGE: [Step; 16] = [
    Step::Make(PUMP, 0),
    Step::Make(PUT_A, 0),
    Step::Make(TAKE_R, 0),
    Step::Make(PUT_R, 0),
    Step::Make(TAKE_A, 0),
    Step::Make(TAKE_A, 0),
    Step::Make(PUMP, 0),
    Step::Make(PUT_A, 0),
    Step::Make(PUT_A, 0),
    Step::Make(TAKE_R, 0),
    Step::Make(TAKE_R, 0),
    Step::Make(TAKE_R, 1),
    Step::Make(PUT_R, 0),
    Step::Make(TAKE_A, 0),
    Step::Make(TAKE_A, 0),
    Step::Make(TAKE_A, 1),
];

const SENT: [Step; 1] = [Step::Accept(Accepted::Sent(1))];

// What the port was given is received after its closing.
const CLOSED_BY_PORT: [Rounds; 4] = [
    (64, &[Step::Submit(R)]),
    (1, &SENT),
    (1, &EXCHANGE),
    (
        1,
        &[
            Step::Shut(false),
            Step::ClosePort(99, Some(Refusal::NoSuchPort)),
            Step::ClosePort(1, None),
            Step::Shut(true),
            Step::Receive(true),
            Step::Receive(false),
            Step::Agree,
        ],
    ),
];

#[test]
fn a_port_is_closed_without_its_inbox(rt: HostRuntime) {
    does(&rt, rt.alloc(), &CLOSED_BY_PORT);
}

const CLOSED_BY_INBOX: [Rounds; 4] = [
    (64, &[Step::Submit(R)]),
    (1, &SENT),
    (1, &EXCHANGE),
    (
        1,
        &[
            Step::Note(1, Outcome::Acknowledged),
            Step::Close(Ok(1)),
            Step::Close(Ok(0)),
            Step::Receive(false),
        ],
    ),
];

const SUBMISSIONS: Left = Left {
    clients: 1,
    submissions: 63,
    notes: 0,
    inboxes: 1,
    deliveries: 0,
};

#[test]
fn what_is_left_is_reported(rt: HostRuntime) {
    does_and_leaves(&rt, rt.alloc(), &CLOSED_BY_INBOX, &SUBMISSIONS);
}

// A frame of 21 and one of 22 wait.
const QUEUED: [Step; 6] = [
    Step::Submit(R),
    Step::SendFrom(B, A),
    Step::Accept(Accepted::Sent(1)),
    Step::Make(PUMP, 0),
    Step::Make(Work::Pump(B, A), 0),
    Step::Lowest(B),
];

// The frame of 22 was put, and that of 21 waits.
const SECOND_PUT: [Step; 3] = [
    Step::First(0x1CEC_2122),
    Step::Refuse(Work::Put(B), Refusal::NothingToSend),
    Step::Make(PUT_A, 0),
];

#[test]
fn the_lowest_identifier_comes_first(rt: HostRuntime) {
    let mut live = three(&rt, rt.alloc());
    does_on(&rt, rt.alloc(), &mut live, &[(1, &QUEUED)]);
    let shared = SharedSegment::share(live);
    same(&rt, calls_of_bus(&rt, &shared), 1);
    let mut live = shared.into_live();
    does_on(&rt, rt.alloc(), &mut live, &[(1, &SECOND_PUT)]);
    drop(live);
}

// How many calls the bus's worker makes in one turn. A turn that finds no memory makes none and changes nothing, so after none it is
// made again.
fn calls_of_bus(rt: &impl Wait, shared: &SharedSegment) -> u64 {
    let gate = Open::new();
    let calls = bus_worker(rt, shared, &gate, 1).calls;
    if calls > 0 {
        return calls;
    }
    bus_worker(rt, shared, &gate, 1).calls
}

// A message is given to the port.
const GIVE: [Step; 2] = [Step::Submit(R), Step::GoOn];

fn close_of_shared(rt: &(impl Abort + Wait), shared: &SharedSegment, inbox: Inbox) {
    match shared.close_port(rt, inbox) {
        Ok(closed) => same(rt, closed.rest.len(), 1),
        Err(kept) => got(rt, Err(kept.refused)),
    }
    is_done(rt, shared.apply(rt, WorkerCall::Tick { n: 1 }));
}

#[test]
fn a_port_closes_with_a_delivery_waiting(rt: HostRuntime) {
    let mut live = three(&rt, rt.alloc());
    let (mut inbox, mut sender) = port_and_client(&rt, &mut live);
    play(
        &rt,
        rt.alloc(),
        &mut live,
        &mut inbox,
        &mut sender,
        &[(1, &GIVE)],
    );
    let shared = SharedSegment::share(live);
    close_of_shared(&rt, &shared, inbox);
    drop(sender);
    drop(shared);
}

fn refuses_client(rt: &impl Abort, alloc: Global, live: &mut Live, theirs: Client) -> bool {
    let clients = got(rt, vec![in alloc; theirs]);
    match finish(live, clients, Vec::new(alloc)) {
        Ok(_) => false,
        Err(refused) => refused.not_this_segment && refused.clients.len() == 1,
    }
}

const RECEIVED: [Rounds; 2] = [(1, &GIVE), (1, &[Step::Receive(true)])];

const STRANGER: [Rounds; 1] = [(1, &[Step::Close(Err(Refusal::NotThisSegment))])];

fn refuse_ends_of(rt: &impl Abort, alloc: Global, live: &mut Live, other: &mut Live) {
    let (mut stranger, mut theirs) = port_and_client(rt, other);
    play(rt, alloc, other, &mut stranger, &mut theirs, &RECEIVED);
    play(rt, alloc, live, &mut stranger, &mut theirs, &STRANGER);
    holds(rt, refuses_client(rt, alloc, live, theirs));
    drop(stranger);
}

// The segment refuses the inbox and the client of another one, which received a message and sent it.
fn refuse_ends(rt: &impl Abort, alloc: Global, live: &mut Live) {
    let mut other = three(rt, alloc);
    refuse_ends_of(rt, alloc, live, &mut other);
    drop(other);
}

// The segment has a port of its own.
#[test]
fn ends_of_another_segment_are_refused(rt: HostRuntime) {
    let mut live = three(&rt, rt.alloc());
    let own = port(&rt, &mut live);
    refuse_ends(&rt, rt.alloc(), &mut live);
    drop(own);
    drop(live);
}
