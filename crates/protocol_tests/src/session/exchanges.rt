//! The receiver of a connection, step by step: node 35 takes a message of node 21 or 80. The steps of a test are a table, which one function
//! plays: a table needs no proof, and each call in a test does.
use crate::checks::{got, holds, same};
use crate::means::{Means, Packet, Shown, is_frame, is_shown, wire, wire_pgn};
use crate::session::received::{aborted, complete, completed, on, taken};
use bus_frame::Frame;
use pgn_ids::Address;
use responder::{Finished, Flow, InState, Left, Peer, Received, Receiver};
use seg_cut::{Join, packets};
use std::alloc::Global;
use std::process::Abort;
use tp_wire::constants::{ETP_MAX_SIZE, ETP_MAX_WINDOW};
use tp_wire::{AbortReason, Kind, Wire};
use tx_queue::TxQueue;

/// What 35 begins to take at tick 0, in windows of at most `most` packets, and the frame that asks for it. In ETP a window is 64.
pub(super) struct Begun {
    pub(super) kind: Kind,
    pub(super) from: u8,
    pub(super) pgn: u32,
    pub(super) size: u32,
    pub(super) most: u8,
    pub(super) flow: Flow,
    pub(super) asked: Shown,
}

/// A frame that is taken, whether there is room for the message, whether the session is held, and the tick.
pub(super) type Taken = (Means, bool, Flow, u64);

/// What is done with a session by value, which continues, or is seen of it.
pub(super) enum ByValue {
    /// A frame is taken, and this is queued.
    On(Taken, Option<Shown>),
    /// Packets of zeros with the sequence numbers from 1 up to this one are taken, and queue nothing.
    OnUpTo(u8, Flow),
    /// The timer fires at this tick, and this is queued.
    Expire(Flow, u64, Shown),
    /// It is due at this tick, and not at the one before.
    Due(u64),
}

/// What is done with a receiver in place, or is seen of it.
pub(super) enum Step {
    /// A frame is taken, leaves this to do, and this is queued.
    Take(Taken, Left, Option<Shown>),
    /// The timer fires at this tick, leaves this to do, and this is queued.
    Fire(Flow, u64, Left, Option<Shown>),
    /// It is due at this tick, and not at the one before.
    Due(u64),
    /// Whether a frame would complete the message.
    Complete(Means, bool),
    /// How many bytes it has room for.
    Memory(usize),
}

/// How the session ends.
pub(super) enum End {
    /// A frame that is taken in place completes the message, whose bytes are their places, and is acknowledged so.
    Given(Taken, Shown),
    /// A frame that is taken by value does.
    GivenByValue(Taken, Shown),
    /// A frame completes the message, which is refused.
    Refused(Taken, Shown),
    /// A frame aborts it.
    Aborted(Taken, Shown),
    /// Its timer fires at this tick and aborts it.
    TimedOut(u64, Shown),
    /// It is aborted in place for this reason.
    Ended(AbortReason, Shown),
    /// Its port is closed.
    Closed(Shown),
    /// Nothing is queued, where its peer aborts it.
    Abort,
    AbortInPlace,
    /// Nothing is queued, where frames are missed.
    Overrun,
    OverrunInPlace,
}

fn peer(rt: &impl Abort, begun: &Begun) -> Peer {
    holds(rt, begun.from < 254);
    Peer::new(Address(begun.from), Address(0x35), wire_pgn(rt, begun.pgn))
}

fn begin_tp(rt: &impl Abort, alloc: Global, begun: &Begun) -> (InState, Frame) {
    holds(rt, begun.size >= 9 && begun.size <= 1785);
    let mut join = Join::new(alloc, begun.size);
    got(rt, join.make_room(packets(begun.size)));
    tp_session::accept(peer(rt, begun), begun.most, join, begun.flow, 0)
}

fn begin_etp(rt: &impl Abort, alloc: Global, begun: &Begun) -> (InState, Frame) {
    holds(rt, begun.size >= 1786 && begun.size <= ETP_MAX_SIZE);
    let mut join = Join::new(alloc, begun.size);
    got(rt, join.make_room(u32::from(ETP_MAX_WINDOW)));
    etp_session::accept(peer(rt, begun), join, begun.flow, 0)
}

fn begin(rt: &impl Abort, alloc: Global, begun: &Begun) -> InState {
    let (state, asked) = match begun.kind {
        Kind::Tp => begin_tp(rt, alloc, begun),
        Kind::Etp => begin_etp(rt, alloc, begun),
    };
    holds(rt, shows(asked, &begun.asked));
    state
}

// Takes a frame in place. If memory is refused nothing has changed, and the call succeeds when it is made again.
fn take(
    rt: &impl Abort,
    state: &mut Receiver,
    queue: &mut TxQueue,
    (means, room, flow, now): &Taken,
) -> (Left, Option<Frame>) {
    let wire = wire(rt, means);
    let memory = state.memory();
    let first = taken(rt, state, queue, &wire, *room, *flow, *now);
    if first.0 != Left::NoMemory {
        return first;
    }
    holds(rt, state.memory() == memory && first.1.is_none());
    taken(rt, state, queue, &wire, *room, *flow, *now)
}

// The timer fires in place. If memory is refused nothing has changed, and the call succeeds when it is made again.
fn fire(
    rt: &impl Abort,
    state: &mut Receiver,
    queue: &mut TxQueue,
    flow: Flow,
    now: u64,
) -> (Left, Option<Frame>) {
    holds(rt, queue.is_empty());
    let memory = state.memory();
    let mut left = state.fire(flow, now, queue);
    if left == Left::NoMemory {
        holds(rt, state.memory() == memory && queue.is_empty());
        left = state.fire(flow, now, queue);
    }
    (left, queue.pop())
}

// Takes a frame by value. If memory is refused, the call succeeds when it is made again.
fn receive_by(
    rt: &impl Abort,
    mut state: InState,
    wire: &Wire<'_>,
    room: bool,
    flow: Flow,
    now: u64,
) -> Received {
    if state.prepare(wire, room, flow).is_err() {
        got(rt, state.prepare(wire, room, flow));
    }
    state.step(wire, room, flow, now)
}

fn receive(rt: &impl Abort, state: InState, (means, room, flow, now): &Taken) -> Received {
    receive_by(rt, state, &wire(rt, means), *room, *flow, *now)
}

// The session continues, and this is queued or isn't.
fn receive_on(
    rt: &impl Abort,
    state: InState,
    taken: &Taken,
    queued: &Option<Shown>,
) -> (InState, bool) {
    let (state, frame) = on(rt, receive(rt, state, taken));
    (state, is_shown(&frame, queued))
}

fn receive_up_to(rt: &impl Abort, mut state: InState, last: u8, flow: Flow) -> (InState, bool) {
    let mut are_silent = true;
    for sequence in 1..=last {
        let packet = Packet {
            kind: Kind::Etp,
            sequence,
            bytes: [0; 7],
        };
        let (left, frame) = on(rt, receive_by(rt, state, &packet.wire(), true, flow, 0));
        state = left;
        are_silent = are_silent && frame.is_none();
    }
    (state, are_silent)
}

// The timer fires by value. If memory is refused, the call succeeds when it is made again.
fn expire(rt: &impl Abort, mut state: InState, flow: Flow, now: u64) -> Received {
    if state.prepare_expire(flow).is_err() {
        got(rt, state.prepare_expire(flow));
    }
    state.expire(flow, now)
}

fn expire_on(
    rt: &impl Abort,
    state: InState,
    flow: Flow,
    now: u64,
    queued: &Shown,
) -> (InState, bool) {
    let (state, frame) = on(rt, expire(rt, state, flow, now));
    (state, is_shown(&frame, &Some(*queued)))
}

// What a step by value leaves of the session, and whether it does, or shows, what it says.
fn next(rt: &impl Abort, state: InState, step: &ByValue) -> (InState, bool) {
    match step {
        ByValue::On(taken, queued) => receive_on(rt, state, taken, queued),
        ByValue::OnUpTo(last, flow) => receive_up_to(rt, state, *last, *flow),
        ByValue::Expire(flow, now, queued) => expire_on(rt, state, *flow, *now, queued),
        ByValue::Due(now) => {
            let so = state.is_due(*now) && !state.is_due(now.saturating_sub(1));
            (state, so)
        }
    }
}

// Whether a step in place does, or shows, what it says.
fn is_so(rt: &impl Abort, state: &mut Receiver, queue: &mut TxQueue, step: &Step) -> bool {
    match step {
        Step::Take(taken, left, queued) => {
            let (after, frame) = take(rt, state, queue, taken);
            after == *left && is_shown(&frame, queued)
        }
        Step::Fire(flow, now, left, queued) => {
            let (after, frame) = fire(rt, state, queue, *flow, *now);
            after == *left && is_shown(&frame, queued)
        }
        Step::Due(now) => state.is_due(*now) && !state.is_due(now.saturating_sub(1)),
        Step::Complete(means, completes) => state.completes(&wire(rt, means)) == *completes,
        Step::Memory(bytes) => state.memory() == *bytes,
    }
}

// The receiver is that of what was begun.
fn is_of(rt: &impl Abort, state: &Receiver, begun: &Begun) {
    holds(rt, state.kind() == begun.kind && state.size() == begun.size);
    holds(rt, state.peer() == peer(rt, begun));
}

// Both end the test at the first step that isn't so, and print its place in the table.
fn go_on(rt: &impl Abort, mut state: InState, steps: &[ByValue]) -> InState {
    for (place, step) in steps.iter().enumerate() {
        let (left, so) = next(rt, state, step);
        same(rt, (place, so), (place, true));
        state = left;
    }
    state
}

fn play(rt: &impl Abort, state: &mut Receiver, queue: &mut TxQueue, steps: &[Step]) {
    for (place, step) in steps.iter().enumerate() {
        same(rt, (place, is_so(rt, state, queue, step)), (place, true));
    }
}

// Whether the bytes of a message are their places, from 1.
fn are_places(bytes: &[u8]) -> bool {
    for (place, byte) in bytes.iter().enumerate() {
        if usize::from(*byte) != place.saturating_add(1) {
            return false;
        }
    }
    true
}

// The message that a frame completes in place, if there is room.
fn whole(
    rt: &impl Abort,
    state: InState,
    queue: &mut TxQueue,
    (means, _, flow, now): &Taken,
) -> Finished {
    completed(
        rt,
        state.into_receiver(),
        queue,
        &wire(rt, means),
        *flow,
        *now,
    )
}

// The frame that ends a session is this one.
fn shows(frame: Frame, shown: &Shown) -> bool {
    is_frame(&frame, shown)
}

fn is_given(message: Finished, queued: &Shown) -> bool {
    let size = message.size() as usize;
    let (bytes, end) = message.given();
    bytes.len() == size && are_places(bytes.as_slice()) && shows(end, queued)
}

// Whether the session ends so. Where the end is wrong, the test may end itself.
fn ends(rt: &impl Abort, state: InState, queue: &mut TxQueue, end: &End) -> bool {
    match end {
        End::Given(taken, queued) => is_given(whole(rt, state, queue, taken), queued),
        End::Refused(taken, queued) => shows(whole(rt, state, queue, taken).refused(), queued),
        End::GivenByValue(taken, queued) => is_given(
            complete(rt, receive(rt, state, taken)),
            queued,
        ),
        End::Aborted(taken, queued) => shows(aborted(rt, receive(rt, state, taken)), queued),
        End::TimedOut(now, queued) => shows(
            aborted(rt, expire(rt, state, Flow::Open, *now)),
            queued,
        ),
        End::Ended(reason, queued) => shows(state.into_receiver().end(*reason), queued),
        End::Closed(queued) => shows(state.close(), queued),
        End::Abort => {
            state.abort();
            true
        }
        End::AbortInPlace => {
            state.into_receiver().abort();
            true
        }
        End::Overrun => {
            state.overrun();
            true
        }
        End::OverrunInPlace => {
            state.into_receiver().overrun();
            true
        }
    }
}

/// A session that begins so does all this, by value and then in place, and ends so.
pub(super) fn does(
    rt: &impl Abort,
    alloc: Global,
    begun: &Begun,
    by_value: &[ByValue],
    steps: &[Step],
    end: &End,
) {
    let mut queue = got(rt, TxQueue::new(alloc));
    let state = go_on(rt, begin(rt, alloc, begun), by_value);
    let mut state = state.into_receiver();
    is_of(rt, &state, begun);
    play(rt, &mut state, &mut queue, steps);
    holds(rt, ends(rt, state.into_state(), &mut queue, end));
}
