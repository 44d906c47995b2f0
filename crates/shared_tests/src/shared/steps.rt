//! What single calls of a test answer, without what they promise. Memory that is refused is no answer: the call is made again then.
pub(super) use crate::calls::*;
pub(super) use crate::checks::{got, holds, same};
use pgn_ids::Address;
use segment_shared::{
    Accepted, Client, Inbox, Live, NotDetached, NotMade, Note, Refusal, Reply, WorkerCall,
};
use std::alloc::Global;
use std::process::Abort;
use tp_wire::Outcome;

pub(super) const A: Address = Address(0x21);

pub(super) const B: Address = Address(0x22);

pub(super) const R: Address = Address(0x35);

// Two turns more than the longest exchange takes: a turn that finds no memory leaves what it was to do to the next.
const MANY: u64 = 14;

// A segment with the stations 21, 22 and 35.
pub(super) fn three(rt: &impl Abort, alloc: Global) -> Live {
    got(rt, Live::new(alloc, &[A, B, R]))
}

// A port of 35.
pub(super) fn port(rt: &impl Abort, live: &mut Live) -> Inbox {
    got(rt, live.open_port(R, feca(rt), 1785))
}

pub(super) fn client(rt: &impl Abort, live: &mut Live, station: Address) -> Client {
    got(rt, live.attach(station))
}

// The steps of a test are functions of their own, which own nothing. What a test owns is carried through the proof of each step in the
// test itself, which took twice as long. So a segment, its ends and the steps have one function each.
pub(super) fn port_and_client(rt: &impl Abort, live: &mut Live) -> (Inbox, Client) {
    let inbox = port(rt, live);
    let sender = client(rt, live, A);
    (inbox, sender)
}

// Turns of the workers of stations 21 and 35 and of the bus, one after another.
pub(super) fn go_on(live: &mut Live) {
    for _ in 0..MANY {
        let _sender = live.station_turn(A);
        let _receiver = live.station_turn(R);
        let _bus = live.bus_turn();
    }
}

// The ticket of what a client submitted last, which is its place among all that it submitted.
pub(super) fn last_ticket(sender: &Client) -> u64 {
    sender
        .submitted_gone()
        .saturating_add(sender.submitted().len() as u64)
}

// Whether a submission of so many bytes has this ticket, or is refused for this cause. Those of a refused one are handed back.
pub(super) fn answers(
    rt: &impl Abort,
    alloc: Global,
    sender: &mut Client,
    to: Address,
    many: u8,
    expected: Result<u64, Refusal>,
) -> Option<bool> {
    match sender.submit(to, FECA, bytes(rt, alloc, 1, many)) {
        Ok(ticket) => Some(expected == Ok(ticket)),
        Err(refused) => {
            holds(rt, refused.bytes.len() == many as usize);
            match refused.refusal {
                Some(cause) => Some(expected == Err(cause)),
                None => None,
            }
        }
    }
}

pub(super) fn accepts(live: &mut Live, sender: &Client, expected: Accepted) -> Option<bool> {
    match live.accept(sender.id()) {
        Ok(accepted) => Some(accepted == expected),
        Err(_) => None,
    }
}

// Whether the next note has this ticket and this outcome.
pub(super) fn notes(sender: &mut Client, ticket: u64, outcome: Outcome) -> Option<bool> {
    match sender.try_outcome() {
        Ok(Some(note)) => Some(note.ticket == ticket && note.outcome == outcome),
        Ok(None) => Some(false),
        Err(_) => None,
    }
}

// Whether a delivery comes or doesn't, as it is to.
pub(super) fn receives(inbox: &mut Inbox, comes: bool) -> Option<bool> {
    match inbox.try_receive() {
        Ok(delivery) => Some(delivery.is_some() == comes),
        Err(_) => None,
    }
}

// Whether something is made, or refused for the cause that there is.
pub(super) fn makes<T: Drop>(made: Result<T, NotMade>, cause: Option<Refusal>) -> Option<bool> {
    match made {
        Ok(_) => Some(cause.is_none()),
        Err(NotMade::Refused(refusal)) => Some(cause == Some(refusal)),
        Err(NotMade::OutOfMemory) => None,
    }
}

// Whether the closing of a port hands out so many deliveries, or is refused for this cause.
pub(super) fn closes(
    live: &mut Live,
    inbox: &mut Inbox,
    expected: Result<usize, Refusal>,
) -> Option<bool> {
    match live.close_on(inbox) {
        Ok(closed) => Some(expected == Ok(closed.rest.len())),
        Err(NotMade::Refused(refusal)) => Some(expected == Err(refusal)),
        Err(NotMade::OutOfMemory) => None,
    }
}

pub(super) fn detaches(live: &mut Live, sender: &Client) -> bool {
    let first = live.detach(sender.id());
    let again = live.detach(sender.id());
    let other = live.detach(16);
    first == Ok(()) && again == Err(NotDetached::Gone) && other == Err(NotDetached::NoSuchClient)
}
