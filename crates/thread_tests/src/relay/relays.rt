//! What a relay carries, between an inbox and a client without their segments.
use crate::checks::{got, holds, same};
use crate::relay::ends::*;
use message_events::Bytes;
use pgn_ids::Address;
use port_relay::{Relayed, Route};
use segment_rings::{Client, Delivery, Inbox};
use segment_shared::Refusal;
use std::alloc::{AllocError, Global};
use std::process::Abort;
use std::sync::Wait;
use std::thread::Threads;

// The first byte of a message, which a test knows it by.
fn starts_with(rt: &impl Abort, bytes: &Bytes, first: u8) {
    holds(rt, bytes.len() > 0);
    same(rt, bytes.as_slice()[0], first);
}

fn is_submitted(rt: &impl Abort, client: &Client, k: usize, first: u8) {
    let submissions = client.submitted();
    holds(rt, k < submissions.len());
    starts_with(rt, &submissions[k].bytes, first);
}

fn is_left(rt: &impl Abort, left: &[Delivery], k: usize, first: u8) {
    holds(rt, k < left.len());
    starts_with(rt, &left[k].bytes, first);
}

// Gives so many messages of nine bytes, the first of which are 1, 2, 3 and so on.
fn give_nines(rt: &impl Abort, alloc: Global, ends: &mut Ends, many: u8) {
    for k in 0..many {
        give(rt, alloc, &mut ends.door, k.wrapping_add(1), 9);
    }
}

fn relay<R: Threads + Wait + Abort + Sync>(
    rt: &R,
    alloc: Global,
    ends: &mut Ends,
    job: &Job,
) -> Result<Relayed, AllocError> {
    relayed(rt, alloc, &mut ends.inbox, &mut ends.client, job)
}

// Relays up to this limit. So many are pulled, pushed and left.
fn carry<R: Threads + Wait + Abort + Sync>(
    rt: &R,
    alloc: Global,
    ends: &mut Ends,
    to: Address,
    limit: u64,
    meant: [u64; 3],
) -> Vec<Delivery> {
    let job = Job {
        to,
        limit,
        turns: TURNS,
    };
    let carried = got(rt, relay(rt, alloc, ends, &job));
    got(rt, counts(&carried, meant));
    carried.left
}

#[test]
fn a_route_leads_to_one_station(rt: HostRuntime) {
    same(&rt, Route::new(Address::NULL), Err(Refusal::NoSuchStation));
    same(
        &rt,
        Route::new(Address::GLOBAL),
        Err(Refusal::NoSuchStation),
    );
    same(&rt, got(&rt, Route::new(FAR)).to(), FAR);
}

fn carry_all<R: Threads + Wait + Abort + Sync>(rt: &R, alloc: Global, ends: &mut Ends) {
    give_nines(rt, alloc, ends, 40);
    drop(carry(rt, alloc, ends, FAR, 40, [40, 40, 0]));
    is_submitted(rt, &ends.client, 0, 1);
    is_submitted(rt, &ends.client, 39, 40);
}

#[test]
fn messages_are_carried_in_order(rt: HostRuntime) {
    let mut ends = Ends::new(&rt, rt.alloc());
    carry_all(&rt, rt.alloc(), &mut ends);
    drop(ends);
}

fn waits(rt: &impl Abort, inbox: &mut Inbox, first: u8) {
    let came = got(rt, inbox.try_receive());
    let delivery = got(rt, came.ok_or("nothing waits"));
    starts_with(rt, &delivery.bytes, first);
    drop(delivery);
}

fn carry_two_of_three<R: Threads + Wait + Abort + Sync>(rt: &R, alloc: Global, ends: &mut Ends) {
    give_nines(rt, alloc, ends, 3);
    drop(carry(rt, alloc, ends, FAR, 2, [2, 2, 0]));
    waits(rt, &mut ends.inbox, 3);
}

#[test]
fn no_more_is_received_than_the_limit(rt: HostRuntime) {
    let mut ends = Ends::new(&rt, rt.alloc());
    carry_two_of_three(&rt, rt.alloc(), &mut ends);
    drop(ends);
}

// Messages by their first bytes and their lengths: the third is too short to be submitted.
const WITH_A_SHORT_ONE: [(u8, u8); 5] = [(1, 9), (2, 9), (3, 8), (4, 9), (5, 9)];

fn carry_up_to_a_short_one<R: Threads + Wait + Abort + Sync>(
    rt: &R,
    alloc: Global,
    ends: &mut Ends,
) {
    for (first, many) in &WITH_A_SHORT_ONE {
        give(rt, alloc, &mut ends.door, *first, *many);
    }
    let job = Job {
        to: FAR,
        limit: 5,
        turns: TURNS,
    };
    let carried = got(rt, relay(rt, alloc, ends, &job));
    got(rt, is_up_to_a_short_one(&carried));
    is_left(rt, carried.left.as_slice(), 0, 3);
    drop(carried);
}

// Two are submitted, and the third is left, with those received behind it.
fn is_up_to_a_short_one(carried: &Relayed) -> Result<(), AllocError> {
    if carried.pushed != 2 || carried.pulled < 3 {
        return Err(AllocError);
    }
    Ok(())
}

#[test]
fn what_may_not_be_submitted_ends_the_submitting(rt: HostRuntime) {
    let mut ends = Ends::new(&rt, rt.alloc());
    carry_up_to_a_short_one(&rt, rt.alloc(), &mut ends);
    drop(ends);
}

fn carry_to_its_own<R: Threads + Wait + Abort + Sync>(rt: &R, alloc: Global, ends: &mut Ends) {
    give_nines(rt, alloc, ends, 1);
    drop(carry(rt, alloc, ends, GATEWAY, 1, [1, 0, 1]));
}

#[test]
fn a_client_sends_nothing_to_its_own_station(rt: HostRuntime) {
    let mut ends = Ends::new(&rt, rt.alloc());
    carry_to_its_own(&rt, rt.alloc(), &mut ends);
    drop(ends);
}

// The client's ring has four places left: the fifth message waits with the worker that submits, sixteen in the line, and one with the
// worker that receives.
fn carry_into_a_full_ring<R: Threads + Wait + Abort + Sync>(
    rt: &R,
    alloc: Global,
    ends: &mut Ends,
) {
    give_nines(rt, alloc, ends, 40);
    for _ in 0..60 {
        submit(rt, &mut ends.client, RECEIVER, bytes(rt, alloc, 0x80, 9));
    }
    let left = carry(rt, alloc, ends, FAR, 40, [22, 4, 18]);
    is_submitted(rt, &ends.client, 63, 4);
    is_left(rt, left.as_slice(), 0, 5);
    is_left(rt, left.as_slice(), 17, 22);
    drop(left);
}

#[test]
fn a_full_line_holds_what_is_received(rt: HostRuntime) {
    let mut ends = Ends::new(&rt, rt.alloc());
    carry_into_a_full_ring(&rt, rt.alloc(), &mut ends);
    drop(ends);
}

// With so many turns, at most so many messages are received.
fn carry_at_most<R: Threads + Wait + Abort + Sync>(
    rt: &R,
    alloc: Global,
    ends: &mut Ends,
    turns: u64,
) -> Relayed {
    let job = Job {
        to: FAR,
        limit: 3,
        turns,
    };
    let carried = got(rt, relay(rt, alloc, ends, &job));
    holds(rt, carried.pulled <= turns);
    carried
}

fn carry_by_turns<R: Threads + Wait + Abort + Sync>(rt: &R, alloc: Global, ends: &mut Ends) {
    give_nines(rt, alloc, ends, 3);
    let carried = carry_at_most(rt, alloc, ends, 0);
    got(rt, counts(&carried, [0, 0, 0]));
    drop(carried);
    drop(carry_at_most(rt, alloc, ends, 1));
    drop(carry_at_most(rt, alloc, ends, 2));
}

#[test]
fn turns_run_out(rt: HostRuntime) {
    let mut ends = Ends::new(&rt, rt.alloc());
    carry_by_turns(&rt, rt.alloc(), &mut ends);
    drop(ends);
}

// A relay for which memory may be refused on the way; what was left is submitted before the next one.
fn try_to_carry<R: Threads + Wait + Abort + Sync>(rt: &R, alloc: Global, ends: &mut Ends) {
    let job = Job {
        to: FAR,
        limit: 3,
        turns: TURNS,
    };
    if let Ok(carried) = relay(rt, alloc, ends, &job) {
        submit_all(rt, &mut ends.client, carried.left);
    }
}

fn submit_all(rt: &impl Abort, client: &mut Client, left: Vec<Delivery>) {
    for delivery in left {
        submit(rt, client, FAR, delivery.bytes);
    }
}

// If memory is refused, the next relay continues.
fn carry_in_parts<R: Threads + Wait + Abort + Sync>(rt: &R, alloc: Global, ends: &mut Ends) {
    give_nines(rt, alloc, ends, 3);
    for _ in 0..3 {
        try_to_carry(rt, alloc, ends);
        if ends.inbox.received().len() == 3 {
            break;
        }
    }
    same(rt, ends.client.submitted().len(), 3);
    is_submitted(rt, &ends.client, 0, 1);
    is_submitted(rt, &ends.client, 1, 2);
    is_submitted(rt, &ends.client, 2, 3);
}

#[test]
fn a_relay_goes_on_where_the_last_one_ended(rt: HostRuntime) {
    let mut ends = Ends::new(&rt, rt.alloc());
    carry_in_parts(&rt, rt.alloc(), &mut ends);
    drop(ends);
}
