//! A relay between two segments.
use crate::checks::{got, holds, same};
use crate::relay::ends::*;
use pgn_ids::Address;
use segment_shared::{Client, Delivery, Inbox, Live};
use std::alloc::Global;
use std::process::Abort;
use std::sync::Wait;
use std::thread::Threads;

// Three turns more than the exchange takes.
const MANY: u64 = 14;

// A segment with a client of one station and a port of another.
#[derive(Drop)]
struct Segment {
    live: Live,
    sender: Address,
    client: Client,
    receiver: Address,
    inbox: Inbox,
}

impl Segment {
    fn new(rt: &impl Abort, alloc: Global, sender: Address, receiver: Address) -> Segment {
        let mut live = got(rt, Live::new(alloc, &[sender, receiver]));
        let inbox = got(rt, live.open_port(receiver, feca(rt), 1785));
        let client = got(rt, live.attach(sender));
        Segment {
            live,
            sender,
            client,
            receiver,
            inbox,
        }
    }

    // Turns of the workers of both stations and of the bus, one after another.
    fn go_on(&mut self) {
        for _ in 0..MANY {
            let _sender = self.live.station_turn(self.sender);
            let _receiver = self.live.station_turn(self.receiver);
            let _bus = self.live.bus_turn();
        }
    }
}

fn is_given(rt: &impl Abort, given: &Delivery) {
    same(rt, given.from, GATEWAY);
    same(rt, given.to, FAR);
    same(rt, given.pgn.raw(), FECA);
    holds(
        rt,
        given.bytes.as_slice() == [1, 2, 3, 4, 5, 6, 7, 8, 9].as_slice(),
    );
}

fn receives(rt: &impl Abort, inbox: &mut Inbox) {
    let came = got(rt, inbox.try_receive());
    let given = got(rt, came.ok_or("nothing came"));
    is_given(rt, &given);
    drop(given);
}

// One message is relayed from the inbox of one segment by a client of the other.
fn carry<R: Threads + Wait + Abort + Sync>(
    rt: &R,
    alloc: Global,
    inbox: &mut Inbox,
    client: &mut Client,
) {
    let job = Job {
        to: FAR,
        limit: 1,
        turns: TURNS,
    };
    let carried = got(rt, relayed(rt, alloc, inbox, client, &job));
    got(rt, counts(&carried, [1, 1, 0]));
    drop(carried);
}

fn send_and_carry<R: Threads + Wait + Abort + Sync>(
    rt: &R,
    alloc: Global,
    near: &mut Segment,
    far: &mut Segment,
) {
    submit(rt, &mut near.client, RECEIVER, bytes(rt, alloc, 1, 9));
    near.go_on();
    carry(rt, alloc, &mut near.inbox, &mut far.client);
    far.go_on();
    receives(rt, &mut far.inbox);
}

#[test]
fn a_message_comes_to_the_second_segment(rt: HostRuntime) {
    let mut near = Segment::new(&rt, rt.alloc(), SENDER, RECEIVER);
    let mut far = Segment::new(&rt, rt.alloc(), GATEWAY, FAR);
    send_and_carry(&rt, rt.alloc(), &mut near, &mut far);
    drop(near);
    drop(far);
}
