//! Worked values, and the success of calls, which no clause states.
use crate::checks::{got, holds, same};
use seg_cut::*;
use std::alloc::Global;
use std::process::Abort;

const MESSAGE: [u8; 9] = [1, 2, 3, 4, 5, 6, 7, 8, 9];

const FIRST: [u8; 7] = [1, 2, 3, 4, 5, 6, 7];

const LAST: [u8; 7] = [8, 9, 0xff, 0xff, 0xff, 0xff, 0xff];

// Sizes of messages, and the packets of each.
const PACKETS: [(u32, u32); 7] = [
    (0, 0),
    (7, 1),
    (8, 2),
    (1785, 255),
    (117_440_505, 16_777_215),
    (117_440_506, 16_777_216),
    (u32::MAX, 613_566_757),
];

#[test]
fn sizes_are_rounded_up_to_packets(rt: HostRuntime) {
    for (size, count) in &PACKETS {
        same(&rt, (*size, packets(*size)), (*size, *count));
    }
}

#[test]
fn last_packet_is_filled_up(rt: HostRuntime) {
    same(&rt, packet(&MESSAGE, 1), FIRST);
    same(&rt, packet(&MESSAGE, 2), LAST);
}

/// What is done with a join, or is seen of it.
enum Step {
    /// A packet is put by its number, or isn't.
    Put(u32, [u8; 7], Result<(), PutError>),
    /// A packet that isn't the last is put where there is room.
    PutInner([u8; 7]),
    /// Room is made for so many packets.
    MakeRoom(u32),
    /// It holds so many bytes, has room for so many packets, and awaits this one.
    Has(usize, u32, u32),
    /// It is of so many bytes and holds so many, and doesn't await the last packet, nor none.
    Begun(u32, usize),
}

fn puts_inner(rt: &impl Abort, join: &mut Join, bytes: &[u8; 7]) {
    let (next, last, room) = (join.next(), packets(join.size()), join.room());
    holds(rt, next < last);
    holds(rt, room > 0);
    join.put_inner(bytes);
}

// Whether a step does, or shows, what it says.
fn is_so(rt: &impl Abort, join: &mut Join, step: &Step) -> bool {
    match step {
        Step::Put(number, bytes, answer) => join.put(*number, *bytes) == *answer,
        Step::PutInner(bytes) => {
            puts_inner(rt, join, bytes);
            true
        }
        Step::MakeRoom(packets) => join.make_room(*packets).is_ok(),
        Step::Has(capacity, room, next) => {
            (join.capacity(), join.room(), join.next()) == (*capacity, *room, *next)
        }
        Step::Begun(size, capacity) => {
            (join.size(), join.capacity()) == (*size, *capacity)
                && (join.is_complete(), join.wants_last()) == (false, false)
        }
    }
}

// Ends the test at the first step that isn't so, and prints its place in the table.
fn play(rt: &impl Abort, join: &mut Join, steps: &[Step]) {
    for (place, step) in steps.iter().enumerate() {
        same(rt, (place, is_so(rt, join, step)), (place, true));
    }
}

// A new join of so many bytes does all this.
fn begun(rt: &impl Abort, alloc: Global, size: u32, steps: &[Step]) -> Join {
    let mut join = Join::new(alloc, size);
    play(rt, &mut join, steps);
    join
}

// Only one packet of two was put.
fn is_unfinished(rt: &impl Abort, join: Join) -> Join {
    match join.finish() {
        Ok(_) => panic!(rt; "finished after one packet of two"),
        Err(join) => join,
    }
}

// Both packets were put.
fn is_finished(rt: &impl Abort, join: Join) {
    let bytes = got(rt, join.finish());
    same(rt, bytes.as_slice(), MESSAGE.as_slice());
}

const FIRST_OF_TWO: [Step; 2] = [
    Step::Put(2, LAST, Err(PutError::WrongPacket)),
    Step::Put(1, FIRST, Ok(())),
];

const LAST_OF_TWO: [Step; 3] = [
    Step::Put(1, FIRST, Err(PutError::WrongPacket)),
    Step::Put(2, LAST, Ok(())),
    Step::Put(3, [0; 7], Err(PutError::WrongPacket)),
];

#[test]
fn nine_bytes_come_in_two_packets(rt: HostRuntime) {
    let join = begun(&rt, rt.alloc(), 9, &FIRST_OF_TWO);
    let mut join = is_unfinished(&rt, join);
    play(&rt, &mut join, &LAST_OF_TWO);
    is_finished(&rt, join);
}

const WHERE_THERE_IS_ROOM: [Step; 4] = [
    Step::MakeRoom(2),
    Step::PutInner(FIRST),
    Step::Has(9, 1, 2),
    Step::Put(2, LAST, Ok(())),
];

#[test]
fn a_packet_is_put_where_there_is_room(rt: HostRuntime) {
    is_finished(&rt, begun(&rt, rt.alloc(), 9, &WHERE_THERE_IS_ROOM));
}

const BLOCK: [Step; 5] = [
    Step::Has(0, 0, 1),
    Step::MakeRoom(64),
    Step::Has(448, 64, 1),
    Step::Put(1, [0; 7], Ok(())),
    Step::Has(448, 63, 2),
];

// No more room than for the whole message.
const REST: [Step; 2] = [Step::MakeRoom(64), Step::Begun(9, 9)];

#[test]
fn room_is_one_block(rt: HostRuntime) {
    let _largest = begun(&rt, rt.alloc(), 117_440_505, &BLOCK);
    let _small = begun(&rt, rt.alloc(), 9, &REST);
}

const ROOM_FOR_TWO: [Step; 1] = [Step::MakeRoom(2)];

const ONE_PUT: [Step; 1] = [Step::PutInner(FIRST)];

fn show(rt: &impl Abort, alloc: Global, join: &mut Join) {
    let empty = got(rt, join.image(alloc));
    let before = empty.is_of(join);
    play(rt, join, &ONE_PUT);
    same(rt, (before, empty.is_of(join)), (true, false));
    let one = got(rt, join.image(alloc));
    holds(rt, one.is_of(join) && one.capacity() == 9);
}

#[test]
fn an_image_is_of_a_join_as_it_was(rt: HostRuntime) {
    let mut join = begun(&rt, rt.alloc(), 9, &ROOM_FOR_TWO);
    show(&rt, rt.alloc(), &mut join);
}
