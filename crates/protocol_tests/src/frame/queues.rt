//! A queue of frames to be sent, step by step. The steps of a test are a table, which one function plays: a table needs no proof, and each call
//! in a test does. A test ends if memory is refused.
use crate::checks::{got, holds, same};
use crate::means::frame;
use bus_frame::Frame;
use std::alloc::Global;
use std::process::Abort;
use tx_queue::*;

/// What is done with a queue, or is seen of it. A frame is named by its number.
enum Step {
    /// A frame is pushed, or the queue is full.
    Push(u8, Result<(), TxFull>),
    /// The frames below this one are pushed, from 0 on.
    PushBelow(u8),
    /// A frame is pushed where there is a free place.
    PushFree(u8),
    /// The frame in front leaves, if there is one.
    Pop(Option<u8>),
    /// The frames below this one leave in order, from 0 on.
    PopBelow(u8),
    /// How many frames wait.
    Wait(usize),
}

fn frame_of(rt: &impl Abort, number: u8) -> Frame {
    frame(rt, 0x1CEB_2335, &[number])
}

fn push_free(rt: &impl Abort, queue: &mut TxQueue, frame: Frame) {
    holds(rt, queue.free() > 0);
    queue.push_free(frame)
}

fn pushes_below(rt: &impl Abort, queue: &mut TxQueue, end: u8) -> bool {
    for number in 0..end {
        if queue.push(frame_of(rt, number)).is_err() {
            return false;
        }
    }
    true
}

fn pops(rt: &impl Abort, queue: &mut TxQueue, number: Option<u8>) -> bool {
    let expected = match number {
        Some(number) => Some(frame_of(rt, number)),
        None => None,
    };
    queue.front() == expected && queue.pop() == expected
}

fn pops_below(rt: &impl Abort, queue: &mut TxQueue, end: u8) -> bool {
    for number in 0..end {
        if !pops(rt, queue, Some(number)) {
            return false;
        }
    }
    true
}

// Whether a step does, or shows, what it says.
fn is_so(rt: &impl Abort, queue: &mut TxQueue, step: &Step) -> bool {
    match step {
        Step::Push(number, answer) => queue.push(frame_of(rt, *number)) == *answer,
        Step::PushBelow(end) => pushes_below(rt, queue, *end),
        Step::PushFree(number) => {
            push_free(rt, queue, frame_of(rt, *number));
            true
        }
        Step::Pop(number) => pops(rt, queue, *number),
        Step::PopBelow(end) => pops_below(rt, queue, *end),
        Step::Wait(frames) => {
            let is_empty = *frames == 0;
            (queue.len(), queue.is_empty()) == (*frames, is_empty)
                && queue.free().checked_add(*frames) == Some(64)
        }
    }
}

// Ends the test at the first step that isn't so, and prints its place in the table.
fn play(rt: &impl Abort, queue: &mut TxQueue, steps: &[Step]) {
    for (place, step) in steps.iter().enumerate() {
        same(rt, (place, is_so(rt, queue, step)), (place, true));
    }
}

const SIXTY_FOUR: [Step; 9] = [
    Step::Wait(0),
    Step::Pop(None),
    Step::PushBelow(64),
    Step::Wait(64),
    Step::Push(64, Err(TxFull)),
    Step::PopBelow(64),
    Step::Wait(0),
    Step::PushFree(65),
    Step::Pop(Some(65)),
];

#[test]
fn sixty_four_frames_leave_in_order(rt: HostRuntime) {
    let mut queue = got(&rt, TxQueue::new(rt.alloc()));
    play(&rt, &mut queue, &SIXTY_FOUR);
}

const ONE: [Step; 1] = [Step::Push(1, Ok(()))];

const TWO: [Step; 1] = [Step::Push(2, Ok(()))];

// As many frames as there were, but one of them is different.
const OTHER: [Step; 1] = [Step::Pop(Some(1))];

// The image that the queue had until these steps.
fn until(rt: &impl Abort, alloc: Global, queue: &mut TxQueue, steps: &[Step]) -> QueueImage {
    let image = got(rt, queue.image(alloc));
    let before = image.is_of(queue);
    play(rt, queue, steps);
    same(rt, (before, image.is_of(queue)), (true, false));
    image
}

fn show(rt: &impl Abort, alloc: Global, queue: &mut TxQueue) {
    let _empty = until(rt, alloc, queue, &ONE);
    let one = until(rt, alloc, queue, &TWO);
    play(rt, queue, &OTHER);
    holds(rt, !one.is_of(queue));
}

#[test]
fn an_image_has_the_frames_of_its_queue(rt: HostRuntime) {
    let mut queue = got(&rt, TxQueue::new(rt.alloc()));
    show(&rt, rt.alloc(), &mut queue)
}
