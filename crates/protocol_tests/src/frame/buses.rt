//! A bus, step by step. The steps of a test are a table, which one function plays: a table needs no proof, and each call in a test does.
use crate::checks::{got, holds, same};
use crate::means::frame;
use bus_frame::Frame;
use bus_order::*;
use std::alloc::Global;
use std::process::Abort;

// Put again if no memory is found, since nothing has changed.
fn put(log: &mut BusLog, frame: Frame) -> Result<(), PutError> {
    match log.put(frame) {
        Err(PutError::OutOfMemory) => log.put(frame),
        answer => answer,
    }
}

// The frame of a place, which has that number as its bytes.
fn frame_of(rt: &impl Abort, place: u64) -> Frame {
    frame(rt, 0x1CEB_2335, &place.to_le_bytes())
}

fn some_frame(rt: &impl Abort, place: &Option<u64>) -> Option<Frame> {
    match place {
        Some(place) => Some(frame_of(rt, *place)),
        None => None,
    }
}

/// What is done with a bus, or is seen of it. A frame is named by its place; `None` is no frame.
enum Step {
    /// A frame is put, or the bus is full.
    Put(u64, Result<(), PutError>),
    /// A frame is put that the cursors below this one have passed.
    PutPassed(u64, usize),
    /// A cursor takes its next frame.
    Take(usize, Option<u64>),
    /// What all cursors have passed is released.
    Release,
    /// The next frame of the first cursor, which doesn't take it.
    See(Option<u64>),
    /// A cursor passes the frame that it saw.
    Pass(usize),
    /// The frame that the first cursor took last.
    Repeat(Option<u64>),
    /// The first cursor passes over so many frames, or can't.
    Skip(u64, bool),
    /// How many frames wait for a cursor.
    Wait(usize, u64),
    /// Whether a frame is kept.
    Keep(u64, bool),
    /// Whether all cursors have passed all frames.
    Level(bool),
    /// How many frames were put.
    Count(u64),
}

// The calls of which more is required than a table can say.
fn put_passed(rt: &impl Abort, log: &mut BusLog, frame: Frame, n: usize) {
    holds(rt, log.are_level() && n <= log.stations());
    log.put_passed(frame, n)
}

fn next(rt: &impl Abort, log: &mut BusLog, cursor: usize) -> Option<Frame> {
    holds(rt, cursor < log.stations());
    log.next(cursor)
}

fn pass(rt: &impl Abort, log: &mut BusLog, cursor: usize) {
    holds(rt, cursor < log.stations() && log.waiting(cursor) > 0);
    log.pass(cursor)
}

fn waiting(rt: &impl Abort, log: &BusLog, cursor: usize) -> u64 {
    holds(rt, cursor < log.stations());
    log.waiting(cursor)
}

// The next frame of the first cursor, and the one that it took last.
fn seen(rt: &impl Abort, log: &BusLog) -> (Option<Frame>, Option<Frame>) {
    holds(rt, log.stations() > 0);
    (log.peek(0).copied(), log.again(0))
}

fn skip(rt: &impl Abort, log: &mut BusLog, frames: u64) -> bool {
    holds(rt, log.stations() > 0);
    log.skip(0, frames)
}

// Whether a step does, or shows, what it says.
fn is_so(rt: &impl Abort, log: &mut BusLog, step: &Step) -> bool {
    match step {
        Step::Put(place, answer) => put(log, frame_of(rt, *place)) == *answer,
        Step::PutPassed(place, n) => {
            put_passed(rt, log, frame_of(rt, *place), *n);
            true
        }
        Step::Take(cursor, place) => next(rt, log, *cursor) == some_frame(rt, place),
        Step::Release => {
            log.release();
            true
        }
        Step::See(place) => seen(rt, log).0 == some_frame(rt, place),
        Step::Pass(cursor) => {
            pass(rt, log, *cursor);
            true
        }
        Step::Repeat(place) => seen(rt, log).1 == some_frame(rt, place),
        Step::Skip(frames, done) => skip(rt, log, *frames) == *done,
        Step::Wait(cursor, frames) => waiting(rt, log, *cursor) == *frames,
        Step::Keep(place, true) => log.frame(*place) == Some(frame_of(rt, *place)),
        Step::Keep(place, false) => log.frame(*place).is_none(),
        Step::Level(level) => log.are_level() == *level,
        Step::Count(frames) => log.len() == *frames,
    }
}

// Ends the test at the first step that isn't so, and prints its place in the table.
fn play(rt: &impl Abort, log: &mut BusLog, steps: &[Step]) {
    for (place, step) in steps.iter().enumerate() {
        same(rt, (place, is_so(rt, log, step)), (place, true));
    }
}

fn fill(rt: &impl Abort, log: &mut BusLog) {
    for place in 1..=4096u64 {
        holds(rt, put(log, frame_of(rt, place)) == Ok(()));
    }
}

// The frame at the lowest cursor is kept, so that one frame taken by each station makes no room.
const OF_A_FULL_BUS: [Step; 16] = [
    Step::Put(4097, Err(PutError::BusFull)),
    Step::Take(0, Some(1)),
    Step::Release,
    Step::Take(1, Some(1)),
    Step::Release,
    Step::Put(4097, Err(PutError::BusFull)),
    Step::Take(0, Some(2)),
    Step::Release,
    Step::Take(1, Some(2)),
    Step::Release,
    Step::Put(4097, Ok(())),
    Step::Count(4097),
    Step::Keep(1, false),
    Step::Keep(2, true),
    Step::Keep(4097, true),
    Step::Keep(4098, false),
];

#[test]
fn frames_are_kept_from_the_lowest_cursor_on(rt: HostRuntime) {
    let mut log = got(&rt, BusLog::new(rt.alloc(), 2));
    holds(&rt, log.stations() == 2 && log.is_empty());
    fill(&rt, &mut log);
    play(&rt, &mut log, &OF_A_FULL_BUS);
}

const FOR_ALL: [Step; 25] = [
    Step::Level(false),
    Step::Put(1, Ok(())),
    Step::Level(false),
    Step::Take(0, Some(1)),
    Step::Release,
    Step::Take(1, Some(1)),
    Step::Release,
    Step::Level(true),
    Step::PutPassed(2, 2),
    Step::Level(true),
    Step::Keep(1, false),
    Step::Repeat(Some(2)),
    Step::See(None),
    // The frame that only the first cursor has passed is kept for the other.
    Step::PutPassed(3, 1),
    Step::Level(false),
    Step::Keep(2, true),
    Step::Repeat(Some(3)),
    Step::Take(1, Some(3)),
    Step::Release,
    Step::PutPassed(4, 0),
    Step::See(Some(4)),
    Step::Take(0, Some(4)),
    Step::Release,
    Step::Take(1, Some(4)),
    Step::Count(4),
];

#[test]
fn a_frame_that_all_take_comes_in_the_place_of_the_newest(rt: HostRuntime) {
    let mut log = got(&rt, BusLog::new(rt.alloc(), 2));
    play(&rt, &mut log, &FOR_ALL);
}

const SEEN_AND_TAKEN: [Step; 17] = [
    Step::See(None),
    Step::Put(1, Ok(())),
    Step::Put(2, Ok(())),
    Step::Put(3, Ok(())),
    Step::See(Some(1)),
    Step::Pass(0),
    Step::See(Some(2)),
    Step::Pass(0),
    Step::See(Some(3)),
    Step::Pass(0),
    Step::See(None),
    Step::Repeat(Some(3)),
    Step::Pass(1),
    Step::Pass(1),
    Step::Keep(1, false),
    Step::Keep(2, true),
    Step::Wait(1, 1),
];

#[test]
fn a_station_sees_a_frame_and_takes_it(rt: HostRuntime) {
    let mut log = got(&rt, BusLog::new(rt.alloc(), 2));
    play(&rt, &mut log, &SEEN_AND_TAKEN);
}

const REPEATED_AND_PASSED_OVER: [Step; 20] = [
    Step::Put(1, Ok(())),
    Step::Put(2, Ok(())),
    Step::Put(3, Ok(())),
    Step::Put(4, Ok(())),
    Step::Put(5, Ok(())),
    Step::Repeat(None),
    Step::Take(0, Some(1)),
    Step::Release,
    Step::Repeat(Some(1)),
    Step::Wait(0, 4),
    Step::Skip(5, false),
    Step::Skip(2, true),
    Step::Release,
    Step::Repeat(None),
    Step::Keep(3, true),
    Step::Take(0, Some(4)),
    Step::Skip(0, true),
    Step::Repeat(None),
    Step::Take(0, Some(5)),
    Step::Take(0, None),
];

#[test]
fn a_station_takes_repeats_and_passes_over(rt: HostRuntime) {
    let mut log = got(&rt, BusLog::new(rt.alloc(), 1));
    play(&rt, &mut log, &REPEATED_AND_PASSED_OVER);
}

fn is_of(image: &BusImage, log: &BusLog) -> bool {
    image.is_of(log)
}

fn show(rt: &impl Abort, alloc: Global, log: &mut BusLog) {
    let new = got(rt, log.image(alloc));
    let is_of_new = is_of(&new, log);
    holds(rt, put(log, frame_of(rt, 1)).is_ok());
    same(rt, (is_of_new, is_of(&new, log)), (true, false));
    let one = got(rt, log.image(alloc));
    let is_of_one = is_of(&one, log);
    holds(rt, next(rt, log, 0) == Some(frame_of(rt, 1)));
    same(rt, (is_of_one, is_of(&one, log)), (true, false));
}

#[test]
fn an_image_has_the_frames_and_the_cursors_of_its_bus(rt: HostRuntime) {
    let mut log = got(&rt, BusLog::new(rt.alloc(), 2));
    show(&rt, rt.alloc(), &mut log)
}
