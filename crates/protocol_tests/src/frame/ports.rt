//! The ports of a station, step by step. The steps of a test are a table, which one function plays: a table needs no proof, and each call in a
//! test does.
use crate::checks::{got, holds, same};
use pgn_ids::{Address, Pgn};
use port_table::*;
use std::alloc::Global;
use std::process::Abort;

const STATION: Address = Address(0x35);

const FECA: u32 = 0xFECA;

/// What is done with the ports of a station, or is seen of them.
enum Step {
    /// A port of FECA for messages of up to so many bytes is opened: its number, or why it isn't.
    Open(u32, Result<u64, Refused>),
    Close(u64, Result<(), Refused>),
    Pause(u64, Result<(), Refused>),
    Resume(u64, Result<(), Refused>),
    /// The ports that a message of this PGN and so many bytes is given to.
    Find(u32, u32, [Option<u64>; 3]),
    /// To how many ports a message of FECA and nine bytes is given.
    Found(usize),
    /// A port of FECA that takes 1,785 bytes, by its number, and whether it is paused.
    Port(u64, bool),
    /// A port that isn't open.
    NoPort(u64),
    /// Whether one of the ports for nine bytes of FECA is paused.
    AnyPaused(bool),
    /// How many are open.
    Count(usize),
}

fn new_table(rt: &impl Abort, alloc: Global) -> PortTable {
    got(rt, PortTable::new(alloc, STATION))
}

fn find(rt: &impl Abort, table: &PortTable, pgn: u32, len: u32) -> PortSet {
    table.find(got(rt, Pgn::new(pgn)), len)
}

fn opens(
    rt: &impl Abort,
    table: &mut PortTable,
    max_len: u32,
    expected: &Result<u64, Refused>,
) -> bool {
    match table.open(got(rt, Pgn::new(FECA)), max_len) {
        Ok(port) => port.station == STATION && Ok(port.number) == *expected,
        Err(cause) => Err(cause) == *expected,
    }
}

// Whether they are just these ports, in this order.
fn are(set: &PortSet, numbers: &[Option<u64>; 3]) -> bool {
    let places = [set.get(0), set.get(1), set.get(2)];
    places == *numbers
        && set.numbers().first().copied() == numbers[0]
        && set.is_empty() == numbers[0].is_none()
        && set.get(set.len()).is_none()
        && (set.len() == 3) == numbers[2].is_some()
}

fn is_port(rt: &impl Abort, table: &PortTable, number: u64, paused: bool) -> bool {
    let port = Port {
        number,
        pgn: got(rt, Pgn::new(FECA)),
        max_len: 1785,
        paused,
    };
    table.get(number) == Some(port) && table.is_paused(number) == paused && table.is_open(number)
}

// Whether a step does, or shows, what it says.
fn is_so(rt: &impl Abort, table: &mut PortTable, step: &Step) -> bool {
    match step {
        Step::Open(max_len, expected) => opens(rt, table, *max_len, expected),
        Step::Close(number, answer) => table.close(*number) == *answer,
        Step::Pause(number, answer) => table.pause(*number) == *answer,
        Step::Resume(number, answer) => table.resume(*number) == *answer,
        Step::Find(pgn, len, numbers) => are(&find(rt, table, *pgn, *len), numbers),
        Step::Found(ports) => find(rt, table, FECA, 9).len() == *ports,
        Step::Port(number, paused) => is_port(rt, table, *number, *paused),
        Step::NoPort(number) => !table.is_open(*number) && table.get(*number).is_none(),
        Step::AnyPaused(paused) => table.any_paused(&find(rt, table, FECA, 9)) == *paused,
        Step::Count(ports) => table.len() == *ports && table.is_empty() == (*ports == 0),
    }
}

// Ends the test at the first step that isn't so, and prints its place in the table.
fn play(rt: &impl Abort, table: &mut PortTable, steps: &[Step]) {
    for (place, step) in steps.iter().enumerate() {
        same(rt, (place, is_so(rt, table, step)), (place, true));
    }
}

// Station 35, which has no port yet, does all this.
fn does(rt: &impl Abort, alloc: Global, steps: &[Step]) {
    let mut table = new_table(rt, alloc);
    holds(rt, table.station() == STATION);
    play(rt, &mut table, steps);
}

const SEVERAL: [Step; 16] = [
    Step::Count(0),
    Step::Open(4000, Ok(1)),
    Step::Open(8, Ok(2)),
    Step::Open(4000, Ok(3)),
    Step::Count(3),
    Step::Find(FECA, 8, [Some(1), Some(2), Some(3)]),
    Step::Find(FECA, 4001, [None; 3]),
    Step::Find(0xFECB, 9, [None; 3]),
    Step::Find(FECA, 9, [Some(1), Some(3), None]),
    Step::Close(1, Ok(())),
    Step::Close(1, Err(Refused::NoSuchPort)),
    Step::NoPort(1),
    Step::Find(FECA, 9, [Some(3), None, None]),
    Step::Open(9, Ok(4)),
    Step::Find(FECA, 9, [Some(3), Some(4), None]),
    Step::Count(3),
];

#[test]
fn several_ports_of_one_pgn(rt: HostRuntime) {
    does(&rt, rt.alloc(), &SEVERAL);
}

const PAUSED: [Step; 14] = [
    Step::Open(1785, Ok(1)),
    Step::Resume(1, Err(Refused::PortNotPaused)),
    Step::AnyPaused(false),
    Step::Pause(1, Ok(())),
    Step::Pause(1, Err(Refused::PortPaused)),
    Step::Port(1, true),
    Step::AnyPaused(true),
    Step::Find(FECA, 1785, [Some(1), None, None]),
    Step::Resume(1, Ok(())),
    Step::Port(1, false),
    Step::AnyPaused(false),
    Step::Close(1, Ok(())),
    Step::Pause(1, Err(Refused::NoSuchPort)),
    Step::Resume(1, Err(Refused::NoSuchPort)),
];

#[test]
fn a_paused_port_is_found_and_holds(rt: HostRuntime) {
    does(&rt, rt.alloc(), &PAUSED);
}

const SIXTEEN: [Step; 21] = [
    Step::Open(9, Ok(1)),
    Step::Open(9, Ok(2)),
    Step::Open(9, Ok(3)),
    Step::Open(9, Ok(4)),
    Step::Open(9, Ok(5)),
    Step::Open(9, Ok(6)),
    Step::Open(9, Ok(7)),
    Step::Open(9, Ok(8)),
    Step::Open(9, Ok(9)),
    Step::Open(9, Ok(10)),
    Step::Open(9, Ok(11)),
    Step::Open(9, Ok(12)),
    Step::Open(9, Ok(13)),
    Step::Open(9, Ok(14)),
    Step::Open(9, Ok(15)),
    Step::Open(9, Ok(16)),
    Step::Open(9, Err(Refused::PortsFull)),
    Step::Close(7, Ok(())),
    Step::Open(9, Ok(17)),
    Step::Open(9, Err(Refused::PortsFull)),
    Step::Found(16),
];

#[test]
fn sixteen_ports(rt: HostRuntime) {
    does(&rt, rt.alloc(), &SIXTEEN);
}

const THREE: [Step; 3] = [
    Step::Open(4000, Ok(1)),
    Step::Open(8, Ok(2)),
    Step::Open(4000, Ok(3)),
];

const FIRST_CLOSED: [Step; 1] = [Step::Close(1, Ok(()))];

// Whether a set has the ports 1 and 3, and is left with 3 without port 1.
fn has_both(set: &PortSet) -> bool {
    for number in set.iter() {
        if !set.contains(*number) {
            return false;
        }
    }
    set.numbers() == [1, 3].as_slice() && set.without(1).numbers() == [3].as_slice()
}

// A set that was found doesn't change.
fn find_and_close(rt: &impl Abort, table: &mut PortTable) {
    play(rt, table, &THREE);
    let both = find(rt, table, FECA, 9);
    play(rt, table, &FIRST_CLOSED);
    holds(rt, has_both(&both) && !table.any_paused(&PortSet::empty()));
}

#[test]
fn a_set_of_ports_stays_as_it_was_found(rt: HostRuntime) {
    let mut table = new_table(&rt, rt.alloc());
    find_and_close(&rt, &mut table);
}

fn is_of(image: &PortsImage, table: &PortTable) -> bool {
    image.is_of(table)
}

const OPENED: [Step; 1] = [Step::Open(9, Ok(1))];

const THEN_PAUSED: [Step; 1] = [Step::Pause(1, Ok(()))];

const THEN_CLOSED: [Step; 1] = [Step::Close(1, Ok(()))];

// The table equals its image until these steps.
fn until(rt: &impl Abort, alloc: Global, table: &mut PortTable, steps: &[Step]) {
    let image = got(rt, table.image(alloc));
    let before = is_of(&image, table);
    play(rt, table, steps);
    same(rt, (before, is_of(&image, table)), (true, false));
}

fn show(rt: &impl Abort, alloc: Global, table: &mut PortTable) {
    let none = got(rt, table.image(alloc));
    until(rt, alloc, table, &OPENED);
    until(rt, alloc, table, &THEN_PAUSED);
    until(rt, alloc, table, &THEN_CLOSED);
    // None is open, as before the first was opened, but one number was used.
    holds(rt, !is_of(&none, table));
}

#[test]
fn an_image_has_the_ports_of_its_table(rt: HostRuntime) {
    let mut table = new_table(&rt, rt.alloc());
    show(&rt, rt.alloc(), &mut table);
}
