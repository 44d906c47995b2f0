//! Both ends of each ring on one thread, step by step: each call on its happy path, full and empty rings, and places that are free again. The
//! steps of a test are a table, which one function plays: a table needs no proof, and each call in a test does.
ghost use Rattle.std.specs.Prelude.{◌≡◌};

use crate::calls::*;
use crate::checks::{got, holds, same};
use message_events::Bytes;
use pgn_ids::Address;
use port_table::PortId;
use segment_law::Refusal;
use segment_rings::{
    Bell, Buffer, Client, Delivery, Door, Doorway, Inbox, Note, Offer, Seat, Submission,
};
use std::alloc::Global;
use std::process::Abort;
use std::sync::Wait;
use tp_wire::Outcome;

const SENDER: Address = Address(0x21);

const RECEIVER: Address = Address(0x35);

const NINE: [u8; 9] = [1, 2, 3, 4, 5, 6, 7, 8, 9];

fn nine(rt: &impl Abort, alloc: Global) -> Bytes {
    bytes(rt, alloc, 1, 9)
}

fn note_of(ticket: u64) -> Note {
    Note {
        ticket,
        to: RECEIVER,
        number: ticket,
        outcome: Outcome::Acknowledged,
    }
}

fn delivery(rt: &impl Abort, alloc: Global) -> Delivery {
    Delivery {
        from: SENDER,
        to: RECEIVER,
        pgn: feca(rt),
        bytes: nine(rt, alloc),
    }
}

// A copy of the delivery.
fn again(rt: &impl Abort, alloc: Global, delivery: &Delivery) -> Delivery
    ensures { result ≡ delivery.now }
{
    let room = got(rt, Buffer::new(alloc, delivery.bytes.len()));
    Delivery {
        from: delivery.from,
        to: delivery.to,
        pgn: delivery.pgn,
        bytes: room.filled(&delivery.bytes),
    }
}

/// What is done with a client of 21 and its seat, or is seen of them. Messages are nine bytes to 35.
enum Step {
    /// A message is submitted, and has the ticket that follows the last one.
    Submit,
    /// So many bytes for this destination and PGN are handed back for this cause.
    Refuse(Address, u32, u8, Refusal),
    /// The front message is taken.
    Take,
    /// No message waits.
    Nothing,
    /// A note of the ticket that follows that of the last one is made, or the ring of notes has no place.
    Note(bool),
    /// The client reads the note of this ticket, or none.
    Read(Option<u64>),
    /// None comes while the client waits.
    Wait,
    /// The seat was closed, and then a note is made.
    NoteAfterEnd,
    Close,
    Cut,
    /// The submissions of the client: how many aren't kept any more, and how many are.
    Submitted(u64, usize),
    /// The same of the notes that it read.
    WasRead(u64, usize),
    /// The same of the notes that the seat made.
    Notes(u64, usize),
    /// How many messages were taken.
    Taken(u64),
}

/// So many rounds of these steps.
type Rounds = (u64, &'static [Step]);

// The number that follows those of so many that aren't kept any more, and so many that are.
fn next(gone: u64, kept: usize) -> u64 {
    gone.saturating_add(kept as u64).saturating_add(1)
}

fn submits(rt: &impl Abort, alloc: Global, client: &mut Client) -> bool {
    let ticket = next(client.submitted_gone(), client.submitted().len());
    let answer = submitted(rt, client, RECEIVER, FECA, nine(rt, alloc));
    got(rt, answer) == ticket
}

fn is_refused(
    rt: &impl Abort,
    client: &mut Client,
    to: Address,
    pgn: u32,
    bytes: Bytes,
    cause: Refusal,
) -> bool {
    let len = bytes.len();
    match submitted(rt, client, to, pgn, bytes) {
        Ok(_) => false,
        Err(refused) => refused.refusal == Some(cause) && refused.bytes.len() == len,
    }
}

// A client of the sender with this number, and its seat.
fn seated(rt: &impl Abort, alloc: Global, id: u64) -> (Seat, Client) {
    let bell = got(rt, Bell::new(alloc));
    got(rt, Seat::new(alloc, id, SENDER, bell))
}

// Makes a note, if a submission waits and the ring of notes has a place.
fn note_one(rt: &impl Abort, seat: &mut Seat) -> bool {
    let ticket = next(seat.notes_gone(), seat.notes().len());
    match seat.offer(0) {
        Offer::Ready => {
            got(rt, seat.reserve(1));
            seat.note(note_of(ticket));
            true
        }
        Offer::Empty | Offer::Owed => false,
    }
}

// Whether the front submission is nine bytes to 35.
fn takes_nine(seat: &mut Seat) -> bool {
    match seat.offer(0) {
        Offer::Ready => seat.taken() < 1000 && is_submitted(&seat.take()),
        Offer::Empty | Offer::Owed => false,
    }
}

fn is_submitted(submission: &Submission) -> bool {
    submission.to == RECEIVER
        && submission.pgn.raw() == FECA
        && submission.bytes.as_slice() == NINE.as_slice()
}

// Closes a seat with room for a note and a submission waiting, and then makes the note.
fn note_after_the_end(rt: &impl Abort, seat: &mut Seat) -> bool {
    match seat.offer(0) {
        Offer::Ready => {
            got(rt, seat.reserve(1));
            seat.close();
            seat.note(note_of(1));
            true
        }
        Offer::Empty | Offer::Owed => false,
    }
}

fn reads(rt: &impl Abort, client: &mut Client, ticket: &Option<u64>) -> bool {
    let note = match ticket {
        Some(ticket) => Some(note_of(*ticket)),
        None => None,
    };
    got(rt, client.try_outcome()) == note
}

fn closes(seat: &mut Seat) -> bool {
    let before = seat.is_active();
    seat.close();
    before && !seat.is_active()
}

// Whether a step does, or shows, what it says.
fn is_so(
    rt: &(impl Abort + Wait),
    alloc: Global,
    seat: &mut Seat,
    client: &mut Client,
    step: &Step,
) -> bool {
    match step {
        Step::Submit => submits(rt, alloc, client),
        Step::Refuse(to, pgn, many, cause) => {
            is_refused(rt, client, *to, *pgn, bytes(rt, alloc, 1, *many), *cause)
        }
        Step::Take => takes_nine(seat),
        Step::Nothing => seat.offer(0) == Offer::Empty,
        Step::Note(has_place) => note_one(rt, seat) == *has_place,
        Step::Read(ticket) => reads(rt, client, ticket),
        Step::Wait => got(rt, client.outcome(rt, 2)).is_none(),
        Step::NoteAfterEnd => note_after_the_end(rt, seat),
        Step::Close => closes(seat),
        Step::Cut => {
            seat.cut();
            true
        }
        Step::Submitted(gone, kept) => {
            client.submitted_gone() == *gone && client.submitted().len() == *kept
        }
        Step::WasRead(gone, kept) => client.read_gone() == *gone && client.read().len() == *kept,
        Step::Notes(gone, kept) => seat.notes_gone() == *gone && seat.notes().len() == *kept,
        Step::Taken(messages) => seat.taken() == *messages,
    }
}

// Ends the test at the first step that isn't so, and prints its places in the tables.
fn play(
    rt: &(impl Abort + Wait),
    alloc: Global,
    seat: &mut Seat,
    client: &mut Client,
    tables: &[Rounds],
) {
    same(rt, (client.id(), seat.id()), (3, 3));
    same(rt, (client.station(), seat.station()), (SENDER, SENDER));
    for (table, (times, steps)) in tables.iter().enumerate() {
        for _ in 0..*times {
            for (place, step) in steps.iter().enumerate() {
                let so = is_so(rt, alloc, seat, client, step);
                same(rt, (table, place, so), (table, place, true));
            }
        }
    }
}

// A new client and its seat do all this.
fn does(rt: &(impl Abort + Wait), alloc: Global, tables: &[Rounds]) {
    let (mut seat, mut client) = seated(rt, alloc, 3);
    play(rt, alloc, &mut seat, &mut client, tables);
    drop(seat);
    drop(client);
}

const TAKEN_AND_READ: [Step; 11] = [
    Step::Nothing,
    Step::Submit,
    Step::Note(true),
    Step::Take,
    Step::Read(Some(1)),
    Step::Wait,
    Step::Taken(1),
    Step::Submitted(0, 1),
    Step::WasRead(0, 1),
    Step::Notes(0, 1),
    Step::Close,
];

#[test]
fn a_submission_is_taken_and_its_note_is_read(rt: HostRuntime) {
    does(&rt, rt.alloc(), &[(1, &TAKEN_AND_READ)]);
}

// The seat knows of the submission once it has looked.
fn rings_once(rt: &impl Abort, alloc: Global, bell: &Bell, seat: &mut Seat, client: &mut Client) {
    let before = bell.count();
    holds(rt, submits(rt, alloc, client));
    same(rt, (before, bell.count()), (0, 1));
    let seen = seat.sees();
    holds(rt, !seen && seat.offer(0) == Offer::Ready);
    holds(rt, seat.sees());
}

#[test]
fn a_submission_rings_the_bell(rt: HostRuntime) {
    let bell = got(&rt, Bell::new(rt.alloc()));
    let other = got(&rt, bell.share());
    let (mut seat, mut client) = got(&rt, Seat::new(rt.alloc(), 0, SENDER, other));
    rings_once(&rt, rt.alloc(), &bell, &mut seat, &mut client);
    drop(seat);
    drop(client);
    drop(bell);
}

const NOTED_AFTER_THE_END: [Step; 4] = [
    Step::Submit,
    Step::NoteAfterEnd,
    Step::Read(None),
    Step::Notes(0, 1),
];

#[test]
fn a_note_after_the_end_goes_into_no_ring(rt: HostRuntime) {
    does(&rt, rt.alloc(), &[(1, &NOTED_AFTER_THE_END)]);
}

const NOT_TO_BE_SENT: [Step; 5] = [
    Step::Refuse(Address::NULL, 0xEC21, 9, Refusal::BadPgn),
    Step::Refuse(Address::NULL, FECA, 9, Refusal::NoSuchStation),
    Step::Refuse(SENDER, FECA, 9, Refusal::SameStation),
    Step::Refuse(RECEIVER, FECA, 0, Refusal::TooShort),
    Step::Submitted(0, 0),
];

#[test]
fn what_is_not_to_be_sent_comes_back(rt: HostRuntime) {
    does(&rt, rt.alloc(), &[(1, &NOT_TO_BE_SENT)]);
}

const FULL_OF_SUBMISSIONS: [Rounds; 2] = [
    (64, &[Step::Submit]),
    (
        1,
        &[
            Step::Refuse(RECEIVER, FECA, 9, Refusal::RingFull),
            Step::Take,
            Step::Submit,
        ],
    ),
];

const FULL_OF_NOTES: [Rounds; 3] = [
    (1, &[Step::Submit]),
    (64, &[Step::Note(true)]),
    (
        1,
        &[Step::Note(false), Step::Read(Some(1)), Step::Note(true)],
    ),
];

#[test]
fn a_full_ring_has_a_place_again(rt: HostRuntime) {
    does(&rt, rt.alloc(), &FULL_OF_SUBMISSIONS);
    does(&rt, rt.alloc(), &FULL_OF_NOTES);
}

// One of two submissions is taken, and one of two notes is read, before the cut. The client looks up what it keeps at its next calls, and
// it counts on from all that it submitted. A client that is gone reads nothing more, and its seat keeps its notes.
const CUT: [Step; 17] = [
    Step::Submit,
    Step::Submit,
    Step::Note(true),
    Step::Note(true),
    Step::Take,
    Step::Read(Some(1)),
    Step::Cut,
    Step::Notes(1, 1),
    Step::Submitted(0, 2),
    Step::WasRead(0, 1),
    Step::Submit,
    Step::Read(Some(2)),
    Step::Submitted(1, 2),
    Step::WasRead(1, 1),
    Step::Close,
    Step::Cut,
    Step::Notes(1, 1),
];

#[test]
fn a_cut_keeps_the_unread_notes_and_the_submissions_in_the_ring(rt: HostRuntime) {
    does(&rt, rt.alloc(), &[(1, &CUT)]);
}

const PORT: PortId = PortId {
    station: RECEIVER,
    number: 1,
};

/// What is done with the inbox of a port and its door, or is seen of them. Deliveries are nine bytes of 21.
enum Passage {
    /// A delivery is given, or the ring has no place or no reader.
    Give(bool),
    /// The front delivery is received, or there is none.
    Receive(bool),
    Cut,
    /// The inbox is closed, with a delivery that was left.
    CloseInbox,
    CloseDoor,
    /// The deliveries of the door: how many aren't kept any more, and how many are.
    Given(u64, usize),
    /// The same of those that the inbox received.
    Received(u64, usize),
}

/// So many rounds of these steps.
type Deliveries = (u64, &'static [Passage]);

// Gives one delivery if the ring has a place, and returns whether it had.
fn give_one(rt: &impl Abort, alloc: Global, door: &mut Door) -> bool {
    let pushed = delivery(rt, alloc);
    let kept = again(rt, alloc, &pushed);
    if !got(rt, door.prepare(1)) {
        return false;
    }
    door.give(pushed, kept);
    true
}

// Whether the front delivery is nine bytes of 21.
fn receives_nine(rt: &(impl Abort + Wait), inbox: &mut Inbox) -> bool {
    match got(rt, inbox.receive(rt, 2)) {
        Some(given) => is_given(&given),
        None => false,
    }
}

fn is_given(given: &Delivery) -> bool {
    given.from == SENDER
        && given.to == RECEIVER
        && given.pgn.raw() == FECA
        && given.bytes.as_slice() == NINE.as_slice()
}

// Closes an inbox, and gives it one delivery as the rest that was left.
fn closes_inbox(rt: &impl Abort, alloc: Global, inbox: &mut Inbox) -> bool {
    got(rt, inbox.reserve(1));
    let rest = got(rt, vec![in alloc; delivery(rt, alloc)]);
    inbox.close(rest);
    inbox.is_closed()
}

fn closes_door(door: &mut Door) -> bool {
    let before = door.is_active();
    door.close();
    before && !door.is_active()
}

// Whether a step does, or shows, what it says.
fn passes(
    rt: &(impl Abort + Wait),
    alloc: Global,
    door: &mut Door,
    inbox: &mut Inbox,
    step: &Passage,
) -> bool {
    match step {
        Passage::Give(has_place) => give_one(rt, alloc, door) == *has_place,
        Passage::Receive(true) => receives_nine(rt, inbox),
        Passage::Receive(false) => got(rt, inbox.try_receive()).is_none(),
        Passage::Cut => {
            door.cut();
            true
        }
        Passage::CloseInbox => closes_inbox(rt, alloc, inbox),
        Passage::CloseDoor => closes_door(door),
        Passage::Given(gone, kept) => door.gone() == *gone && door.deliveries().len() == *kept,
        Passage::Received(gone, kept) => {
            inbox.gone() == *gone && inbox.received().len() == *kept
        }
    }
}

fn play_passages(
    rt: &(impl Abort + Wait),
    alloc: Global,
    door: &mut Door,
    inbox: &mut Inbox,
    tables: &[Deliveries],
) {
    same(rt, (door.port(), inbox.port()), (PORT, PORT));
    for (table, (times, steps)) in tables.iter().enumerate() {
        for _ in 0..*times {
            for (place, step) in steps.iter().enumerate() {
                let so = passes(rt, alloc, door, inbox, step);
                same(rt, (table, place, so), (table, place, true));
            }
        }
    }
}

// A new door and its inbox do all this.
fn passes_all(rt: &(impl Abort + Wait), alloc: Global, tables: &[Deliveries]) {
    let (mut door, mut inbox) = got(rt, Doorway::new(alloc)).open(PORT);
    play_passages(rt, alloc, &mut door, &mut inbox, tables);
    drop(door);
    drop(inbox);
}

const FULL: [Deliveries; 3] = [
    (1, &[Passage::Receive(false)]),
    (64, &[Passage::Give(true)]),
    (
        1,
        &[
            Passage::Give(false),
            Passage::Receive(true),
            Passage::Give(true),
            Passage::Given(0, 65),
            Passage::Received(0, 1),
        ],
    ),
];

#[test]
fn a_full_ring_of_deliveries_has_a_place_again(rt: HostRuntime) {
    passes_all(&rt, rt.alloc(), &FULL);
}

const CLOSED: [Passage; 6] = [
    Passage::Give(true),
    Passage::CloseInbox,
    Passage::Received(0, 1),
    Passage::Receive(false),
    Passage::CloseDoor,
    Passage::Give(false),
];

#[test]
fn a_closed_inbox_gives_nothing(rt: HostRuntime) {
    passes_all(&rt, rt.alloc(), &[(1, &CLOSED)]);
}

// Two of three deliveries are unread at the first cut, and none at the second.
const CUT_TWICE: [Deliveries; 2] = [
    (3, &[Passage::Give(true)]),
    (
        1,
        &[
            Passage::Receive(true),
            Passage::Cut,
            Passage::Given(1, 2),
            Passage::Received(0, 1),
            Passage::Receive(true),
            Passage::Received(1, 1),
            Passage::Receive(true),
            Passage::Cut,
            Passage::Given(3, 0),
            Passage::Receive(false),
            Passage::Received(3, 0),
        ],
    ),
];

#[test]
fn a_cut_keeps_the_unread_deliveries(rt: HostRuntime) {
    passes_all(&rt, rt.alloc(), &CUT_TWICE);
}
