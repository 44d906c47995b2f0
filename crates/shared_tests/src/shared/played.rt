//! A segment with a port of 35 and a client of 21, step by step. The steps of a test are a table, which one function plays: a table needs no
//! proof, and each call in a test does. A step that found no memory has changed nothing, and is made again.
use super::steps::*;
use bus_frame::{CanId, Frame};
use pgn_ids::Address;
use segment_law::Counts;
use segment_shared::{
    Accepted, Client, Inbox, Live, News, Piece, PortId, Refusal, WorkerCall, client_agrees,
    inbox_agrees, pieces_begin, rejoin,
};
use std::alloc::{AllocError, Global};
use std::mem;
use std::process::Abort;
use tp_wire::Outcome;

/// The port of 35.
pub(super) const PORT: PortId = PortId {
    station: R,
    number: 1,
};

/// What is done with the segment, the port, the client or the pieces that were cut off, or is seen of them. Messages are nine bytes of the
/// client. What is made is refused if there is a cause.
pub(super) enum Step {
    /// A message is submitted, and has the next ticket.
    Submit(Address),
    /// So many bytes are handed back for this cause.
    Unsent(Address, u8, Refusal),
    /// The front submission is accepted so.
    Accept(Accepted),
    /// The client reads a note of this ticket and this outcome.
    Note(u64, Outcome),
    /// The client reads a note of this outcome on what it submitted last.
    Noted(Outcome),
    /// The client is detached, once.
    Detach,
    /// What the client and the inbox keep is what the stored calls say.
    Agree,
    /// The submissions of the client: how many aren't kept any more, and how many are.
    Submitted(u64, usize),
    /// The same of the notes that it read.
    WasRead(u64, usize),
    /// Whether what was submitted begins by what the pieces say.
    Begin(bool),
    /// Whether a delivery is received.
    Receive(bool),
    /// The port is closed by its inbox, which hands out so many deliveries, or isn't.
    Close(Result<usize, Refusal>),
    /// Whether the port was closed without its inbox.
    Shut(bool),
    /// The deliveries of the inbox: how many aren't kept any more, and how many are.
    Received(u64, usize),
    /// A piece of this number is cut off, and put behind the others.
    Cut(u64),
    /// The last piece has so many calls.
    Holds(usize),
    /// Whose message a call of the last piece sends: its place there, and the client.
    By(usize, Option<u64>),
    /// The pieces join, and are so many calls with the stored ones; or they are handed back.
    Join(Result<usize, Refusal>),
    /// The pieces are in the other order.
    Reverse,
    /// The last piece is let go.
    LetGo,
    /// A call is made, and has so many events.
    Make(Work, usize),
    /// A call is refused.
    Refuse(Work, Refusal),
    /// A client of a station is attached, and leaves at once.
    Attach(Address, Option<Refusal>),
    /// A port of a station is opened, and its inbox leaves at once.
    Open(Address, Option<Refusal>),
    /// The port of 35 with this number is closed without its inbox.
    ClosePort(u64, Option<Refusal>),
    /// Another client of this station has its first message to that one accepted, and leaves.
    SendFrom(Address, Address),
    /// A turn of the worker of this station.
    Turn(Address),
    /// The same, in which it makes so many calls.
    TurnOf(Address, u64),
    /// Turns of the workers of 21, 35 and the bus, until nothing is left to do.
    GoOn,
    /// Who has news.
    Named(Option<News>),
    /// How many messages were given, and how many frames were taken again.
    Counts(u64, u64),
    /// How many calls are stored.
    Calls(usize),
    /// How often calls were cut off.
    Cuts(u64),
    /// How many messages were turned away.
    TurnedAway(u64),
    /// The station whose frame goes first onto the bus.
    Lowest(Address),
    /// The identifier of the first frame on the bus.
    First(u32),
    /// The deliveries that the segment gave to the port: how many aren't kept any more, and how many are.
    Given(u64, usize),
    /// The same of the notes of the first client.
    Notes(u64, usize),
}

/// A call of a worker: `WorkerCall` may hold a frame, which a constant table can't.
pub(super) enum Work {
    Pump(Address, Address),
    Put(Address),
    Take(Address),
    TakeAgain(Address),
    /// A station missed so many frames.
    Miss(Address, u64),
    Tick(u64),
    Fire(Address),
    /// The message from one station to another with this number is cancelled.
    Cancel(Address, Address, u64),
    /// The port is paused.
    Pause,
    /// The port is resumed.
    Resume,
    /// A node that is no station puts a frame with this identifier on the bus.
    Inject(u32, [u8; 8]),
}

/// So many rounds of these steps.
pub(super) type Rounds = (u64, &'static [Step]);

// Whether a step does, or shows, what it says; none of both if it found no memory.
fn tries(
    rt: &impl Abort,
    alloc: Global,
    live: &mut Live,
    inbox: &mut Inbox,
    sender: &mut Client,
    pieces: &mut Vec<Piece>,
    step: &Step,
) -> Option<bool> {
    match step {
        Step::Submit(to) => {
            let next = last_ticket(sender).saturating_add(1);
            answers(rt, alloc, sender, *to, 9, Ok(next))
        }
        Step::Unsent(to, many, cause) => answers(rt, alloc, sender, *to, *many, Err(*cause)),
        Step::Accept(accepted) => accepts(live, sender, *accepted),
        Step::Note(ticket, outcome) => notes(sender, *ticket, *outcome),
        Step::Noted(outcome) => notes(sender, last_ticket(sender), *outcome),
        Step::Detach => Some(detaches(live, sender)),
        Step::Agree => Some(client_agrees(live, sender) && inbox_agrees(live, inbox)),
        Step::Submitted(gone, kept) => {
            Some(sender.submitted_gone() == *gone && sender.submitted().len() == *kept)
        }
        Step::WasRead(gone, kept) => {
            Some(sender.read_gone() == *gone && sender.read().len() == *kept)
        }
        Step::Begin(begins) => Some(pieces_begin(pieces.as_slice(), sender) == *begins),
        other => tries_of_port(rt, alloc, live, inbox, pieces, other),
    }
}

// The same of a step of the port or the pieces, or of the segment.
fn tries_of_port(
    rt: &impl Abort,
    alloc: Global,
    live: &mut Live,
    inbox: &mut Inbox,
    pieces: &mut Vec<Piece>,
    step: &Step,
) -> Option<bool> {
    match step {
        Step::Receive(comes) => receives(inbox, *comes),
        Step::Close(expected) => closes(live, inbox, *expected),
        Step::Shut(is_shut) => Some(inbox.is_shut() == *is_shut),
        Step::Received(gone, kept) => {
            Some(inbox.gone() == *gone && inbox.received().len() == *kept)
        }
        Step::Cut(number) => cuts(rt, live, pieces, *number),
        Step::Holds(calls) => Some(holds_calls(pieces.as_slice(), *calls)),
        Step::By(at, client) => Some(is_by(pieces.as_slice(), *at, *client)),
        Step::Join(expected) => joins(alloc, live, pieces, *expected),
        Step::Reverse => {
            pieces.reverse();
            Some(true)
        }
        Step::LetGo => Some(pieces.pop().is_some()),
        other => tries_of_segment(rt, alloc, live, other),
    }
}

fn cuts(rt: &impl Abort, live: &mut Live, pieces: &mut Vec<Piece>, number: u64) -> Option<bool> {
    if pieces.reserve(1).is_err() {
        return None;
    }
    let Ok(piece) = live.cut() else {
        return None;
    };
    let cut = piece.number;
    got(rt, pieces.push(piece));
    Some(cut == number)
}

fn holds_calls(pieces: &[Piece], calls: usize) -> bool {
    match pieces.last() {
        Some(piece) => piece.calls.len() == calls,
        None => false,
    }
}

// Whether a call of the last piece that is kept whole sends a message of this client.
fn is_by(pieces: &[Piece], at: usize, client: Option<u64>) -> bool {
    let Some(piece) = pieces.last() else {
        return false;
    };
    if at >= piece.calls.len() {
        return false;
    }
    match piece.calls.whole(at) {
        Some(stored) => stored.by == client,
        None => false,
    }
}

fn joins(
    alloc: Global,
    live: &Live,
    pieces: &mut Vec<Piece>,
    expected: Result<usize, Refusal>,
) -> Option<bool> {
    let count = pieces.len();
    match rejoin(mem::replace(pieces, Vec::new(alloc)), live) {
        Ok(calls) => Some(expected == Ok(calls.len())),
        Err(refused) => {
            *pieces = refused.pieces;
            match refused.refusal {
                Some(cause) => Some(expected == Err(cause) && pieces.len() == count),
                None => None,
            }
        }
    }
}

fn tries_of_segment(rt: &impl Abort, alloc: Global, live: &mut Live, step: &Step) -> Option<bool> {
    match step {
        Step::Make(call, events) => is_answer(live.apply(call_of(rt, call)), Ok(*events)),
        Step::Refuse(call, cause) => is_answer(live.apply(call_of(rt, call)), Err(*cause)),
        Step::Attach(station, cause) => makes(live.attach(*station), *cause),
        Step::Open(station, cause) => makes(live.open_port(*station, feca(rt), 9), *cause),
        Step::ClosePort(number, cause) => {
            let port = PortId {
                station: R,
                number: *number,
            };
            makes(live.close_port(port), *cause)
        }
        Step::SendFrom(station, to) => Some(sends_from(rt, alloc, live, *station, *to)),
        other => Some(turns(live, other)),
    }
}

fn call_of(rt: &impl Abort, work: &Work) -> WorkerCall {
    match work {
        Work::Pump(station, to) => WorkerCall::Pump {
            station: *station,
            to: *to,
        },
        Work::Put(station) => WorkerCall::Transmit { station: *station },
        Work::Take(station) => WorkerCall::Take { station: *station },
        Work::TakeAgain(station) => WorkerCall::TakeAgain { station: *station },
        Work::Miss(station, n) => WorkerCall::Overrun {
            station: *station,
            n: *n,
        },
        Work::Tick(n) => WorkerCall::Tick { n: *n },
        Work::Fire(station) => WorkerCall::Fire { station: *station },
        Work::Cancel(from, to, number) => WorkerCall::Cancel {
            from: *from,
            to: *to,
            number: *number,
        },
        Work::Pause => WorkerCall::Pause { port: PORT },
        Work::Resume => WorkerCall::Resume { port: PORT },
        Work::Inject(id, bytes) => WorkerCall::Inject {
            frame: Frame::full(got(rt, CanId::new(*id)), *bytes),
        },
    }
}

fn sends_from(
    rt: &impl Abort,
    alloc: Global,
    live: &mut Live,
    station: Address,
    to: Address,
) -> bool {
    let mut other = client(rt, live, station);
    let is_submitted = got(
        rt,
        answers(rt, alloc, &mut other, to, 9, Ok(1)).ok_or(AllocError),
    );
    let is_sent = got(
        rt,
        accepts(live, &other, Accepted::Sent(1)).ok_or(AllocError),
    );
    drop(other);
    is_submitted && is_sent
}

// A turn that finds no memory leaves what it was to do to the next one.
fn turns(live: &mut Live, step: &Step) -> bool {
    match step {
        Step::Turn(station) => {
            live.station_turn(*station);
            true
        }
        Step::TurnOf(station, calls) => live.station_turn(*station).calls == *calls,
        Step::GoOn => {
            go_on(live);
            true
        }
        Step::Named(news) => live.news() == *news,
        other => shows(live, other),
    }
}

fn shows(live: &Live, step: &Step) -> bool {
    match step {
        Step::Counts(given, repeated) => {
            let counts = live.counts();
            counts.given == *given && counts.repeated == *repeated
        }
        Step::Calls(count) => live.calls().len() == *count,
        Step::Cuts(count) => live.cuts() == *count,
        Step::TurnedAway(count) => live.turned_away() == *count,
        Step::Lowest(station) => live.lowest() == Some(*station),
        Step::First(identifier) => first_identifier(live) == Some(*identifier),
        Step::Given(gone, kept) => {
            live.given_gone(PORT) == Some(*gone) && len_of(live.given_to(PORT)) == Some(*kept)
        }
        Step::Notes(gone, kept) => {
            live.notes_gone(0) == Some(*gone) && len_of(live.notes_of(0)) == Some(*kept)
        }
        _ => false,
    }
}

fn first_identifier(live: &Live) -> Option<u32> {
    match live.segment().frame(1) {
        Some(frame) => Some(frame.id().raw()),
        None => None,
    }
}

fn len_of<T>(list: Option<&[T]>) -> Option<usize> {
    match list {
        Some(list) => Some(list.len()),
        None => None,
    }
}

// What the readers say of the segment and its ends, with what a cut let go.
fn read(live: &Live, inbox: &Inbox, sender: &Client) -> ([u64; 9], Counts) {
    let numbers = [
        live.calls().len() as u64,
        live.cuts(),
        live.clients(),
        live.segment().now(),
        live.segment().bus_len(),
        live.turned_away(),
        last_ticket(sender),
        sender
            .read_gone()
            .saturating_add(sender.read().len() as u64),
        inbox.gone().saturating_add(inbox.received().len() as u64),
    ];
    (numbers, live.counts())
}

// Whether a step does, or shows, what it says. One that found no memory has changed nothing, and is made again.
fn is_so(
    rt: &impl Abort,
    alloc: Global,
    live: &mut Live,
    inbox: &mut Inbox,
    sender: &mut Client,
    pieces: &mut Vec<Piece>,
    step: &Step,
) -> bool {
    let before = read(live, inbox, sender);
    if let Some(so) = tries(rt, alloc, live, inbox, sender, pieces, step) {
        return so;
    }
    holds(rt, read(live, inbox, sender) == before);
    tries(rt, alloc, live, inbox, sender, pieces, step) == Some(true)
}

/// Ends the test at the first step that isn't so, and prints its places in the tables. Pieces that are cut off are put behind these.
pub(super) fn play_on(
    rt: &impl Abort,
    alloc: Global,
    live: &mut Live,
    inbox: &mut Inbox,
    sender: &mut Client,
    pieces: &mut Vec<Piece>,
    tables: &[Rounds],
) {
    for (table, (times, steps)) in tables.iter().enumerate() {
        for _ in 0..*times {
            for (place, step) in steps.iter().enumerate() {
                let so = is_so(rt, alloc, live, inbox, sender, pieces, step);
                same(rt, (table, place, so), (table, place, true));
            }
        }
    }
}

pub(super) fn play(
    rt: &impl Abort,
    alloc: Global,
    live: &mut Live,
    inbox: &mut Inbox,
    sender: &mut Client,
    tables: &[Rounds],
) {
    let mut pieces = Vec::new(alloc);
    play_on(rt, alloc, live, inbox, sender, &mut pieces, tables);
    drop(pieces);
}

fn with_ends(
    rt: &impl Abort,
    alloc: Global,
    live: &mut Live,
    pieces: &mut Vec<Piece>,
    tables: &[Rounds],
) {
    let (mut inbox, mut sender) = port_and_client(rt, live);
    play_on(rt, alloc, live, &mut inbox, &mut sender, pieces, tables);
    drop(inbox);
    drop(sender);
}

/// A new port and a new client of the segment do all this.
pub(super) fn does_on(rt: &impl Abort, alloc: Global, live: &mut Live, tables: &[Rounds]) {
    let mut pieces = Vec::new(alloc);
    with_ends(rt, alloc, live, &mut pieces, tables);
    drop(pieces);
}

/// A new segment with the port and the client does all this.
pub(super) fn does(rt: &impl Abort, alloc: Global, tables: &[Rounds]) {
    let mut pieces = Vec::new(alloc);
    does_with(rt, alloc, &mut pieces, tables);
    drop(pieces);
}

/// Several segments do this, one after another, with the pieces that were cut off those before.
pub(super) fn does_apart(rt: &impl Abort, alloc: Global, segments: &[&[Rounds]]) {
    let mut pieces = Vec::new(alloc);
    for tables in segments {
        does_with(rt, alloc, &mut pieces, tables);
    }
    drop(pieces);
}

fn does_with(rt: &impl Abort, alloc: Global, pieces: &mut Vec<Piece>, tables: &[Rounds]) {
    let mut live = three(rt, alloc);
    with_ends(rt, alloc, &mut live, pieces, tables);
    drop(live);
}
