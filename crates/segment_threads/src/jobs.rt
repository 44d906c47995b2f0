//! What the threads do, one each.
ghost use Rattle.std.specs.Prelude.{◌≡◌};

use crate::pacing::Pace;
use pgn_ids::Address;
use segment_shared::{
    Client, Gate, Inbox, Refusal, SharedSegment, Submission, SubmitRefused, bus_worker,
    station_worker,
};
use std::sync::atomic::{AtomicU64, Ordering};
use std::sync::{Mutex, Wait};
use std::thread;

/// A client, and what it is to submit.
#[derive(Drop)]
pub struct Sender {
    pub client: Client,
    pub messages: Vec<Submission>,
}

/// What the threads let one another know: whether all of them were made, which is locked until that is known; how many senders
/// have submitted all their messages, and how many have all their outcomes; how many turns the workers have begun, and how many
/// of them have ended; whether the first segment gives nothing more; and whether all are to end.
#[derive(Drop)]
pub struct Board {
    pub made: Mutex<bool>,
    pub sent: AtomicU64,
    pub done: AtomicU64,
    pub passed: AtomicU64,
    pub ended: AtomicU64,
    pub quiet: AtomicU64,
    pub stop: AtomicU64,
}

impl Board {
    /// Nothing yet.
    pub fn new() -> Board {
        Board {
            made: Mutex::new(false),
            sent: AtomicU64::new(0),
            done: AtomicU64::new(0),
            passed: AtomicU64::new(0),
            ended: AtomicU64::new(0),
            quiet: AtomicU64::new(0),
            stop: AtomicU64::new(0),
        }
    }

    /// Whether all threads were made. It waits until that is known.
    pub fn begins<R: Wait>(&self, rt: &R) -> bool {
        let made = self.made.lock(rt);
        *made
    }

    /// Whether all are to end.
    pub fn stops(&self) -> bool {
        self.stop.load(Ordering::SeqCst) > 0
    }
}

// Submits one message, again while the ring is full or memory is refused, until all are to end.
fn submit(client: &mut Client, board: &Board, message: Submission) -> bool {
    let Submission { to, pgn, bytes } = message;
    let mut bytes = bytes;
    for _ in 0..u64::MAX {
        match client.submit(to, pgn.raw(), bytes) {
            Ok(_) => return true,
            Err(
                SubmitRefused {
                    refusal,
                    bytes: back,
                },
            ) => {
                if refusal.is_some_and(|cause| cause != Refusal::RingFull) || board.stops() {
                    return false;
                }
                bytes = back;
            }
        }
        thread::yield_now();
    }
    false
}

/// Submits all messages, and reads as many notes.
pub fn send_all<R: Wait>(rt: &R, sender: Sender, board: &Board) -> Client {
    let Sender {
        mut client,
        messages,
    } = sender;
    if !board.begins(rt) {
        return client;
    }
    let mut waits = 0u64;
    for message in messages {
        if submit(&mut client, board, message) {
            waits = waits.saturating_add(1);
        }
    }
    board.sent.fetch_add(1, Ordering::SeqCst);
    read_all(&mut client, board, waits);
    client
}

/// Reads the outcomes of so many messages, and notes when all have been read. It ends earlier only if all are to end.
pub fn read_all(client: &mut Client, board: &Board, waits: u64)
    ensures id { client.new.id ≡ client.old.id }
    ensures submitted { client.new.submitted ≡ client.old.submitted }
{
    let mut waits = waits;
    for _ in 0..u64::MAX {
        if waits == 0 {
            board.done.fetch_add(1, Ordering::SeqCst);
            return;
        }
        match client.try_outcome() {
            Ok(Some(_)) => waits -= 1,
            Ok(None) | Err(_) => {
                if board.stops() {
                    return;
                }
                thread::yield_now();
            }
        }
    }
}

/// Receives until all are to end, and nothing is left.
pub fn receive_all<R: Wait>(rt: &R, inbox: Inbox, board: &Board) -> Inbox {
    let mut inbox = inbox;
    if !board.begins(rt) {
        return inbox;
    }
    for _ in 0..u64::MAX {
        let last = board.stops();
        match inbox.try_receive() {
            Ok(Some(_)) => {}
            Ok(None) | Err(_) => {
                if last {
                    return inbox;
                }
                thread::yield_now();
            }
        }
    }
    inbox
}

/// A segment that threads share, and the addresses of its stations.
#[derive(Clone, Copy)]
pub struct Party<'a> {
    pub shared: &'a SharedSegment,
    pub stations: &'a [Address],
}

impl Party<'_> {
    // Whether no queue holds a frame and none waits.
    fn is_drained<R: Wait>(&self, rt: &R) -> bool {
        let live = self.shared.lock(rt);
        let segment = live.segment();
        self.stations.iter().all(|station| segment.queue_len(*station) == 0
            && segment.waiting(*station) == 0)
    }
}

fn are_drained<R: Wait>(rt: &R, parties: &[Party<'_>]) -> bool {
    for party in parties {
        if !party.is_drained(rt) {
            return false;
        }
    }
    true
}

// Notes that the first segment gives nothing more, once its messages have their outcomes and its bus is drained.
fn note_quiet<R: Wait>(rt: &R, parties: &[Party<'_>], board: &Board) {
    if let Some(party) = parties.first()
        && board.quiet.load(Ordering::SeqCst) == 0
        && party.is_drained(rt)
    {
        board.quiet.fetch_add(1, Ordering::SeqCst);
    }
}

/// Ends all when each message has its outcome and each bus is drained, or when the workers have ended; and whether they are drained.
pub fn watch<R: Wait, G>(rt: &R, parties: &[Party<'_>], pace: &Pace<'_, G>) -> bool {
    let board = pace.board;
    if !board.begins(rt) {
        return false;
    }
    for _ in 0..u64::MAX {
        let ended = board.ended.load(Ordering::SeqCst) >= pace.workers;
        let done = board.done.load(Ordering::SeqCst);
        if pace.relays > 0 && done >= pace.senders {
            note_quiet(rt, parties, board);
        }
        let drained = (ended || done >= pace.senders.saturating_add(pace.relays))
            && are_drained(rt, parties);
        if ended || drained {
            for party in parties {
                party.shared.stop(rt);
            }
            board.stop.fetch_add(1, Ordering::SeqCst);
            return drained;
        }
        thread::yield_now();
    }
    false
}

/// Makes the turns of a station.
pub fn work_station<R: Wait, G: Gate>(
    rt: &R,
    shared: &SharedSegment,
    station: Address,
    pace: &Pace<'_, G>,
    turns: u64,
) {
    if pace.board.begins(rt) {
        let _tally = station_worker(rt, shared, station, pace, turns);
        pace.board.ended.fetch_add(1, Ordering::SeqCst);
    }
}

/// Makes the turns of the bus.
pub fn work_bus<R: Wait, G: Gate>(rt: &R, shared: &SharedSegment, pace: &Pace<'_, G>, turns: u64) {
    if pace.board.begins(rt) {
        let _tally = bus_worker(rt, shared, pace, turns);
        pace.board.ended.fetch_add(1, Ordering::SeqCst);
    }
}
