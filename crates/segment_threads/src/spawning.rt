//! The threads of one segment.
use crate::jobs::{Party, Sender, receive_all, send_all, work_bus, work_station};
use crate::pacing::Pace;
use pgn_ids::Address;
use script_runs::Lost;
use script_segments::Message;
use segment_shared::{Client, Gate, Inbox, Live, NotMade, Submission};
use std::alloc::{AllocError, Global};
use std::sync::Wait;
use std::thread::{JoinHandle, Scope, Threads};

/// A client of each station, with the messages that it is to submit. The clients are numbered in the order of the
/// stations.
///
/// `NotThisSegment` if one of them is no station of the segment, or has all its clients; `OutOfMemory` if memory was
/// refused.
pub fn senders_of(
    alloc: Global,
    live: &mut Live,
    stations: &[Address],
    messages: &[Message],
) -> Result<Vec<Sender>, Lost> {
    let mut senders = Vec::new(alloc);
    for station in stations {
        let client = match live.attach(*station) {
            Ok(client) => client,
            Err(NotMade::OutOfMemory) => return Err(Lost::OutOfMemory),
            Err(_) => return Err(Lost::NotThisSegment),
        };
        let messages = messages_of(alloc, *station, messages)?;
        senders.reserve(1)?;
        senders.push_reserved(Sender { client, messages });
    }
    Ok(senders)
}

// The messages of one station, in order.
fn messages_of(
    alloc: Global,
    station: Address,
    messages: &[Message],
) -> Result<Vec<Submission>, AllocError> {
    let mut own = Vec::new(alloc);
    for message in messages {
        if message.from == station {
            own.push(Submission {
                to: message.to,
                pgn: message.pgn,
                bytes: message.bytes.copy(alloc)?,
            })?;
        }
    }
    Ok(own)
}

/// The threads of a segment's senders and inboxes.
#[derive(Drop)]
pub struct Running {
    sending: Vec<JoinHandle<Client>>,
    receiving: Vec<JoinHandle<Inbox>>,
}

/// What they hand back.
#[derive(Drop)]
pub struct Ends {
    pub clients: Vec<Client>,
    pub inboxes: Vec<Inbox>,
}

/// Starts a thread for each station, for the bus, for each sender and each inbox. None begins before the board says that all were made.
pub fn spawn_segment<'s, E, R: Threads + Wait + Sync, G: Gate + Sync>(
    scope: &Scope<'s, E>,
    rt: &'s R,
    alloc: Global,
    party: Party<'s>,
    senders: Vec<Sender>,
    inboxes: Vec<Inbox>,
    pace: &'s Pace<'s, G>,
    turns: u64,
) -> Result<Running, AllocError> {
    let board = pace.board;
    let shared = party.shared;
    for station in party.stations {
        scope.spawn(move || work_station(rt, shared, *station, pace, turns))?;
    }
    scope.spawn(move || work_bus(rt, shared, pace, turns))?;
    let mut sending = Vec::new(alloc);
    for sender in senders {
        sending.push(scope.spawn(move || send_all(rt, sender, board))?)?;
    }
    let mut receiving = Vec::new(alloc);
    for inbox in inboxes {
        receiving.push(scope.spawn(move || receive_all(rt, inbox, board))?)?;
    }
    Ok(Running { sending, receiving })
}

impl Ends {
    /// Room for what so many clients and inboxes hand back.
    pub fn with_room(alloc: Global, clients: usize, inboxes: usize) -> Result<Ends, AllocError> {
        Ok(Ends {
            clients: Vec::with_capacity(alloc, clients)?,
            inboxes: Vec::with_capacity(alloc, inboxes)?,
        })
    }
}

/// Waits for the threads, and puts what they hand back into the room for it.
pub fn gather<R: Threads>(rt: &R, room: Ends, running: Running) -> Result<Ends, AllocError> {
    let Running { sending, receiving } = running;
    let mut ends = room;
    for thread in sending {
        ends.clients.push(thread.join(rt))?;
    }
    for thread in receiving {
        ends.inboxes.push(thread.join(rt))?;
    }
    Ok(ends)
}
