//! The memory for a message that is given at several ports, made before the step that completes the message.
ghost use Rattle.std.specs.Prelude.{◌≡◌, ◌<◌, ◌≤◌, ◌-◌, [], true, length, All, IfOk, OnOk, OnErr, vec_capacity};
ghost use Rattle.station_sessions.specs.CopyRoom.{IsRoomFor};
ghost use Rattle.station_sessions.specs.Given.{given_at, given_to};

use message_events::{Bytes, Event, Events};
use pgn_ids::{Address, Pgn};
use port_table::{PortId, PortSet};
use std::alloc::{AllocError, Global};
use std::marker::Model;

/// Empty memory for so many bytes.
#[derive(Drop)]
struct Room {
    bytes: Vec<u8>,
}

impl Model for Room {
    ghost use Rattle.std.specs.Prelude.{◌≡◌, ℕ, [], vec_capacity};

    ghost Value = { ℕ };

    ghost view = { λ r. vec_capacity r.bytes };

    ghost invariant = { λ r. r.bytes.items ≡ [] };
}

impl Room {
    fn new(alloc: Global, size: usize) -> Result<Room, AllocError>
        ensures { IfOk result (λ room. room ≡ size) }
    {
        Ok(Room {
            bytes: Vec::with_capacity(alloc, size)?,
        })
    }

    /// A copy of the bytes, in this memory.
    fn fill(self, bytes: &[u8]) -> Bytes
        requires { length bytes.now ≤ self }
        ensures { result ≡ bytes.now }
    {
        let Room { bytes: mut copy } = self;
        match copy.extend_from_slice(bytes) {
            Ok(()) => Bytes::new(copy),
            Err(_) => unreachable!(),
        }
    }
}

/// Room for the copies of a message, and for the events that give them.
#[derive(Drop)]
pub(crate) struct Copies {
    rooms: Vec<Room>,
    events: Vec<Event>,
}

impl Model for Copies {
    ghost use Rattle.std.specs.Prelude.{List, ℕ};

    ghost Value = { List ℕ };

    ghost use Rattle.station_sessions.specs.CopyFields.{rooms_of, AreRooms};

    ghost view = { rooms_of };

    ghost invariant = { AreRooms };
}

impl Copies {
    /// Room for no copy. It takes no memory.
    pub(crate) fn none(alloc: Global) -> Copies
        ensures { result ≡ [] }
    {
        Copies {
            rooms: Vec::new(alloc),
            events: Vec::new(alloc),
        }
    }

    /// Makes room for so many copies of a message of `size` bytes, if there is none yet.
    pub(crate) fn make(
        &mut self,
        alloc: Global,
        count: usize,
        size: usize,
    ) -> Result<(), AllocError>
        requires { self.old ≡ [] }
        ensures count { OnOk result (length self.new ≡ count) }
        ensures size { OnOk result (All (λ room. room ≡ size) self.new) }
    {
        let events = Vec::with_capacity(alloc, count)?;
        let mut rooms = Vec::with_capacity(alloc, count)?;
        for _ in 0..count {
            rooms.push_reserved(Room::new(alloc, size)?);
        }
        self.rooms = rooms;
        self.events = events;
        Ok(())
    }

    /// The events that give a copy of the message at each of these ports of a station.
    fn give(self, station: Address, numbers: &[u64], message: &Message) -> Vec<Event>
        requires count { length self ≡ length numbers.now }
        requires enough { All (λ room. length message.now.bytes ≤ room) self }
        ensures { result.items ≡ given_to station numbers.now message.now }
    {
        let Copies {
            mut rooms,
            mut events,
        } = self;
        for number in numbers {
            let Some(room) = rooms.pop() else {
                unreachable!()
            };
            let bytes = room.fill(message.bytes.as_slice());
            events.push_reserved(message.at(station, *number, bytes));
        }
        events
    }
}

/// A message that is to be given: its bytes from one node to this one or to all.
#[derive(Drop)]
pub(crate) struct Message {
    pub(crate) from: Address,
    pub(crate) to: Address,
    pub(crate) pgn: Pgn,
    pub(crate) bytes: Bytes,
}

impl Message {
    /// The event that gives it at a port of a station, with its bytes or a copy of them.
    fn at(&self, station: Address, number: u64, bytes: Bytes) -> Event
        requires { bytes ≡ self.now.bytes }
        ensures { result ≡ given_at station number self.now }
    {
        Event::Given {
            port: PortId { station, number },
            from: self.from,
            to: self.to,
            pgn: self.pgn,
            bytes,
        }
    }

    /// The event that gives it at a port of a station.
    fn last_at(self, station: Address, number: u64) -> Event
        ensures { result ≡ given_at station number self }
    {
        let Message {
            from,
            to,
            pgn,
            bytes,
        } = self;
        Event::Given {
            port: PortId { station, number },
            from,
            to,
            pgn,
            bytes,
        }
    }
}

/// Gives a message at each port of a set of a station, by rising number, into `told`, which has no event yet. All ports but one
/// use the room that was made for the copies. It takes no memory.
pub(crate) fn give(
    station: Address,
    set: &PortSet,
    message: Message,
    copies: Copies,
    told: &mut Events,
)
    requires silent { told.old ≡ [] }
    requires count { length copies ≡ length set.now - 1 }
    requires enough { All (λ room. length message.bytes ≤ room) copies }
    ensures { told.new ≡ given_to station set.now message }
{
    match set.numbers() {
        [] => {}
        [only] => told.tell(Some(message.last_at(station, *only))),
        [first, others @ ..] => {
            let rest = copies.give(station, others, &message);
            told.tell_all(message.last_at(station, *first), rest);
        }
    }
}

/// Makes the room for the copies of a message of so many bytes that is given at the ports of a set, if it is given. At one port
/// it takes no memory.
pub(crate) fn make_copies(
    alloc: Global,
    set: &PortSet,
    is_given: bool,
    size: u32,
) -> Result<Copies, AllocError>
    ensures ok { IfOk result (λ copies. IsRoomFor size is_given set.now copies) }
    ensures given { OnErr result (is_given ≡ true) }
    ensures several { OnErr result (1 < length set.now) }
{
    let mut copies = Copies::none(alloc);
    if is_given && set.len() > 1 {
        copies.make(alloc, set.len() - 1, size as usize)?;
    }
    Ok(copies)
}
