//! A station: its parts, its ports and its queue.
ghost use Rattle.std.specs.Prelude.{◌≡◌, ◌≤◌, ◌<◌, ◌+◌, ◌++◌, ◌∷◌, [], true, false, length, IfOk, OnOk, OnErr};
ghost use Rattle.std.specs.Result.{result_err};
ghost use Rattle.pgn_ids.specs.Address.{is_one};
ghost use Rattle.tx_queue.specs.Queue.{queue_limit, free_places, front, behind};
ghost use Rattle.port_table.specs.Ports.{next_id, is_open, is_paused, with_port, with_paused};
ghost use Rattle.station_core.specs.Station.{new_station};
ghost use Rattle.station_core.specs.Refusals.{IsAnswered, making_refusal, opening_refusal, pausing_refusal, resuming_refusal};

use crate::refused::{Refused, Stopped, by_ports};
use bus_frame::Frame;
use pgn_ids::{Address, Pgn};
use port_table::{PortId, PortTable};
use station_lanes::Lanes;
use station_sessions::Receivers;
use std::alloc::Global;
use std::marker::Model;
use tx_queue::TxQueue;

/// One station of a segment: its transmit queue, its lanes, its incoming sessions and its ports.
///
/// It doesn't know the bus: the frames that it takes are handed in. If it is dropped, what is under way ends without a
/// frame or an outcome.
pub struct Station {
    pub(crate) alloc: Global,
    pub(crate) address: Address,
    pub(crate) queue: TxQueue,
    pub(crate) lanes: Lanes,
    pub(crate) sessions: Receivers,
    pub(crate) ports: PortTable,
}

impl Model for Station {
    ghost use Rattle.station_core.specs.Station.{Station};
    ghost use Rattle.station_core.specs.StationCode.{station_code};

    ghost Value = { Station };

    ghost coded = { station_code };

    ghost use Rattle.station_core.specs.StationFields.{station_value, IsStationInside};

    ghost view = { station_value };

    ghost invariant = { IsStationInside };
}

impl Drop for Station {
    fn drop(self) {
        let Station {
            alloc: _,
            address: _,
            queue: _,
            lanes: _,
            sessions: _,
            ports: _,
        } = self;
    }
}

/// Queues a frame behind the others, if there is a free place.
pub(crate) fn enqueue(queue: &mut TxQueue, frame: Frame)
    requires { length queue.old < queue_limit }
    ensures { queue.new ≡ queue.old ++ frame ∷ [] }
{
    queue.push_free(frame);
}

impl Station {
    /// The station with this address, without a port. It makes the room of its queue, its lanes' places and its ports.
    ///
    /// `NoSuchStation` if the address isn't that of one node, 0 to 253 (SAE J1939-81); `OutOfMemory`.
    pub fn new(alloc: Global, address: Address) -> Result<Station, Stopped>
        ensures ok { IfOk result (λ station. station ≡ new_station address) }
        ensures refused { IsAnswered (making_refusal address) (result_err result) }
    {
        if !address.is_one() {
            return Err(Stopped::Refused(Refused::NoSuchStation));
        }
        Ok(Station {
            alloc,
            address,
            queue: TxQueue::new(alloc)?,
            lanes: Lanes::new(alloc)?,
            sessions: Receivers::new(alloc),
            ports: PortTable::new(alloc, address)?,
        })
    }

    /// Its address.
    pub fn address(&self) -> Address
        ensures value { result ≡ self.now.address }
        ensures own { is_one result.0 ≡ true }
    {
        self.address
    }

    /// Its transmit queue.
    pub fn queue(&self) -> &TxQueue
        ensures { result.now ≡ self.now.queue }
    {
        &self.queue
    }

    /// Its lanes.
    pub fn lanes(&self) -> &Lanes
        ensures { result.now ≡ self.now.lanes }
    {
        &self.lanes
    }

    /// Its incoming sessions.
    pub fn sessions(&self) -> &Receivers
        ensures { result.now ≡ self.now.sessions }
    {
        &self.sessions
    }

    /// How many frames wait in its queue.
    pub fn queue_len(&self) -> usize
        ensures value { result ≡ length self.now.queue }
        ensures within { result ≤ queue_limit }
    {
        self.queue.len()
    }

    /// How many free places its queue has.
    pub fn free(&self) -> usize
        ensures value { result ≡ free_places self.now.queue }
        ensures within { length self.now.queue ≤ queue_limit }
    {
        self.queue.free()
    }

    /// The frame that it transmits next.
    pub fn front(&self) -> Option<Frame>
        ensures { result ≡ front self.now.queue }
    {
        self.queue.front()
    }

    /// Takes the frame that it transmits out of its queue, or returns None if the queue is empty.
    pub fn pop(&mut self) -> Option<Frame>
        ensures frame { result ≡ front self.old.queue }
        ensures left { self.new ≡ record self.old { queue = behind self.old.queue } }
    {
        self.queue.pop()
    }

    /// Why `open` would be refused, if it would, whatever the PGN and length.
    pub fn open_refusal(&self) -> Option<Refused>
        ensures { result ≡ opening_refusal self.now }
    {
        match self.ports.open_refusal() {
            None => None,
            Some(cause) => Some(by_ports(cause)),
        }
    }

    /// Opens a port for messages of a PGN, of at most `max_len` bytes. Its number is the next one, from 1.
    ///
    /// Refused as `PortsFull` exactly if 16 ports are open or the next number would pass the end of `u64`; then nothing
    /// changes. It takes no memory.
    pub fn open(&mut self, pgn: Pgn, max_len: u32) -> Result<PortId, Refused>
        ensures id { IfOk result (λ id. id ≡ next_id self.old.ports) }
        ensures ok { OnOk result (self.new ≡ record self.old { ports = with_port self.old.ports pgn max_len }) }
        ensures refused { result_err result ≡ opening_refusal self.old }
        ensures err { OnErr result (self.new ≡ self.old) }
    {
        match self.ports.open(pgn, max_len) {
            Ok(port) => Ok(port),
            Err(cause) => Err(by_ports(cause)),
        }
    }

    /// Whether an open port has this number.
    pub fn is_open(&self, number: u64) -> bool
        ensures { result ≡ is_open self.now.ports number }
    {
        self.ports.is_open(number)
    }

    /// Whether the open port with this number is paused; false if there is none.
    pub fn is_paused(&self, number: u64) -> bool
        ensures { result ≡ is_paused self.now.ports number }
    {
        self.ports.is_paused(number)
    }

    /// Why `pause` of a port would be refused, if it would: the first cause.
    pub fn pause_refusal(&self, number: u64) -> Option<Refused>
        ensures { result ≡ pausing_refusal self.now number }
    {
        match self.ports.pause_refusal(number) {
            None => None,
            Some(cause) => Some(by_ports(cause)),
        }
    }

    /// Pauses a port: each session that gives to it is held, and grants no packet.
    ///
    /// Refused as `NoSuchPort` exactly if no open port has this number, else as `PortPaused` if it is paused; then
    /// nothing changes. It takes no memory.
    pub fn pause(&mut self, number: u64) -> Result<(), Refused>
        ensures ok { OnOk result (self.new ≡ record self.old { ports = with_paused self.old.ports number true }) }
        ensures refused { result_err result ≡ pausing_refusal self.old number }
        ensures err { OnErr result (self.new ≡ self.old) }
    {
        match self.ports.pause(number) {
            Ok(()) => Ok(()),
            Err(cause) => Err(by_ports(cause)),
        }
    }

    /// Why `resume` of a port would be refused, if it would: the first cause.
    pub fn resume_refusal(&self, number: u64) -> Option<Refused>
        ensures { result ≡ resuming_refusal self.now number }
    {
        match self.ports.resume_refusal(number) {
            None => None,
            Some(cause) => Some(by_ports(cause)),
        }
    }

    /// Ends the pause of a port.
    ///
    /// Refused as `NoSuchPort` exactly if no open port has this number, else as `PortNotPaused` if it isn't paused; then
    /// nothing changes. It takes no memory.
    pub fn resume(&mut self, number: u64) -> Result<(), Refused>
        ensures ok { OnOk result (self.new ≡ record self.old { ports = with_paused self.old.ports number false }) }
        ensures refused { result_err result ≡ resuming_refusal self.old number }
        ensures err { OnErr result (self.new ≡ self.old) }
    {
        match self.ports.resume(number) {
            Ok(()) => Ok(()),
            Err(cause) => Err(by_ports(cause)),
        }
    }
}
