//! The open ports of a station.
ghost use Rattle.std.specs.Prelude.{◌≡◌, ℕ, List, true, false, ◌+◌, ◌<◌, ◌==◌, map, length, OnOk, OnErr, IfOk, vec_capacity, AllPairs};
ghost use Rattle.std.specs.Bool.{OnFalse};
ghost use Rattle.std.specs.Result.{result_err};
ghost use Rattle.port_table.specs.Ports.{no_ports, next_id, with_port, without_port, with_paused, port_at, ports_for, less_port, marked, ArePorts};
ghost use Rattle.port_table.specs.Ports.{is_open as is_open_at, is_paused as is_paused_at, has_paused, is_any_paused};
ghost use Rattle.port_table.specs.Refusals.{opening_refusal, closing_refusal, pausing_refusal, resuming_refusal};

use crate::MAX_PORTS;
use crate::port::{Port, PortId};
use crate::refused::Refused;
use crate::set::PortSet;
use pgn_ids::{Address, Pgn};
use std::alloc::{AllocError, Global};
use std::marker::Model;

/// The open ports of a station, at most 16, by rising number.
#[derive(Debug, Drop)]
pub struct PortTable {
    pub(crate) station: Address,
    pub(crate) opened: u64,
    pub(crate) ports: Vec<Port>,
    // Whether a port is paused. Mostly none is, and each packet of a message asks.
    some_paused: bool,
}

impl Model for PortTable {
    ghost use Rattle.port_table.specs.Ports.{Ports};

    ghost Value = { Ports };

    ghost use Rattle.port_table.specs.Shape.{view_table, IsTable};

    ghost view = { view_table };

    ghost invariant = { IsTable };
}

impl PortTable {
    /// The table of a station that has opened no port. It makes the room for all 16.
    pub fn new(alloc: Global, station: Address) -> Result<PortTable, AllocError>
        ensures { IfOk result (λ t. t ≡ no_ports station) }
    {
        Ok(PortTable {
            station,
            opened: 0,
            ports: Vec::with_capacity(alloc, MAX_PORTS)?,
            some_paused: false,
        })
    }

    /// The station's address.
    pub fn station(&self) -> Address
        ensures { result ≡ self.now.station }
    {
        self.station
    }

    /// How many ports are open.
    pub fn len(&self) -> usize
        ensures value { result ≡ length self.now.open_ports }
        ensures valid { ArePorts self.now }
    {
        self.ports.len()
    }

    /// Whether no port is open.
    pub fn is_empty(&self) -> bool
        ensures { result ≡ (length self.now.open_ports == 0) }
    {
        self.ports.is_empty()
    }

    /// Why `open` would be refused, if it would.
    pub fn open_refusal(&self) -> Option<Refused>
        ensures { result ≡ opening_refusal self.now }
    {
        if self.ports.len() >= MAX_PORTS || self.opened == u64::MAX {
            return Some(Refused::PortsFull);
        }
        None
    }

    /// Opens a port for messages of a PGN, of at most `max_len` bytes. Its number is the next one, from 1.
    ///
    /// Refused as `PortsFull` exactly if 16 ports are open or the next number would pass the end of `u64`; then nothing
    /// changes.
    pub fn open(&mut self, pgn: Pgn, max_len: u32) -> Result<PortId, Refused>
        ensures id { IfOk result (λ id. id ≡ next_id self.old) }
        ensures ok { OnOk result (self.new ≡ with_port self.old pgn max_len) }
        ensures refused { result_err result ≡ opening_refusal self.old }
        ensures err { OnErr result (self.new ≡ self.old) }
        ensures valid { ArePorts self.new }
    {
        if let Some(cause) = self.open_refusal() {
            return Err(cause);
        }
        self.opened += 1;
        let number = self.opened;
        self.ports.push_reserved(Port {
            number,
            pgn,
            max_len,
            paused: false,
        });
        Ok(PortId {
            station: self.station,
            number,
        })
    }

    /// Why `close` of a port would be refused, if it would.
    pub fn close_refusal(&self, number: u64) -> Option<Refused>
        ensures { result ≡ closing_refusal self.now number }
    {
        if !self.is_open(number) {
            return Some(Refused::NoSuchPort);
        }
        None
    }

    /// Closes a port. Refused as `NoSuchPort` exactly if no open port has this number; then nothing changes.
    pub fn close(&mut self, number: u64) -> Result<(), Refused>
        ensures ok { OnOk result (self.new ≡ without_port self.old number) }
        ensures refused { result_err result ≡ closing_refusal self.old number }
        ensures err { OnErr result (self.new ≡ self.old) }
        ensures valid { ArePorts self.new }
    {
        // One pass over the ports: if all stay, none has the number.
        let open = self.ports.len();
        remove(&mut self.ports, number);
        if self.ports.len() == open {
            return Err(Refused::NoSuchPort);
        }
        self.some_paused = is_one_paused(&self.ports);
        Ok(())
    }

    /// Why `pause` of a port would be refused, if it would: the first cause.
    pub fn pause_refusal(&self, number: u64) -> Option<Refused>
        ensures { result ≡ pausing_refusal self.now number }
    {
        if !self.is_open(number) {
            return Some(Refused::NoSuchPort);
        }
        if self.is_paused(number) {
            return Some(Refused::PortPaused);
        }
        None
    }

    /// Pauses a port: it is found as before, and its sessions are held.
    ///
    /// Refused as `NoSuchPort` exactly if no open port has this number, else as `PortPaused` if it is paused; then
    /// nothing changes.
    pub fn pause(&mut self, number: u64) -> Result<(), Refused>
        ensures ok { OnOk result (self.new ≡ with_paused self.old number true) }
        ensures refused { result_err result ≡ pausing_refusal self.old number }
        ensures err { OnErr result (self.new ≡ self.old) }
        ensures valid { ArePorts self.new }
    {
        if let Some(cause) = self.pause_refusal(number) {
            return Err(cause);
        }
        mark(&mut self.ports, number, true);
        self.some_paused = is_one_paused(&self.ports);
        Ok(())
    }

    /// Why `resume` of a port would be refused, if it would: the first cause.
    pub fn resume_refusal(&self, number: u64) -> Option<Refused>
        ensures { result ≡ resuming_refusal self.now number }
    {
        if !self.is_open(number) {
            return Some(Refused::NoSuchPort);
        }
        if !self.is_paused(number) {
            return Some(Refused::PortNotPaused);
        }
        None
    }

    /// Ends the pause of a port.
    ///
    /// Refused as `NoSuchPort` exactly if no open port has this number, else as `PortNotPaused` if it isn't paused; then
    /// nothing changes.
    pub fn resume(&mut self, number: u64) -> Result<(), Refused>
        ensures ok { OnOk result (self.new ≡ with_paused self.old number false) }
        ensures refused { result_err result ≡ resuming_refusal self.old number }
        ensures err { OnErr result (self.new ≡ self.old) }
        ensures valid { ArePorts self.new }
    {
        if let Some(cause) = self.resume_refusal(number) {
            return Err(cause);
        }
        mark(&mut self.ports, number, false);
        self.some_paused = is_one_paused(&self.ports);
        Ok(())
    }

    /// The open port with this number.
    pub fn get(&self, number: u64) -> Option<Port>
        ensures value { result ≡ port_at self.now number }
        ensures valid { ArePorts self.now }
    {
        self.ports
            .iter()
            .find(|port| port.number == number)
            .copied()
    }

    /// Whether a port with this number is open.
    pub fn is_open(&self, number: u64) -> bool
        ensures { result ≡ is_open_at self.now number }
    {
        self.get(number).is_some()
    }

    /// Whether a port with this number is open and paused.
    pub fn is_paused(&self, number: u64) -> bool
        ensures { result ≡ is_paused_at self.now number }
    {
        match self.get(number) {
            Some(port) => port.paused,
            None => false,
        }
    }

    /// Whether a port is paused. No port is asked.
    #[inline]
    pub fn has_paused(&self) -> bool
        ensures value { result ≡ has_paused self.now.open_ports }
        ensures none { OnFalse result ((set : List ℕ) → is_any_paused self.now set ≡ false) }
    {
        self.some_paused
    }

    /// Whether a port of the set is open and paused: a session that gives to the set is held then.
    pub fn any_paused(&self, set: &PortSet) -> bool
        ensures { result ≡ is_any_paused self.now set.now }
    {
        self.ports
            .iter()
            .any(|port| port.paused && set.contains(port.number))
    }

    /// The open ports, paused ones too, that receive a message of `len` bytes of this PGN, by rising number.
    pub fn find(&self, pgn: Pgn, len: u32) -> PortSet
        ensures value { result ≡ ports_for self.now pgn len }
        ensures rising { AllPairs ◌<◌ result }
    {
        let mut set = PortSet::empty();
        for port in &self.ports {
            if port.pgn == pgn && len <= port.max_len {
                set.push(port.number);
            }
        }
        set
    }
}

/// Whether a port is paused.
fn is_one_paused(ports: &[Port]) -> bool
    ensures { result ≡ has_paused ports.now }
{
    ports.iter().any(|port| port.paused)
}

/// Takes the port with this number out.
fn remove(ports: &mut Vec<Port>, number: u64)
    ensures items { ports.new.items ≡ less_port number ports.old.items }
    ensures capacity { vec_capacity ports.new ≡ vec_capacity ports.old }
{
    ports.retain(|port| port.number != number);
}

/// Writes whether the port with this number is paused.
fn mark(ports: &mut Vec<Port>, number: u64, paused: bool)
    ensures items { ports.new.items ≡ map (marked number paused) ports.old.items }
    ensures capacity { vec_capacity ports.new ≡ vec_capacity ports.old }
{
    for port in ports.iter_mut() {
        if port.number == number {
            port.paused = paused;
        }
    }
}
