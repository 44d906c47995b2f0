//! Ports as plain data.
ghost use Rattle.std.specs.Prelude.{◌≡◌, ◌↔◌, IfOk, IsTrue};

use crate::port::Port;
use crate::table::PortTable;
use pgn_ids::Address;
use std::alloc::{AllocError, Global};
use std::marker::Model;

/// What the ports of a station were: its address, the open ports by rising number, and how many it ever opened.
#[derive(Debug, Drop)]
pub struct PortsImage {
    station: Address,
    opened: u64,
    ports: Vec<Port>,
}

impl Model for PortsImage {
    ghost use Rattle.port_table.specs.Ports.{Ports};

    ghost Value = { Ports };

    ghost view = { λ i. record { station = i.station; open_ports = i.ports.items; opened = i.opened } };
}

impl PortTable {
    /// The ports as plain data. It takes memory for as many as are open.
    pub fn image(&self, alloc: Global) -> Result<PortsImage, AllocError>
        ensures { IfOk result (λ image. image ≡ self.now) }
    {
        Ok(PortsImage {
            station: self.station,
            opened: self.opened,
            ports: Vec::from_slice(alloc, &self.ports)?,
        })
    }
}

impl PortsImage {
    /// Whether these are the ports of a table. It takes no memory.
    pub fn is_of(&self, table: &PortTable) -> bool
        ensures { IsTrue result ↔ (self.now ≡ table.now) }
    {
        self.station.0 == table.station.0
            && self.opened == table.opened
            && are_same(&self.ports, &table.ports)
    }
}

// Whether two ports are equal.
fn is_same(a: &Port, b: &Port) -> bool
    ensures { IsTrue result ↔ (a.now ≡ b.now) }
{
    a.number == b.number
        && a.pgn.raw() == b.pgn.raw()
        && a.max_len == b.max_len
        && a.paused == b.paused
}

// Whether the ports are equal.
fn are_same(a: &[Port], b: &[Port]) -> bool
    ensures { IsTrue result ↔ (a.now ≡ b.now) }
{
    if a.len() != b.len() {
        return false;
    }
    for i in 0..a.len() {
        if !is_same(&a[i], &b[i]) {
            return false;
        }
    }
    true
}
