//! A station at address 21 on can0. Standard input has the frames of the bus, as `candump -L` prints them, and commands for the station;
//! standard output has the frames that it puts, the replies, and its events.
#![tactic(auto)]

use anyhow::Result;
use bus_node::{Node, Ran, run_node};
use log_text::Iface;
use pgn_ids::Address;
use std::io;
use std::io::{BufReader, BufWriter};
use std::process::ExitCode;

const STATION: Address = Address(0x21);

/// After a connection failed, nothing is sent to its destination for so many milliseconds.
const QUIET: u64 = 700;

/// Reports how many lines were wrong, if any were, and why the run ended before its end, if it did.
fn tell(rt: &impl Eprint, ran: Ran) -> Result<ExitCode> {
    let counts = ran.counts;
    if counts.wrong != 0 {
        eprintln!(rt; "{counts}")?;
    }
    if let Some(fault) = ran.fault {
        eprintln!(rt; "{fault}")?;
    }
    Ok(ExitCode::from(ran.status()))
}

fn main(rt: HostRuntime) -> Result<ExitCode> {
    let alloc = rt.alloc();
    let iface = Iface::new(b"can0")?;
    let mut reader = BufReader::new(alloc, rt.reader())?;
    let mut writer = BufWriter::new(alloc, io::writer(&rt))?;
    let mut node = Node::new(alloc, STATION, iface, QUIET)?;
    let ran = run_node(alloc, &mut node, &mut reader, &mut writer);
    tell(&rt, ran)
}
