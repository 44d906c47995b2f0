//! The text of what threads leave of a segment.
ghost use Rattle.std.specs.Prelude.{◌≡◌, ◌++◌, ◌==◌, ◌<◌, ◌≤◌, ◌↔◌, [], true, false, suc, length, All, OnOk, IfErr, IsTrue, MatchOption};
ghost use Rattle.script_runs.specs.declared.ending.Lost.TheVariants.{NotThisSegment};
ghost use Rattle.live_record.specs.Record.{trail, given, notes_of};
ghost use Rattle.script_segments.specs.Reports.{HasPort};
ghost use Rattle.script_segments.specs.Texts.{below, given_lines, port_lines, ports_at, numbered_lines, highest, outcome_lines, clients_at};
ghost use Rattle.script_segments.specs.Known.{ArePorts, ArePortsAt, HaveClients, HaveClientsAt};
ghost use Rattle.script_segments.specs.Noted.{count_from, HasRunOut};

use crate::setup::Message;
use live_segment::{Delivery, Live, Note};
use pgn_ids::Address;
use port_table::PortId;
use script_runs::Lost;
use script_text::{print_given, print_outcome, print_port};
use std::alloc::AllocError;

/// How many addresses there are.
const ADDRESSES: u16 = 256;

// Whether an address is this number.
fn is_at(address: Address, number: u16) -> bool
    ensures value { result ≡ (address.0 == number) }
    ensures small { address.0 < 256 }
{
    u16::from(address.0) == number
}

// What a port was given by one sender to one destination, in the order in which it was given.
fn print_lane(
    out: &mut Vec<u8>,
    port: PortId,
    from: u16,
    to: u16,
    given: &[Delivery],
) -> Result<(), AllocError>
    ensures { OnOk result (out.new.items ≡ out.old.items ++ given_lines port from to given.now) }
{
    for delivery in given {
        if is_at(delivery.from, from) && is_at(delivery.to, to) {
            print_given(
                out,
                port,
                delivery.from,
                delivery.to,
                delivery.pgn,
                &delivery.bytes,
            )?;
        }
    }
    Ok(())
}

// What it was given by one sender, by rising destination.
fn print_sender(
    out: &mut Vec<u8>,
    port: PortId,
    from: u16,
    given: &[Delivery],
) -> Result<(), AllocError>
    ensures { OnOk result (out.new.items ≡ out.old.items ++ below 256 (λ to. given_lines port from to given.now)) }
{
    for to in 0..ADDRESSES {
        print_lane(out, port, from, to, given)?;
    }
    Ok(())
}

// What it was given by all, by rising sender.
fn print_deliveries(out: &mut Vec<u8>, port: PortId, given: &[Delivery]) -> Result<(), AllocError>
    ensures { OnOk result (out.new.items ≡ out.old.items ++ below 256 (λ from. below 256 (λ to. given_lines port from to given.now))) }
{
    for from in 0..ADDRESSES {
        print_sender(out, port, from, given)?;
    }
    Ok(())
}

// What a port was given: all of it, since nothing was cut.
fn whole_given(live: &Live, port: PortId) -> Option<&[Delivery]>
    requires { live.now.pieces ≡ [] }
    ensures { MatchOption result (HasPort live.now.ports port → ⊥) (λ ds. HasPort live.now.ports port × (ds.now ≡ given port (trail live.now.addresses live.now.calls).events)) }
{
    live.laws();
    live.given_to(port)
}

// A port, and what it was given.
#[tactic(auto, unfolding(crate::specs::Texts::port_lines))]
fn print_given_to(out: &mut Vec<u8>, live: &Live, port: PortId) -> Result<(), Lost>
    requires { live.now.pieces ≡ [] }
    ensures text { OnOk result (out.new.items ≡ out.old.items ++ port_lines port (given port (trail live.now.addresses live.now.calls).events)) }
    ensures known { OnOk result (HasPort live.now.ports port) }
    ensures unknown { IfErr result (λ lost. lost ≡ NotThisSegment → HasPort live.now.ports port → ⊥) }
{
    let Some(given) = whole_given(live, port) else {
        return Err(Lost::NotThisSegment);
    };
    print_port(out, port)?;
    print_deliveries(out, port, given)?;
    Ok(())
}

// The ports of one station, in the order in which they were opened, which is that of their numbers.
fn print_ports_at(
    out: &mut Vec<u8>,
    live: &Live,
    ports: &[PortId],
    station: u16,
) -> Result<(), Lost>
    requires { live.now.pieces ≡ [] }
    ensures text { OnOk result (out.new.items ≡ out.old.items ++ ports_at station ports.now (trail live.now.addresses live.now.calls)) }
    ensures known { OnOk result (ArePortsAt station live.now.ports ports.now) }
    ensures small { OnOk result (All (λ port. port.station.0 < 256) ports.now) }
    ensures unknown { IfErr result (λ lost. lost ≡ NotThisSegment → ArePorts live.now.ports ports.now → ⊥) }
{
    for port in ports {
        if is_at(port.station, station) {
            print_given_to(out, live, *port)?;
        }
    }
    Ok(())
}

/// Prints the ports by rising station, and those of one station in the order in which they are listed: each with what the record of the
/// segment gives to it, by rising sender and destination and in the order in which it was given.
///
/// `NotThisSegment` if one of them is no port of the segment, or the segment was cut, since it may then not keep all that was given;
/// `OutOfMemory` if memory was refused. What the buffer holds then is not specified.
pub fn print_ports(out: &mut Vec<u8>, live: &Live, ports: &[PortId]) -> Result<(), Lost>
    ensures text { OnOk result (out.new.items ≡ out.old.items ++ below 256 (λ station. ports_at station ports.now (trail live.now.addresses live.now.calls))) }
    ensures known { OnOk result (ArePorts live.now.ports ports.now) }
    ensures uncut { OnOk result (live.now.pieces ≡ []) }
    ensures unknown { IfErr result (λ lost. lost ≡ NotThisSegment → live.now.pieces ≡ [] → ArePorts live.now.ports ports.now → ⊥) }
{
    if live.cuts() > 0 {
        return Err(Lost::NotThisSegment);
    }
    for station in 0..ADDRESSES {
        print_ports_at(out, live, ports, station)?;
    }
    Ok(())
}

// The outcome of the message of this number to this destination.
fn print_numbered(
    out: &mut Vec<u8>,
    from: Address,
    to: u16,
    number: u64,
    notes: &[Note],
) -> Result<(), AllocError>
    ensures { OnOk result (out.new.items ≡ out.old.items ++ numbered_lines from to number notes.now) }
{
    for note in notes {
        if is_at(note.to, to) && note.number == number {
            print_outcome(out, from, note.to, note.number, note.outcome)?;
        }
    }
    Ok(())
}

// The highest number of a message.
fn highest(notes: &[Note]) -> u64
    ensures { result ≡ highest notes.now }
{
    let mut top = 0;
    for note in notes {
        top = top.max(note.number);
    }
    top
}

// The outcomes of the messages to one destination, by rising number.
fn print_destination(
    out: &mut Vec<u8>,
    from: Address,
    to: u16,
    notes: &[Note],
) -> Result<(), AllocError>
    ensures { OnOk result (out.new.items ≡ out.old.items ++ below (suc (highest notes.now)) (λ number. numbered_lines from to number notes.now)) }
{
    let top = highest(notes);
    for number in 0..top {
        print_numbered(out, from, to, number, notes)?;
    }
    print_numbered(out, from, to, top, notes)?;
    Ok(())
}

// The outcomes of a client's messages, by rising destination.
#[tactic(auto, unfolding(crate::specs::Texts::outcome_lines))]
fn print_outcomes(out: &mut Vec<u8>, from: Address, notes: &[Note]) -> Result<(), AllocError>
    ensures { OnOk result (out.new.items ≡ out.old.items ++ outcome_lines from notes.now) }
{
    for to in 0..ADDRESSES {
        print_destination(out, from, to, notes)?;
    }
    Ok(())
}

// The notes of a client: all of them, since nothing was cut.
fn whole_notes(live: &Live, client: u64) -> Option<&[Note]>
    requires { live.now.pieces ≡ [] }
    ensures { MatchOption result (length live.now.clients ≤ client) (λ ns. (client < length live.now.clients) × (ns.now ≡ notes_of client (trail live.now.addresses live.now.calls).noted)) }
{
    live.laws();
    live.notes_of(client)
}

fn print_client(out: &mut Vec<u8>, live: &Live, client: u64, from: Address) -> Result<(), Lost>
    requires { live.now.pieces ≡ [] }
    ensures text { OnOk result (out.new.items ≡ out.old.items ++ outcome_lines from (notes_of client (trail live.now.addresses live.now.calls).noted)) }
    ensures known { OnOk result (client < length live.now.clients) }
    ensures unknown { IfErr result (λ lost. lost ≡ NotThisSegment → client < length live.now.clients → ⊥) }
{
    let Some(notes) = whole_notes(live, client) else {
        return Err(Lost::NotThisSegment);
    };
    print_outcomes(out, from, notes)?;
    Ok(())
}

// The outcomes of the client of one station. Each station has one, and they are numbered from 0 in the order of the stations.
fn print_clients_at(
    out: &mut Vec<u8>,
    live: &Live,
    stations: &[Address],
    station: u16,
) -> Result<(), Lost>
    requires { live.now.pieces ≡ [] }
    ensures text { OnOk result (out.new.items ≡ out.old.items ++ clients_at station 0 stations.now (trail live.now.addresses live.now.calls)) }
    ensures known { OnOk result (HaveClientsAt station live.now.clients stations.now) }
    ensures small { OnOk result (All (λ address. address.0 < 256) stations.now) }
    ensures unknown { IfErr result (λ lost. lost ≡ NotThisSegment → HaveClients live.now.clients stations.now → ⊥) }
{
    for (client, address) in stations.iter().enumerate() {
        if is_at(*address, station) {
            print_client(out, live, client as u64, *address)?;
        }
    }
    Ok(())
}

/// Prints the outcomes that are noted in the record of the segment, by rising station, destination and number. Each station has a client,
/// and they are numbered from 0 in the order of the stations.
///
/// `NotThisSegment` if one of them has none, or the segment was cut, since it may then not keep all notes; `OutOfMemory` if memory was
/// refused. What the buffer holds then is not specified.
pub fn print_clients(out: &mut Vec<u8>, live: &Live, stations: &[Address]) -> Result<(), Lost>
    ensures text { OnOk result (out.new.items ≡ out.old.items ++ below 256 (λ station. clients_at station 0 stations.now (trail live.now.addresses live.now.calls))) }
    ensures known { OnOk result (HaveClients live.now.clients stations.now) }
    ensures unknown { IfErr result (λ lost. lost ≡ NotThisSegment → live.now.pieces ≡ [] → HaveClients live.now.clients stations.now → ⊥) }
{
    if live.cuts() > 0 {
        return Err(Lost::NotThisSegment);
    }
    for station in 0..ADDRESSES {
        print_clients_at(out, live, stations, station)?;
    }
    Ok(())
}

/// Whether two lists have equal addresses in one order.
pub fn are_same(stations: &[Address], others: &[Address]) -> bool
    ensures { IsTrue result ↔ (stations.now ≡ others.now) }
{
    if stations.len() != others.len() {
        return false;
    }
    for i in 0..stations.len() {
        if stations[i] != others[i] {
            return false;
        }
    }
    true
}

// How many of the messages one station sends.
fn count_from(station: Address, messages: &[Message]) -> usize
    ensures { result ≡ count_from station messages.now }
{
    let mut count = 0;
    for message in messages {
        if message.from.0 == station.0 {
            count += 1;
        }
    }
    count
}

// Whether there is no client of this number, or it has fewer notes than these. Those that a cut kept no more count too.
fn lacks_notes(live: &Live, client: u64, count: usize) -> bool
    ensures lacks { result ≡ true → client < length live.now.clients → length (notes_of client (trail live.now.addresses live.now.calls).noted) < count }
    ensures has { result ≡ false → (client < length live.now.clients) × (count ≤ length (notes_of client (trail live.now.addresses live.now.calls).noted)) }
{
    let Some(gone) = live.notes_gone(client) else {
        return true;
    };
    let Some(notes) = live.notes_of(client) else {
        return true;
    };
    notes.len() < count.saturating_sub(gone as usize)
}

/// Whether the turns ran out before the bus was drained and each message had its outcome in the record. Each station has a client, and
/// they are numbered from 0 in the order of the stations; if one has none, the turns ran out.
pub fn has_run_out(live: &Live, stations: &[Address], messages: &[Message], drained: bool) -> bool
    ensures { HasRunOut result stations.now messages.now drained live.now }
{
    if !drained {
        return true;
    }
    for (client, station) in stations.iter().enumerate() {
        if lacks_notes(live, client as u64, count_from(*station, messages)) {
            return true;
        }
    }
    false
}
