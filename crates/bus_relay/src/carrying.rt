//! The relay of a run.
ghost use Rattle.std.specs.Prelude.{◌≡◌, length, IfOk, OnOk};
ghost use Rattle.port_relay.specs.Relaying.{IsRelayed};
ghost use Rattle.bus_relay.specs.Carriages.{HasCarried, IsBy};

use pgn_ids::Address;
use port_relay::{Relayed, Route, relay};
use script_runs::Lost;
use script_segments::Passage;
use segment_threads::{Board, Client, Delivery, Gate, Inbox, read_all};
use std::alloc::Global;
use std::marker::Model;
use std::sync::Wait;
use std::thread::Threads;

/// The inbox and the client of a relay, and what it is to do.
#[derive(Drop)]
pub(crate) struct Carrying {
    pub(crate) inbox: Inbox,
    pub(crate) client: Client,
    pub(crate) passage: Passage,
}

/// A relay's inbox and client after it, the station that it sent to, how many messages it was to receive at most, and how many it
/// received, submitted and left.
#[derive(Drop)]
pub(crate) struct Carried {
    pub(crate) inbox: Inbox,
    pub(crate) client: Client,
    pub(crate) to: Address,
    pub(crate) limit: u64,
    pub(crate) pulled: u64,
    pub(crate) pushed: u64,
    pub(crate) left: u64,
}

/// A `Carried` for which the facts hold that `carry` promises: as its invariant they pass from thread to thread with it.
#[derive(Drop)]
pub(crate) struct Account {
    carried: Carried,
}

impl Model for Account {
    ghost use Rattle.bus_relay.specs.Carriages.{HasCarried};
    ghost use Rattle.bus_relay.specs.declared.carrying.Carried.{Carried};

    ghost Value = { Carried };

    ghost view = { λ a. a.carried };

    ghost invariant = { λ a. HasCarried a.carried };
}

impl Account {
    pub(crate) fn of(carried: Carried) -> Account
        requires { HasCarried carried }
        ensures { result ≡ carried }
    {
        Account { carried }
    }

    pub(crate) fn into_carried(self) -> Carried
        ensures value { result ≡ self }
        ensures facts { HasCarried result }
    {
        let Account { carried } = self;
        carried
    }
}

// An inbox that received nothing yet, and a client that submitted nothing, as all are that were just made.
fn check_new(inbox: &Inbox, client: &Client) -> Result<(), Lost>
    ensures { OnOk result ((length inbox.now.received ≡ 0) × (length client.now.submitted ≡ 0)) }
{
    if inbox.gone() > 0 || client.submitted_gone() > 0 {
        return Err(Lost::NotThisSegment);
    }
    if inbox.received().len() > 0 {
        return Err(Lost::NotThisSegment);
    }
    if client.submitted().len() > 0 {
        return Err(Lost::NotThisSegment);
    }
    Ok(())
}

fn relay_to<R: Threads + Wait + Sync, G: Gate + Sync>(
    rt: &R,
    alloc: Global,
    inbox: &mut Inbox,
    client: &mut Client,
    to: Address,
    limit: u64,
    turns: u64,
    gate: &G,
) -> Result<Relayed, Lost>
    ensures { IfOk result (λ r. IsRelayed to limit inbox.old inbox.new client.old client.new r) }
{
    let Ok(route) = Route::new(to) else {
        return Err(Lost::NotThisSegment);
    };
    let relayed = relay(rt, alloc, inbox, client, route, limit, turns, gate)?;
    Ok(relayed)
}

fn count_of(left: &[Delivery]) -> u64
    ensures { result ≡ length left.now }
{
    left.len() as u64
}

/// Relays, and reads the outcomes of what it submitted.
///
/// `NotThisSegment` if the inbox or the client isn't new or the route leads to no station; `OutOfMemory` if memory was refused
/// before the first message was received.
pub(crate) fn carry<R: Threads + Wait + Sync, G: Gate + Sync>(
    rt: &R,
    alloc: Global,
    carrying: Carrying,
    board: &Board,
    gate: &G,
    turns: u64,
) -> Result<Carried, Lost>
    ensures { IfOk result (λ c. HasCarried c) }
{
    let Carrying {
        mut inbox,
        mut client,
        passage,
    } = carrying;
    let Passage { to, limit, .. } = passage;
    check_new(&inbox, &client)?;
    let relayed = relay_to(rt, alloc, &mut inbox, &mut client, to, limit, turns, gate)?;
    read_all(&mut client, board, relayed.pushed);
    let left = count_of(relayed.left.as_slice());
    Ok(Carried {
        inbox,
        client,
        to,
        limit,
        pulled: relayed.pulled,
        pushed: relayed.pushed,
        left,
    })
}

/// Fails with `NotThisSegment` unless it was carried by this passage, with the client of this number.
pub(crate) fn check_passage(carried: &Carried, passage: Passage, client: u64) -> Result<(), Lost>
    ensures { OnOk result (IsBy carried.now passage client) }
{
    let port = carried.inbox.port();
    if port.station.0 != passage.port.station.0 {
        return Err(Lost::NotThisSegment);
    }
    if port.number != passage.port.number {
        return Err(Lost::NotThisSegment);
    }
    if carried.client.id() != client {
        return Err(Lost::NotThisSegment);
    }
    if carried.to.0 != passage.to.0 {
        return Err(Lost::NotThisSegment);
    }
    if carried.limit != passage.limit {
        return Err(Lost::NotThisSegment);
    }
    Ok(())
}
