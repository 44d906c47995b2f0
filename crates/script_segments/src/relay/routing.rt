//! The passage of a route.
ghost use Rattle.std.specs.Prelude.{◌≡◌, ◌<◌, length, map, slice_index_or};
ghost use Rattle.stored_calls.specs.declared.stored.Stored.{Stored};
ghost use Rattle.segment_law.specs.Told.{same_port};
ghost use Rattle.script_commands.specs.Words.{texts};
ghost use Rattle.script_segments.specs.Plan.{plan_of, port_of};
ghost use Rattle.script_segments.specs.Gateway.{plans_of, Done, routed_by, not_routed, passage_of, pgn_asked, pgn_of_port, port_pgn, count_to};

use crate::relay::gateway::{Gateway, Passage, Routing};
use crate::setup::{Message, Setup};
use crate::uncut::Uncut;
use line_faults::{Fault, LineError};
use live_segment::Inbox;
use pgn_ids::{Address, Pgn};
use port_table::PortId;
use script_commands::{RouteWords, read_route};
use segment_law::{Call, Refusal};
use std::alloc::Global;
use stored_calls::StoredCalls;

// The PGN of the port that a call opens.
fn pgn_asked(call: &Call) -> Option<Pgn>
    ensures { result ≡ pgn_asked call.now }
{
    match call {
        Call::Open { pgn, .. } => Some(*pgn),
        _ => None,
    }
}

// The PGN of the port that the call at a place opens: one that is kept short opens none.
fn pgn_asked_at(calls: &StoredCalls, at: usize) -> Option<Pgn>
    requires { at < length calls.now.items }
    ensures { (x : Stored) → result ≡ pgn_asked (slice_index_or calls.now.items at x).call }
{
    let Some(stored) = calls.whole(at) else {
        return None;
    };
    pgn_asked(&stored.call)
}

fn is_of(inbox: &Inbox, port: PortId) -> bool
    ensures { result ≡ same_port (port_of inbox.now) port }
{
    let own = inbox.port();
    own.station.0 == port.station.0 && own.number == port.number
}

// The PGN of a port, if it is one of these. Each call opened the port of its place.
fn pgn_of_port(inboxes: &[Inbox], calls: &StoredCalls, port: PortId) -> Option<Pgn>
    ensures { result ≡ pgn_of_port (map port_of inboxes.now) calls.now.items port }
{
    for (k, inbox) in inboxes.iter().enumerate() {
        if k >= calls.len() {
            return None;
        }
        if is_of(inbox, port) {
            return pgn_asked_at(calls, k);
        }
    }
    None
}

// The PGN of a port, if it was opened.
fn port_pgn(first: &Setup, port: PortId) -> Option<Pgn>
    ensures { result ≡ port_pgn (plan_of first.now) port }
{
    let Some(live) = &first.live else {
        return None;
    };
    pgn_of_port(first.inboxes.as_slice(), live.calls(), port)
}

// How many of the messages have a PGN, and are for one station or for all.
fn count_to(station: Address, pgn: Pgn, messages: &[Message]) -> u64
    ensures { result ≡ count_to station pgn messages.now }
{
    let mut count = 0;
    for message in messages {
        if message.pgn == pgn && (message.to.0 == station.0 || message.to.0 == Address::GLOBAL.0) {
            count += 1;
        }
    }
    count
}

// The route is refused, which its line prints.
fn refuse(alloc: Global, gateway: &mut Gateway, cause: Refusal) -> Result<(), LineError>
    ensures { Done result (plans_of gateway.old) (plans_of gateway.new) (not_routed (plans_of gateway.old) cause) }
{
    gateway.routing = Routing::Refused;
    gateway.here.refuse(alloc, cause)
}

// The passage of a route to the second segment, or why there is none.
fn passage_of(first: &Setup, second: &Uncut, words: RouteWords) -> Result<Passage, Refusal>
    ensures { result ≡ passage_of (plan_of first.now) second.now.addresses words }
{
    let Some(pgn) = port_pgn(first, words.port) else {
        return Err(Refusal::NoSuchPort);
    };
    if !second.has_station(words.from) || !words.to.is_one() {
        return Err(Refusal::NoSuchStation);
    }
    if words.from.0 == words.to.0 {
        return Err(Refusal::SameStation);
    }
    Ok(Passage {
        port: words.port,
        from: words.from,
        to: words.to,
        limit: count_to(words.port.station, pgn, first.messages.as_slice()),
    })
}

/// A `route` line, by its words behind the name.
pub(crate) fn route(alloc: Global, gateway: &mut Gateway, words: &[&[u8]]) -> Result<(), LineError>
    ensures { Done result (plans_of gateway.old) (plans_of gateway.new) (routed_by (plans_of gateway.old) (texts words.now)) }
{
    let Some(first) = &gateway.before else {
        return Err(LineError::Fault(Fault::UnknownCommand));
    };
    let words = read_route(words)?;
    let Some(second) = &gateway.here.live else {
        return Err(LineError::Fault(Fault::NoStations));
    };
    match passage_of(first, second, words) {
        Ok(passage) => {
            gateway.routing = Routing::To(passage);
            Ok(())
        }
        Err(cause) => refuse(alloc, gateway, cause),
    }
}
