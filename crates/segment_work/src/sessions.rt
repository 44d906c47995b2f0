//! What the incoming sessions of a station cost.
ghost use Rattle.std.specs.Prelude.{◌≡◌};
ghost use Rattle.record_law.specs.Counting.{up_to_last};
ghost use Rattle.work_law.specs.Work.{receiver_work, session_work, key_work, source_key, source_work, sessions_work};
ghost use Rattle.segment_work.specs.Terms.{turn_terms};

use crate::rates::{each, hold_work, timed_work};
use crate::saturating::plus;
use pgn_ids::Address;
use responder::Receiver;
use segment_core::Segment;
use session_table::{Incoming, Key, SessionKind};
use station_sessions::Receivers;

// An incoming connection.
#[tactic(auto, using(crate::proofs::Holds::receiver_work_is))]
fn receiver_work(segment: &Segment, receiver: &Receiver) -> u64
    ensures { result ≡ up_to_last (receiver_work (turn_terms segment.now) receiver.now) }
{
    if receiver.is_holding() {
        return plus(timed_work(segment), hold_work(segment));
    }
    timed_work(segment)
}

// An incoming session.
fn session_work(segment: &Segment, state: &Incoming) -> u64
    ensures { result ≡ up_to_last (session_work (turn_terms segment.now) state.now) }
{
    match state {
        Incoming::Broadcast(_) => each(),
        Incoming::Connection(receiver) => receiver_work(segment, receiver),
    }
}

// The session of a kind from a source, if there is one.
fn key_work(segment: &Segment, sessions: &Receivers, source: Address, kind: SessionKind) -> u64
    ensures { result ≡ up_to_last (key_work (turn_terms segment.now) sessions.now (source_key source.0 kind)) }
{
    match sessions.get(Key { source, kind }) {
        None => 0,
        Some((_set, state)) => session_work(segment, state),
    }
}

// The sessions from a source.
fn source_work(segment: &Segment, sessions: &Receivers, source: Address) -> u64
    ensures { result ≡ up_to_last (source_work (turn_terms segment.now) sessions.now source.0) }
{
    let broadcast = key_work(segment, sessions, source, SessionKind::Broadcast);
    let tp = key_work(segment, sessions, source, SessionKind::Tp);
    let etp = key_work(segment, sessions, source, SessionKind::Etp);
    plus(plus(broadcast, tp), etp)
}

/// The incoming sessions of a station.
#[tactic(auto, using(crate::proofs::Sums::below_steps))]
pub(crate) fn sessions_work(segment: &Segment, sessions: &Receivers) -> u64
    ensures { result ≡ up_to_last (sessions_work (turn_terms segment.now) sessions.now) }
{
    let mut total = 0;
    for address in 0..Address::NULL.0 {
        let source = source_work(segment, sessions, Address(address));
        total = plus(total, source);
    }
    total
}
