//! What a drain does next.
ghost use Rattle.std.specs.Prelude.{◌≡◌};
ghost use Rattle.segment_drain.specs.Chosen.{next_of, untaken, unblocked, makes_room, next_tick, waits_until};

use crate::end::DrainEnd;
use crate::finding::{lowest, most_waiting};
use crate::kind::Kind;
use pgn_ids::Address;
use segment_core::{Call, Refusal, Segment};

/// What a drain does next.
#[derive(Debug, Drop)]
pub enum Next {
    /// It makes a call.
    Make(Call),
    /// It ends.
    End(DrainEnd),
}

/// What a drain does next on a segment.
#[tactic(auto, unfolding(crate::specs::Chosen::next_of))]
pub(crate) fn next_of(segment: &Segment) -> Next
    ensures { result ≡ next_of segment.now }
{
    match lowest(segment, Kind::Take) {
        Some(station) => Next::Make(Call::Take {
            station,
            room: true,
        }),
        None => untaken(segment),
    }
}

// `next_of`, if no station can take a frame.
fn untaken(segment: &Segment) -> Next
    ensures { result ≡ untaken segment.now }
{
    if let Some(station) = lowest(segment, Kind::Transmit) {
        return Next::Make(Call::Transmit { station });
    }
    if lowest(segment, Kind::Blocked).is_some() {
        return makes_room(segment);
    }
    unblocked(segment)
}

// `next_of`, if no frame can be taken and none is to be put.
fn unblocked(segment: &Segment) -> Next
    ensures { result ≡ unblocked segment.now }
{
    if let Some(station) = lowest(segment, Kind::Pump) {
        let to = segment.next_pump(station).unwrap_or(station);
        return Next::Make(Call::Pump { station, to });
    }
    if let Some(station) = lowest(segment, Kind::Fire) {
        return Next::Make(Call::Fire { station });
    }
    waits_until(segment.now(), next_tick(segment))
}

// The station furthest behind misses what waits for it, so that the bus has room.
fn makes_room(segment: &Segment) -> Next
    ensures { result ≡ makes_room segment.now }
{
    if segment.bus_len() == u64::MAX {
        return Next::End(DrainEnd::Refused(Refusal::BusFull));
    }
    let most = most_waiting(segment);
    let station = lowest(segment, Kind::Behind(most)).unwrap_or(Address(0));
    let n = segment.waiting(station);
    Next::Make(Call::Overrun { station, n })
}

/// The first tick from now on at which something can be done, if there is one up to the last of `u64`.
#[tactic(auto, using(crate::proofs::Lowests::next_laws))]
pub(crate) fn next_tick(segment: &Segment) -> Option<u64>
    ensures { result ≡ next_tick segment.now }
{
    // A number is known to be in its range where it has a name.
    match segment.next_at() {
        Some(tick) => Some(tick),
        None => None,
    }
}

// The clock goes on to a tick.
fn waits_until(now: u64, tick: Option<u64>) -> Next
    ensures { result ≡ waits_until now tick }
{
    match tick {
        None => Next::End(DrainEnd::Rest),
        Some(tick) => Next::Make(Call::Tick {
            n: tick.saturating_sub(now),
        }),
    }
}
