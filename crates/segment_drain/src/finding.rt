//! The lowest station that can do something.
ghost use Rattle.std.specs.Prelude.{◌≡◌};
ghost use Rattle.segment_drain.specs.Chosen.{can, is_for_bus, lowest, most_waiting, nodes};

use crate::kind::Kind;
use pgn_ids::Address;
use segment_core::{Call, Refusal, Segment};

/// The lowest address that can do it, if there is one.
#[tactic(auto, using(crate::proofs::Lowests::lowest_laws))]
pub(crate) fn lowest(segment: &Segment, kind: Kind) -> Option<Address>
    ensures { result ≡ lowest segment.now kind }
{
    for address in 0..Address::NULL.0 {
        let station = Address(address);
        if can(segment, kind, station) {
            return Some(station);
        }
    }
    None
}

// Whether a station can do it.
fn can(segment: &Segment, kind: Kind, station: Address) -> bool
    ensures { result ≡ can segment.now kind station }
{
    match kind {
        Kind::Take => {
            let room = true;
            segment.refusal(&Call::Take { station, room }).is_none()
        }
        Kind::Transmit => segment.refusal(&Call::Transmit { station }).is_none(),
        Kind::Blocked => is_for_bus(segment.refusal(&Call::Transmit { station })),
        Kind::Behind(n) => segment.waiting(station) == n,
        Kind::Pump => segment.next_pump(station).is_some(),
        Kind::Fire => segment.refusal(&Call::Fire { station }).is_none(),
    }
}

// Whether the bus takes no frame.
fn is_for_bus(cause: Option<Refusal>) -> bool
    ensures { result ≡ is_for_bus cause }
{
    match cause {
        Some(Refusal::BusFull) => true,
        _ => false,
    }
}

/// The most frames that wait for a station.
#[tactic(auto, using(crate::proofs::Lowests::most_laws))]
pub(crate) fn most_waiting(segment: &Segment) -> u64
    ensures { result ≡ most_waiting segment.now nodes }
{
    let mut most = 0;
    for address in 0..Address::NULL.0 {
        most = most.max(segment.waiting(Address(address)));
    }
    most
}
