//! Which station transmits next.
ghost use Rattle.watched_segment.specs.Lowest.{IsNext};

use pgn_ids::Address;
use segment_core::Segment;

/// The station whose first frame has the lowest identifier, of several the first; none if no station has a frame to transmit.
pub fn lowest_front(segment: &Segment, addresses: &[Address]) -> Option<Address>
    ensures { IsNext segment.now addresses.now result }
{
    let mut lowest = None;
    let mut least = u32::MAX;
    for address in addresses {
        let Some(frame) = segment.front(*address) else {
            continue;
        };
        let raw = frame.id().raw();
        if raw >= least {
            continue;
        }
        least = raw;
        lowest = Some(*address);
    }
    lowest
}
