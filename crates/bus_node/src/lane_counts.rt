//! How many of the station's lanes are in doubt, and how many have something to do.
ghost use Rattle.std.specs.Prelude.{◌≡◌};
ghost use Rattle.bus_node.specs.LaneCounts.{lanes_in_doubt, lanes_pending};

use crate::node::Node;
use pgn_ids::Address;

/// How many destinations there are.
const DESTINATIONS: usize = 256;

/// How many lanes are in doubt after a message that failed, and how many have a message that waits or is under way.
#[derive(Clone, Copy, PartialEq, Eq)]
pub(crate) struct LaneCounts {
    pub(crate) doubted: u64,
    pub(crate) pending: u64,
}

impl Node {
    /// The counts of the station's lanes.
    #[tactic(auto, using(station_lanes::proofs::Told::count_laws))]
    pub(crate) fn lane_counts(&self) -> LaneCounts
        ensures doubted { result.doubted ≡ lanes_in_doubt self.now }
        ensures pending { result.pending ≡ lanes_pending self.now }
    {
        let mut doubted = 0u64;
        let mut pending = 0u64;
        for to in 0..DESTINATIONS {
            let lane = self.station.lane(Address(to as u8));
            if lane.in_doubt {
                doubted += 1;
            }
            if lane.pending > 0 {
                pending += 1;
            }
        }
        LaneCounts { doubted, pending }
    }
}
