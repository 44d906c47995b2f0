//! When something is next due.
ghost use Rattle.std.specs.Prelude.{◌≡◌};
ghost use Rattle.bus_node.specs.Due.{next_work, paced_until, first_of, next_due};

use crate::node::Node;
use crate::time::due_up_to;
use one_station::Node as Station;

// The first tick, from that of its clock on, at which the station has something to do.
#[tactic(auto, using(crate::proofs::Dues::next_is, crate::proofs::Dues::next_is_none))]
fn next_work(station: &Station) -> Option<u64>
    ensures { result ≡ next_work station.now.segment }
{
    station.next_at()
}

// The earlier of a tick, if there is one, and another, of which the last tick means none.
fn first_of(due: Option<u64>, wake: u64) -> Option<u64>
    ensures { result ≡ first_of due wake }
{
    match due {
        Some(tick) => Some(tick.min(wake)),
        None => {
            if wake == u64::MAX {
                return None;
            }
            Some(wake)
        }
    }
}

impl Node {
    // While a broadcast waits for its time, the first tick at which there is something to do: the next tick if that has passed, since all
    // that there is to do rests. Without such a broadcast, the last tick.
    fn paced_until(&self) -> u64
        ensures { result ≡ paced_until self.now }
    {
        if !self.is_pacing() {
            return u64::MAX;
        }
        let next = self.station.now().saturating_add(1);
        match next_work(&self.station) {
            None => u64::MAX,
            Some(tick) => tick.max(next),
        }
    }

    /// The tick at which the next timer is due, a destination no longer rests, or a broadcast continues.
    pub(crate) fn next_due(&self) -> Option<u64>
        ensures { result ≡ next_due self.now }
    {
        let wake = self.rests.wakes(self.station.now(), u64::MAX);
        first_of(
            due_up_to(&self.station, u64::MAX),
            wake.min(self.paced_until()),
        )
    }
}
