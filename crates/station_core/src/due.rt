//! The next timer of a station.
ghost use Rattle.tick_timers.specs.Due.{IsDueFrom};
ghost use Rattle.station_core.specs.Timers.{is_due};

use crate::station::Station;
use tick_timers::earlier;

impl Station {
    /// The tick at which its next timer is due: the least at which `is_due` is true, and it is true from there on until a timer
    /// fires or stops. None exactly if no timer runs that would be due up to the last tick of `u64`.
    ///
    /// A broadcast under way has no timer that fires: see `missing`.
    #[tactic(auto, using(tick_timers::proofs::Dues::due_from_either))]
    pub fn next_due_at(&self) -> Option<u64>
        ensures { IsDueFrom (is_due self.now) result }
    {
        earlier(self.sessions.next_due_at(), self.lanes.next_due_at())
    }
}
