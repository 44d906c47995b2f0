//! Frames that the station missed.
ghost use Rattle.std.specs.Prelude.{◌≡◌, []};
ghost use Rattle.lane_core.specs.Overrun.{overrun as overrun_lane};

use crate::lane::Lane;
use crate::place::UnderWay;
use crate::step::Ended;

impl Lane {
    /// The station missed frames: a connection under way ends, and nothing is queued. A broadcast and a Request
    /// continue.
    pub fn overrun(&mut self) -> Option<Ended>
        ensures lane { self.new ≡ (overrun_lane self.old).0 }
        ensures silent { (overrun_lane self.old).1.frames ≡ [] }
        ensures ended { result ≡ (overrun_lane self.old).1.ended }
    {
        match self.take_under_way() {
            UnderWay::Connection(state) => self.over(state.overrun().outcome),
            other => {
                self.put_under_way(other);
                None
            }
        }
    }
}
