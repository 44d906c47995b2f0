//! Frames that were missed.
ghost use Rattle.std.specs.Prelude.{◌≡◌, IfOk, OnOk, OnErr};
ghost use Rattle.station_core.specs.Overruns.{overrun, HasNoneUnderWay};

use crate::station::Station;
use message_events::Events;
use std::alloc::AllocError;

impl Station {
    /// Frames were missed: each incoming session ends, and so does each connection under way, with its outcome; the
    /// outcomes are returned by rising destination. Nothing is queued. Broadcasts under way and Requests continue.
    ///
    /// Want of memory changes nothing.
    pub fn overrun(&mut self) -> Result<Events, AllocError>
        ensures ok { IfOk result (λ events. overrun self.old ≡ record { station = self.new; events = events }) }
        ensures ended { OnOk result (HasNoneUnderWay self.new) }
        ensures err { OnErr result (self.new ≡ self.old) }
    {
        let events = self.lanes.overrun_all(self.alloc, self.address)?;
        self.sessions.overrun();
        Ok(events)
    }
}
