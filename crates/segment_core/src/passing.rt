//! Frames that a station takes without looking at them, or as soon as they are put.
ghost use Rattle.std.specs.Prelude.{◌≡◌, [], IfOk, OnErr};
ghost use Rattle.std.specs.Bool.{OnTrue, OnFalse};
ghost use Rattle.segment_law.specs.declared.call.Call.TheVariants.{Transmit, Inject};
ghost use Rattle.segment_state.specs.Passing.{passing_at, IsPassing};
ghost use Rattle.segment_state.specs.PutTaken.{PutTaken};

use crate::segment::Segment;
use bus_frame::Frame;
use pgn_ids::Address;
use segment_state::Passing;
use station_core::Events;
use std::alloc::AllocError;

impl Segment {
    /// Makes the Take with room of a station whose next frame is none of its business, as `apply`. It takes no memory. Unless a
    /// frame is passed, nothing has changed.
    #[inline(always)]
    pub fn pass_by(&mut self, station: Address) -> Passing
        ensures value { result ≡ passing_at self.old station }
        ensures made { IsPassing self.old station self.new result }
    {
        self.state.pass_by(station)
    }

    /// Makes the Transmit of a station and its Take of that frame, as `apply` one after the other, if the station is the first, all
    /// stations have looked at every frame of the bus, and it doesn't look at this one, as at none of its own. It takes no memory.
    ///
    /// Else this returns false, and nothing changes: these calls are to be made one by one, since one of them may be refused.
    #[inline(always)]
    pub fn transmit_and_take(&mut self, station: Address) -> bool
        ensures made { OnTrue result (PutTaken self.old (Transmit station) station self.new []) }
        ensures other { OnFalse result (self.new ≡ self.old) }
    {
        self.state.transmit_and_take(station)
    }

    /// Makes the Inject of a frame and a station's Take of it with room, as `apply` one after the other, if the station is the first, all
    /// stations have looked at every frame of the bus, and neither call is refused. The events are put into a place that has none yet.
    ///
    /// Else this returns false; or it returns want of memory, which only the Take may find. Then nothing changes: these calls are to be
    /// made one by one.
    #[inline(always)]
    pub fn inject_and_take(
        &mut self,
        station: Address,
        frame: &Frame,
        told: &mut Events,
    ) -> Result<bool, AllocError>
        requires { told.old ≡ [] }
        ensures made { IfOk result (λ is_made. OnTrue is_made (PutTaken self.old (Inject frame.now) station self.new told.new)) }
        ensures other { IfOk result (λ is_made. OnFalse is_made (self.new ≡ self.old)) }
        ensures untold { IfOk result (λ is_made. OnFalse is_made (told.new ≡ [])) }
        ensures err { OnErr result (self.new ≡ self.old) }
        ensures silent { OnErr result (told.new ≡ []) }
    {
        self.state.inject_and_take(station, frame, told)
    }
}
