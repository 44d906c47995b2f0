//! What a drain did so far.
ghost use Rattle.std.specs.Prelude.{◌≡◌, ◌<◌, ◌+◌, ◌++◌, ◌^◌, [], List, OnOk, OnErr, map, option_to_list, vec_len, vec_capacity};
ghost use Rattle.bus_frame.specs.Frames.{CanFrame};
ghost use Rattle.drive_course.specs.Joined.{joined};
ghost use Rattle.segment_drain.specs.Drains.{HasRoom, IsSame};

use crate::drained::Drained;
use crate::end::DrainEnd;
use bus_frame::Frame;
use segment_core::Events;
use std::alloc::{AllocError, Global};

/// How many calls were made, the frames that they put, the clock at which each was put, and their events, one part for each call that
/// had some.
#[derive(Drop)]
pub(crate) struct Course {
    pub(crate) turns: u64,
    pub(crate) frames: Vec<Frame>,
    pub(crate) times: Vec<u64>,
    pub(crate) parts: Vec<Events>,
}

impl Course {
    /// Nothing was done yet. It takes no memory.
    pub(crate) fn new(alloc: Global) -> Course
        ensures turns { result.turns ≡ 0 }
        ensures frames { result.frames.items ≡ [] }
        ensures times { result.times.items ≡ [] }
        ensures parts { result.parts.items ≡ [] }
    {
        Course {
            turns: 0,
            frames: Vec::new(alloc),
            times: Vec::new(alloc),
            parts: Vec::new(alloc),
        }
    }

    /// Makes room for the frame and the events of one more call.
    pub(crate) fn make_room(&mut self) -> Result<(), AllocError>
        ensures room { OnOk result (HasRoom self.new) }
        ensures same { IsSame self.old self.new }
    {
        self.frames.reserve(1)?;
        self.times.reserve(1)?;
        self.parts.reserve(1)
    }

    /// Notes a call that put no frame and had no event.
    pub(crate) fn count(&mut self)
        requires { self.old.turns + 1 < 2 ^ 64 }
        ensures { self.new ≡ record self.old { turns = self.old.turns + 1 } }
    {
        self.turns += 1;
    }

    /// Notes the frame that a call put at this tick, and its events. There is room for them.
    #[tactic(auto, using(drive_course::proofs::Joining::joined_push))]
    pub(crate) fn note(&mut self, now: u64, put: Option<Frame>, events: Events)
        requires room { HasRoom self.old }
        requires few { self.old.turns + 1 < 2 ^ 64 }
        ensures turns { self.new.turns ≡ self.old.turns + 1 }
        ensures frames { self.new.frames.items ≡ self.old.frames.items ++ option_to_list put }
        ensures times { self.new.times.items ≡ self.old.times.items ++ map (λ (frame : CanFrame). now) (option_to_list put) }
        ensures told { joined self.new.parts.items ≡ joined self.old.parts.items ++ events }
    {
        self.turns += 1;
        if let Some(frame) = put {
            self.frames.push_reserved(frame);
            self.times.push_reserved(now);
        }
        if !events.is_empty() {
            self.parts.push_reserved(events);
        }
    }

    /// The drain ends here.
    pub(crate) fn ended(self, end: DrainEnd) -> Drained
        ensures turns { result.turns ≡ self.turns }
        ensures frames { result.frames.items ≡ self.frames.items }
        ensures times { result.times.items ≡ self.times.items }
        ensures parts { result.parts.items ≡ self.parts.items }
        ensures end { result.end ≡ end }
    {
        let Course {
            turns,
            frames,
            times,
            parts,
        } = self;
        Drained {
            turns,
            frames,
            times,
            parts,
            end,
        }
    }
}
