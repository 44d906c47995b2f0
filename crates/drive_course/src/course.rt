//! What a drive did so far.
ghost use Rattle.std.specs.Prelude.{◌≡◌, ◌<◌, ◌++◌, [], length, option_to_list, vec_len, vec_capacity};
ghost use Rattle.std.specs.Bool.{OnTrue};
ghost use Rattle.drive_course.specs.Joined.{joined};

use crate::driven::{Driven, EventList, FrameList};
use bus_frame::Frame;
use segment_law::DriveEnd;
use station_core::Events;
use std::alloc::Global;

/// The frames that were put, and the events, one part for each call that had some.
#[derive(Drop)]
pub struct Course {
    /// Where it takes its memory.
    pub alloc: Global,
    /// The frames that were put.
    pub frames: Vec<Frame>,
    /// The events, one part for each call that had some.
    pub parts: Vec<Events>,
}

impl Course {
    /// Nothing was done yet. It takes no memory.
    #[inline]
    pub fn new(alloc: Global) -> Course
        ensures frames { result.frames.items ≡ [] }
        ensures parts { result.parts.items ≡ [] }
    {
        Course {
            alloc,
            frames: Vec::new(alloc),
            parts: Vec::new(alloc),
        }
    }

    /// Whether there is room for one more frame.
    #[inline(always)]
    pub fn has_room(&self) -> bool
        ensures { OnTrue result (vec_len self.now.frames < vec_capacity self.now.frames) }
    {
        self.frames.len() < self.frames.capacity()
    }

    /// Whether there is room for the events of one more call.
    #[inline(always)]
    pub fn has_part(&self) -> bool
        ensures { OnTrue result (vec_len self.now.parts < vec_capacity self.now.parts) }
    {
        self.parts.len() < self.parts.capacity()
    }

    /// Notes the frame that a call put. There is room for it.
    #[inline]
    pub fn put(&mut self, frame: Option<Frame>)
        requires room { vec_len self.old.frames < vec_capacity self.old.frames }
        ensures frames { self.new.frames.items ≡ self.old.frames.items ++ option_to_list frame }
        ensures parts { self.new.parts.items ≡ self.old.parts.items }
    {
        if let Some(frame) = frame {
            self.frames.push_reserved(frame);
        }
    }

    /// Notes the events of a call. There is room for them.
    #[inline]
    #[tactic(auto, using(crate::proofs::Joining::joined_push))]
    pub fn note(&mut self, events: Events)
        requires room { vec_len self.old.parts < vec_capacity self.old.parts }
        ensures told { joined self.new.parts.items ≡ joined self.old.parts.items ++ events }
        ensures frames { self.new.frames.items ≡ self.old.frames.items }
    {
        if !events.is_empty() {
            self.parts.push_reserved(events);
        }
    }

    /// The drive ends here. Each turn that counts put one frame.
    #[inline]
    pub fn ended(self, end: DriveEnd) -> Driven
        ensures turns { result.turns ≡ length self.frames.items }
        ensures frames { result.frames ≡ self.frames.items }
        ensures events { result.events ≡ joined self.parts.items }
        ensures end { result.end ≡ end }
    {
        let Course {
            alloc: _,
            frames,
            parts,
        } = self;
        Driven {
            turns: frames.len() as u64,
            frames: FrameList::new(frames),
            events: EventList::new(parts),
            end,
        }
    }
}
