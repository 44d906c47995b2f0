//! What a drive did.
ghost use Rattle.std.specs.Prelude.{◌≡◌};
ghost use Rattle.drive_course.specs.Joined.{joined};

use bus_frame::Frame;
use segment_law::DriveEnd;
use station_core::Events;
use std::marker::Model;

/// Frames in the order in which they were put.
#[derive(Debug, Drop)]
pub struct FrameList {
    frames: Vec<Frame>,
}

impl Model for FrameList {
    ghost use Rattle.std.specs.Prelude.{List};
    ghost use Rattle.bus_frame.specs.Frames.{CanFrame};
    ghost use Rattle.drive_course.specs.DriveFields.{frame_list_value};

    ghost Value = { List CanFrame };

    ghost view = { frame_list_value };
}

impl FrameList {
    /// These frames.
    pub(crate) fn new(frames: Vec<Frame>) -> FrameList
        ensures { result ≡ frames.items }
    {
        FrameList { frames }
    }

    /// The frames in place.
    pub fn as_slice(&self) -> &[Frame]
        ensures { result.now ≡ self.now }
    {
        self.frames.as_slice()
    }

    /// The frames as a vector. It takes no memory.
    pub fn into_vec(self) -> Vec<Frame>
        ensures { result.items ≡ self }
    {
        let FrameList { frames } = self;
        frames
    }
}

/// The events of several calls, in their order: one part for each call that had some.
#[derive(Debug, Drop)]
pub struct EventList {
    parts: Vec<Events>,
}

impl Model for EventList {
    ghost use Rattle.std.specs.Prelude.{List};
    ghost use Rattle.message_events.specs.declared.event.Event.{Event};
    ghost use Rattle.drive_course.specs.DriveFields.{event_list_value};

    ghost Value = { List Event };

    ghost view = { event_list_value };
}

impl EventList {
    /// The events of these parts.
    pub(crate) fn new(parts: Vec<Events>) -> EventList
        ensures { result ≡ joined parts.items }
    {
        EventList { parts }
    }

    /// The events in place, part by part.
    pub fn parts(&self) -> &[Events]
        ensures { joined result.now ≡ self.now }
    {
        self.parts.as_slice()
    }

    /// The events as a vector of parts. It takes no memory.
    pub fn into_parts(self) -> Vec<Events>
        ensures { joined result.items ≡ self }
    {
        let EventList { parts } = self;
        parts
    }
}

/// What a drive did.
#[derive(Debug, Drop)]
pub struct Driven {
    /// How many turns put a frame.
    pub turns: u64,
    /// The frames that they put.
    pub frames: FrameList,
    /// The events of the calls.
    pub events: EventList,
    /// How the drive ended.
    pub end: DriveEnd,
}
