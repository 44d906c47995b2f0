//! The frames that are listed of a message.
ghost use Rattle.std.specs.Prelude.{◌≡◌, [], ◌∷◌, ◌++◌, OnOk};
ghost use Rattle.log_reports.specs.Marks.{has_room, with_mark};

use std::alloc::{AllocError, Global};
use std::marker::Model;

/// The place of a frame in a log.
#[derive(Clone, Copy)]
pub struct Place {
    /// The frame's number among the frames of the log, from 1.
    pub number: u64,
    /// The frame's time, in microseconds.
    pub time: u64,
}

/// What a frame is in the course of a message.
#[derive(Clone, Copy)]
pub enum Step {
    /// It announces the message, or announces it again.
    Announcement,
    /// It opens a window: its receiver asks for these packets, or its sender is to send them.
    Window { first: u64, last: u64 },
    /// Its receiver asks for these packets, for which it had asked before.
    Again { first: u64, last: u64 },
    /// Its receiver asks for no packet yet.
    Hold,
    /// It ends the message.
    End,
}

/// What is kept of a course.
#[derive(Clone, Copy)]
pub enum Detail {
    /// Its first and last frame, and its counts.
    Ends,
    /// Its announcements, windows and end too, each frame by itself.
    Frames,
}

/// A frame that is listed.
#[derive(Clone, Copy)]
pub struct Mark {
    pub place: Place,
    pub step: Step,
}

/// The frames that are listed of a message, in their order.
#[derive(Drop)]
pub struct Marks {
    items: Vec<Mark>,
}

impl Model for Marks {
    ghost use Rattle.std.specs.Prelude.{List};
    ghost use Rattle.log_reports.specs.declared.marks.Mark.{Mark};

    ghost Value = { List Mark };

    ghost view = { λ m. m.items.items };
}

/// How many frames of a message are listed at most, beside that which ends it.
pub const MOST_MARKS: usize = 262_144;

impl Marks {
    /// None. It takes no memory.
    pub fn new(alloc: Global) -> Marks
        ensures { result ≡ [] }
    {
        Marks {
            items: Vec::new(alloc),
        }
    }

    /// Puts one more frame.
    pub fn put(&mut self, place: Place, step: Step) -> Result<(), AllocError>
        ensures { OnOk result (self.new ≡ self.old ++ record { place = place; step = step } ∷ []) }
    {
        self.items.push(Mark { place, step })?;
        Ok(())
    }

    fn has_room(&self) -> bool
        ensures { result ≡ has_room self.now }
    {
        self.items.len() < MOST_MARKS
    }

    /// Puts one more frame, unless there are as many as are listed at most.
    pub fn add(&mut self, place: Place, step: Step) -> Result<(), AllocError>
        ensures { OnOk result (self.new ≡ with_mark place step self.old) }
    {
        if self.has_room() {
            return self.put(place, step);
        }
        Ok(())
    }

    /// The frames in their order.
    pub fn as_slice(&self) -> &[Mark]
        ensures { result.now ≡ self.now }
    {
        self.items.as_slice()
    }
}
