//! The events that aren't taken yet.
ghost use Rattle.std.specs.Prelude.{◌≡◌, ◌<◌, ◌++◌, [], nat_lt, drop, slice_get, option_copied, IfOk, OnOk};
ghost use Rattle.std.specs.Bool.{OnTrue};
ghost use Rattle.node_parts.specs.Told.{part_events};
ghost use Rattle.node_parts.specs.Events.{IsTaken, IsCopied, event_bytes};

use message_events::{Event, Events};
use std::alloc::{AllocError, Global};
use std::collections::VecDeque;
use std::marker::Model;
use thiserror::Error;

/// Why no event is taken. The events that wait stay as they are.
#[derive(Clone, Copy, Debug, PartialEq, Eq, Error)]
pub enum TakeError {
    /// No event waits.
    #[error("no event waits")]
    Nothing,
    /// The bytes of the event are so many, more than the room has places.
    #[error("the event has more bytes than the room")]
    TooLittleRoom(usize),
}

/// An event, and those behind it that one call had.
#[derive(Drop)]
pub(crate) struct Part {
    pub(crate) first: Event,
    pub(crate) rest: Vec<Event>,
}

/// The events that wait, part by part: one part for each call that had some, so that only a place for it must be there beforehand.
///
/// There is a place for the outcome of each message that has none yet, and one more, in which a call without an event finds its own. So an
/// outcome never asks for memory; and a message that is given takes none of these places.
pub struct Told {
    front: Option<Part>,
    parts: VecDeque<Part>,
    /// How many messages have no outcome yet.
    owed: usize,
}

impl Model for Told {
    ghost use Rattle.node_parts.specs.Told.{Waiting};
    ghost use Rattle.node_parts.specs.ToldFields.{told_value, IsFrontFirst};

    ghost Value = { Waiting };

    ghost view = { told_value };

    ghost invariant = { IsFrontFirst };
}

impl Drop for Told {
    fn drop(self) {
        let Told {
            front: _,
            parts: _,
            owed: _,
        } = self;
    }
}

/// The place that is there beside those of outcomes.
const SPARE: usize = 1;

// How many messages have ended by the events of a call. No call gives a message and ends one.
#[inline(always)]
fn ended(events: &Events) -> usize {
    match events.get(0) {
        Some(Event::Outcome { .. }) => events.len(),
        _ => 0,
    }
}

// The bytes of a message; an outcome has none.
fn bytes_of(event: &Event) -> &[u8]
    ensures { result.now ≡ event_bytes event.now }
{
    match event {
        Event::Given { bytes, .. } => bytes.as_slice(),
        Event::Outcome { .. } => &[],
    }
}

// Copies the bytes of an event to the front of the room, if they fit.
fn copy_bytes(event: &Event, room: &mut [u8]) -> Result<usize, TakeError>
    ensures { IsCopied event.now room.old room.new result }
{
    let bytes = bytes_of(event);
    let len = bytes.len();
    if len > room.len() {
        return Err(TakeError::TooLittleRoom(len));
    }
    room[..len].copy_from_slice(bytes);
    Ok(len)
}

impl Told {
    /// There is no event, and no message without an outcome.
    pub fn new(alloc: Global) -> Result<Told, AllocError>
        ensures { IfOk result (λ told. told.events ≡ []) }
    {
        let mut parts = VecDeque::new(alloc);
        parts.reserve(SPARE)?;
        Ok(Told {
            front: None,
            parts,
            owed: 0,
        })
    }

    /// Whether there is a place for the events of one more call.
    pub fn has_room(&self) -> bool
        ensures { result ≡ nat_lt 0 self.now.free }
    {
        self.parts.len() < self.parts.capacity()
    }

    /// Whether a message that is given finds a place, which isn't that of an outcome.
    #[inline(always)]
    pub fn has_place_to_give(&self) -> bool
        ensures { OnTrue result (0 < self.now.free) }
    {
        let free = self.parts.capacity().saturating_sub(self.parts.len());
        free > self.owed.saturating_add(SPARE)
    }

    /// Makes that place, or that of the outcome of one more message.
    pub fn reserve(&mut self) -> Result<(), AllocError>
        ensures events { self.new.events ≡ self.old.events }
        ensures kept { 0 < self.old.free → 0 < self.new.free }
        ensures room { OnOk result (0 < self.new.free) }
    {
        self.parts
            .reserve(self.owed.saturating_add(SPARE).saturating_add(1))?;
        // It is there already: this says so whatever the sum is.
        self.parts.reserve(1)
    }

    /// One more message has no outcome yet.
    pub fn owe(&mut self)
        ensures { self.new ≡ self.old }
    {
        self.owed = self.owed.saturating_add(1);
    }

    /// Keeps the events of a call, for which there is a place, behind all that wait.
    #[inline(always)]
    pub fn keep(&mut self, events: Events)
        requires { 0 < self.old.free }
        ensures { self.new.events ≡ self.old.events ++ events }
    {
        self.owed = self.owed.saturating_sub(ended(&events));
        let (first, rest) = events.into_parts();
        let Some(first) = first else {
            return;
        };
        self.keep_part(Part { first, rest });
    }

    // Keeps an event, and those behind it.
    #[inline(never)]
    fn keep_part(&mut self, part: Part)
        requires { 0 < self.old.free }
        ensures { self.new.events ≡ self.old.events ++ part_events part }
    {
        if self.front.is_none() {
            self.front = Some(part);
        } else {
            self.parts.push_back_reserved(part);
        }
    }

    /// The event that waits longest.
    pub fn next(&self) -> Option<&Event>
        ensures { option_copied result ≡ slice_get self.now.events 0 }
    {
        match &self.front {
            None => None,
            Some(part) => Some(&part.first),
        }
    }

    /// Takes the event that waits longest.
    pub fn take(&mut self) -> Option<Event>
        ensures event { result ≡ slice_get self.old.events 0 }
        ensures rest { self.new.events ≡ drop 1 self.old.events }
    {
        // As a rule nothing waits, and then nothing is moved.
        if self.front.is_none() {
            return None;
        }
        let Some(part) = self.front.take() else {
            return None;
        };
        let Part { first, mut rest } = part;
        if rest.is_empty() {
            self.front = self.parts.pop_front();
        } else {
            let second = rest.remove(0);
            self.front = Some(Part {
                first: second,
                rest,
            });
        }
        Some(first)
    }

    /// Takes the event that waits longest, and copies its bytes to the front of the caller's room; an outcome has none. Returns how many they
    /// are.
    ///
    /// Refused as `Nothing` if no event waits, and as `TooLittleRoom`, which says how many bytes the event has, if these are more than the room
    /// has places: then the event still waits, and the room is unchanged.
    pub fn take_bytes(&mut self, room: &mut [u8]) -> Result<usize, TakeError>
        ensures { IsTaken self.old.events room.old self.new.events room.new result }
    {
        let Some(event) = self.next() else {
            return Err(TakeError::Nothing);
        };
        match copy_bytes(event, room) {
            Ok(len) => {
                let _taken = self.take();
                Ok(len)
            }
            Err(error) => Err(error),
        }
    }
}
