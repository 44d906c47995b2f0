//! The events: a message that is given at a port, or the outcome of one that was sent.
ghost use Rattle.std.specs.Prelude.{◌≡◌, drop, slice_get, option_copied};
ghost use Rattle.node_parts.specs.Events.{IsTaken};

use crate::node::Node;
use node_parts::TakeError;
use segment_core::Event;

impl Node {
    /// The event that waits longest, in place: its kind, its addresses and its bytes are known before it is taken.
    pub fn next_event(&self) -> Option<&Event>
        ensures { option_copied result ≡ slice_get self.now.events 0 }
    {
        self.told.next()
    }

    /// Takes the event that waits longest, with its bytes. It takes no memory.
    pub fn take_event(&mut self) -> Option<Event>
        ensures event { result ≡ slice_get self.old.events 0 }
        ensures rest { self.new ≡ record self.old { events = drop 1 self.old.events } }
    {
        self.told.take()
    }

    /// Takes the event that waits longest, and copies its bytes to the front of the caller's room; an outcome has none. Returns
    /// how many they are.
    ///
    /// Refused as `Nothing` if no event waits, and as `TooLittleRoom`, which says how many bytes the event has, if these are more
    /// than the room has places: then the event still waits, and the room is unchanged.
    pub fn take_bytes(&mut self, room: &mut [u8]) -> Result<usize, TakeError>
        ensures taken { IsTaken self.old.events room.old self.new.events room.new result }
        ensures rest { self.new ≡ record self.old { events = self.new.events } }
    {
        self.told.take_bytes(room)
    }
}
