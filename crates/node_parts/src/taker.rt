//! The order in which a station looks at a frame that was put on its inner bus.
ghost use Rattle.std.specs.Prelude.{◌≡◌, ◌<◌, Bool, true, false, List};
ghost use Rattle.std.specs.Bool.{OnTrue, OnFalse};
ghost use Rattle.message_events.specs.declared.event.Event.{Event};

use crate::told::Told;

/// A station that takes the next frame of a bus.
pub trait Taker {
    /// The bus, with its station.
    type Bus;

    // The station can take the next frame.
    ghost may_take: { Self → Self.Bus → Type 0 };

    // It took the next frame, with room for what that brings or without: how the bus and the events that wait are before and after.
    ghost takes: { Self → (room : Bool) → (before : Self.Bus) → (waiting : List Event) → (after : Self.Bus) → (left : List Event) → Type 0 };

    /// Takes the frame with room, if there is memory for what it brings. If not, the bus and the events stay as they are.
    fn take_with_room(&self, bus: &mut Self::Bus, told: &mut Told) -> bool
        requires may { may_take self.now bus.old }
        requires place { 0 < told.old.free }
        ensures taken { OnTrue result (takes self.now true bus.old told.old.events bus.new told.new.events) }
        ensures bus { OnFalse result (bus.new ≡ bus.old) }
        ensures events { OnFalse result (told.new.events ≡ told.old.events) }
        ensures place { OnFalse result (0 < told.new.free) };

    /// Takes the frame without room, which takes no memory.
    fn take_without_room(&self, bus: &mut Self::Bus, told: &mut Told)
        requires may { may_take self.now bus.old }
        requires place { 0 < told.old.free }
        ensures { takes self.now false bus.old told.old.events bus.new told.new.events };
}

/// The station takes the next frame: with room, if that is to be tried and finds memory, or without. Returns whether it did with room.
#[inline(always)]
pub fn look<T: Taker>(taker: &T, bus: &mut T::Bus, told: &mut Told, room: bool) -> bool
    requires may { T.may_take taker.now bus.old }
    requires place { 0 < told.old.free }
    ensures { T.takes taker.now result bus.old told.old.events bus.new told.new.events }
{
    if !room {
        taker.take_without_room(bus, told);
        return false;
    }
    if taker.take_with_room(bus, told) {
        return true;
    }
    taker.take_without_room(bus, told);
    false
}
