//! The events of a call, on their way to the ports and the clients.
ghost use Rattle.std.specs.Prelude.{◌≡◌, ℕ, length};
ghost use Rattle.live_record.specs.Record.{settle_notes, settle_owed};
ghost use Rattle.live_ends.specs.Ends.{IdsFrom, HaveRoom, OwedWithin, PortsApart, give_all, note_all};
ghost use Rattle.live_ends.specs.Places.{TakesAll, EnoughFor};

use crate::all_doors::Doors;
use crate::hand::hand_all;
use crate::seating::Seats;
use live_record::Owed;
use message_events::Events;
use segment_rings::Buffer;

/// Gives and notes events. It takes no memory.
#[inline(always)]
pub fn tell(
    doors: &mut Doors,
    owed: &mut Vec<Owed>,
    seats: &mut Seats,
    buffers: Vec<Buffer>,
    events: &Events,
)
    requires apart { PortsApart doors.old.items }
    requires takes { TakesAll events.now doors.old.items }
    requires enough { (n : ℕ) × EnoughFor n events.now buffers.items }
    requires ids { IdsFrom 0 seats.old.items }
    requires room { HaveRoom owed.old.items seats.old.items }
    requires within { OwedWithin (length seats.old.items) owed.old.items }
    ensures doors { doors.new.items ≡ give_all events.now doors.old.items }
    ensures owed { owed.new.items ≡ settle_owed owed.old.items events.now }
    ensures seats { seats.new.items ≡ note_all (settle_notes owed.old.items events.now) seats.old.items }
    ensures ids { IdsFrom 0 seats.new.items }
    ensures room { HaveRoom owed.new.items seats.new.items }
    ensures within { OwedWithin (length seats.new.items) owed.new.items }
{
    // Most calls have no event.
    if events.is_empty() {
        return;
    }
    tell_some(doors, owed, seats, buffers, events);
}

// `tell`, for a call with events.
#[inline(never)]
fn tell_some(
    doors: &mut Doors,
    owed: &mut Vec<Owed>,
    seats: &mut Seats,
    buffers: Vec<Buffer>,
    events: &Events,
)
    requires apart { PortsApart doors.old.items }
    requires takes { TakesAll events.now doors.old.items }
    requires enough { (n : ℕ) × EnoughFor n events.now buffers.items }
    requires ids { IdsFrom 0 seats.old.items }
    requires room { HaveRoom owed.old.items seats.old.items }
    requires within { OwedWithin (length seats.old.items) owed.old.items }
    ensures doors { doors.new.items ≡ give_all events.now doors.old.items }
    ensures owed { owed.new.items ≡ settle_owed owed.old.items events.now }
    ensures seats { seats.new.items ≡ note_all (settle_notes owed.old.items events.now) seats.old.items }
    ensures ids { IdsFrom 0 seats.new.items }
    ensures room { HaveRoom owed.new.items seats.new.items }
    ensures within { OwedWithin (length seats.new.items) owed.new.items }
{
    let mut buffers = buffers;
    let Some(first) = events.get(0) else {
        return;
    };
    doors.hand_one(&mut buffers, first);
    hand_all(doors, &mut buffers, events.rest());
    seats.settle_event(owed, first);
    seats.settle(owed, events.rest());
}
