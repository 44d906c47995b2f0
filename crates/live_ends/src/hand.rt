//! What events give goes into the rings of ports.
ghost use Rattle.std.specs.Prelude.{◌≡◌, ℕ, List, [], ◌∷◌, cond, map, Some, None};
ghost use Rattle.message_events.specs.declared.event.Event.{Event as EventValue};
ghost use Rattle.live_ends.specs.Ends.{PortsApart, give_all};
ghost use Rattle.live_ends.specs.Places.{TakesAll, EnoughFor};
ghost use Rattle.segment_rings.specs.Views.{has_pushed_news};
ghost use Rattle.live_ends.specs.Waiting.{Marks};

use crate::all_doors::Doors;
use crate::places::door_of;
use message_events::{Bytes, Event};
use pgn_ids::{Address, Pgn};
use segment_rings::{Buffer, Delivery, Door};

fn delivery(from: Address, to: Address, pgn: Pgn, bytes: Bytes) -> Delivery
    ensures { result ≡ record { from = from; to = to; pgn = pgn; bytes = bytes } }
{
    Delivery {
        from,
        to,
        pgn,
        bytes,
    }
}

/// The k-th, if it is to be told.
pub(crate) fn told_of(is_told: bool, k: usize) -> Option<usize>
    ensures { result ≡ cond is_told (Some k) None }
{
    if is_told {
        return Some(k);
    }
    None
}

/// Gives what one event gives, and tells whose port has news by that and had none before.
pub(crate) fn hand_one(
    doors: &mut Vec<Door>,
    buffers: &mut Vec<Buffer>,
    event: &Event,
) -> Option<usize>
    requires apart { PortsApart doors.old.items }
    requires takes { TakesAll (event.now ∷ []) doors.old.items }
    requires enough { (n : ℕ) × EnoughFor n (event.now ∷ []) buffers.old.items }
    ensures doors { doors.new.items ≡ give_all (event.now ∷ []) doors.old.items }
    ensures enough { (n : ℕ) (es : List EventValue) → EnoughFor n (event.now ∷ es) buffers.old.items → EnoughFor n es buffers.new.items }
    ensures news { Marks result (map has_pushed_news doors.old.items) (map has_pushed_news doors.new.items) }
{
    match event {
        Event::Given {
            port,
            from,
            to,
            pgn,
            bytes,
        } => {
            let Some(k) = door_of(doors.as_slice(), *port) else {
                return None;
            };
            let Some(first) = buffers.pop() else {
                unreachable!()
            };
            let Some(second) = buffers.pop() else {
                unreachable!()
            };
            let pushed = delivery(*from, *to, *pgn, first.filled(bytes));
            let kept = delivery(*from, *to, *pgn, second.filled(bytes));
            let door = &mut doors[k];
            let is_first = door.give(pushed, kept);
            told_of(is_first, k)
        }
        Event::Outcome { .. } => None,
    }
}

/// Gives what events give.
pub(crate) fn hand_all(doors: &mut Doors, buffers: &mut Vec<Buffer>, events: &[Event])
    requires apart { PortsApart doors.old.items }
    requires takes { TakesAll events.now doors.old.items }
    requires enough { (n : ℕ) × EnoughFor n events.now buffers.old.items }
    ensures { doors.new.items ≡ give_all events.now doors.old.items }
{
    for event in events {
        doors.hand_one(buffers, event);
    }
}
