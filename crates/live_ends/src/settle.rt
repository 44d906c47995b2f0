//! Outcomes go into the rings of clients.
ghost use Rattle.std.specs.Prelude.{◌≡◌, ◌<◌, length, map, Some, None};
ghost use Rattle.segment_rings.specs.Views.{has_noted_news};
ghost use Rattle.live_ends.specs.Waiting.{Marks};
ghost use Rattle.live_record.specs.Record.{find_owed, without_owed, note_found, notes_at, owed_after};
ghost use Rattle.live_ends.specs.Ends.{IdsFrom, HaveRoom, note_all, OwedWithin};

use crate::hand::told_of;
use live_record::Owed;
use message_events::Event;
use pgn_ids::Address;
use segment_rings::{Note, Seat};
use tp_wire::Outcome;

// Takes the message that is owed this outcome out of the list.
fn take_owed(owed: &mut Vec<Owed>, from: Address, to: Address, number: u64) -> Option<Owed>
    ensures found { result ≡ find_owed owed.old.items from to number }
    ensures rest { owed.new.items ≡ without_owed owed.old.items from to number }
{
    for i in 0..owed.len() {
        let w = owed[i];
        if w.from.0 == from.0 && w.to.0 == to.0 && w.number == number {
            owed.remove(i);
            return Some(w);
        }
    }
    None
}

// Makes the note of one outcome, and tells whose client has news by that and had none before.
fn settle_one(
    owed: &mut Vec<Owed>,
    seats: &mut Vec<Seat>,
    from: Address,
    to: Address,
    number: u64,
    outcome: Outcome,
) -> Option<usize>
    requires ids { IdsFrom 0 seats.old.items }
    requires room { HaveRoom owed.old.items seats.old.items }
    requires within { OwedWithin (length seats.old.items) owed.old.items }
    ensures owed { owed.new.items ≡ without_owed owed.old.items from to number }
    ensures seats { seats.new.items ≡ note_all (note_found (find_owed owed.old.items from to number) outcome) seats.old.items }
    ensures news { Marks result (map has_noted_news seats.old.items) (map has_noted_news seats.new.items) }
{
    if let Some(w) = take_owed(owed, from, to, number) {
        let seat = &mut seats[w.client as usize];
        let is_first = seat.note(Note {
            ticket: w.ticket,
            to: w.to,
            number: w.number,
            outcome,
        });
        return told_of(is_first, w.client as usize);
    }
    None
}

/// Makes the note of one event, if it is an outcome, and tells whose client has news by that and had none before.
pub(crate) fn settle_event(
    owed: &mut Vec<Owed>,
    seats: &mut Vec<Seat>,
    event: &Event,
) -> Option<usize>
    requires ids { IdsFrom 0 seats.old.items }
    requires room { HaveRoom owed.old.items seats.old.items }
    requires within { OwedWithin (length seats.old.items) owed.old.items }
    ensures owed { owed.new.items ≡ owed_after owed.old.items event.now }
    ensures seats { seats.new.items ≡ note_all (notes_at owed.old.items event.now) seats.old.items }
    ensures news { Marks result (map has_noted_news seats.old.items) (map has_noted_news seats.new.items) }
{
    if let Event::Outcome {
        from,
        to,
        number,
        outcome,
    } = event
    {
        return settle_one(owed, seats, *from, *to, *number, *outcome);
    }
    None
}
