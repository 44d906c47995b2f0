//! The outcomes of the lanes.
ghost use Rattle.std.specs.Prelude.{◌≡◌, ◌+◌, ◌≤◌, ◌++◌, [], length, None, option_to_list, vec_capacity};
ghost use Rattle.station_lanes.specs.LaneCalls.{outcome_of};

use lane_core::Ended;
use message_events::Event;
use pgn_ids::Address;

/// Puts an event, if there is one, behind those that are there, the first of which is apart.
pub(crate) fn append(first: &mut Option<Event>, rest: &mut Vec<Event>, event: Option<Event>)
    requires room { length (option_to_list first.old ++ rest.old.items) + length (option_to_list event) ≤ vec_capacity rest.old + 1 }
    requires has_first { first.old ≡ None → rest.old.items ≡ [] }
    ensures all { option_to_list first.new ++ rest.new.items ≡ (option_to_list first.old ++ rest.old.items) ++ option_to_list event }
    ensures capacity { vec_capacity rest.new ≡ vec_capacity rest.old }
    ensures has_first { first.new ≡ None → rest.new.items ≡ [] }
{
    let Some(event) = event else {
        return;
    };
    match first {
        None => *first = Some(event),
        Some(_) => rest.push_reserved(event),
    }
}

/// The outcome of a message in a lane, if one ended.
pub fn outcome(from: Address, to: Address, ended: Option<Ended>) -> Option<Event>
    ensures { option_to_list result ≡ outcome_of from to ended }
{
    match ended {
        None => None,
        Some(ended) => Some(Event::Outcome {
            from,
            to,
            number: ended.number,
            outcome: ended.outcome,
        }),
    }
}
