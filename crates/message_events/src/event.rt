//! The events of a station.
ghost use Rattle.std.specs.Prelude.{◌≡◌, ◌==◌, ◌∷◌, ◌++◌, [], length, None, option_to_list, option_copied, drop, slice_get};

mod iter;

use crate::bytes::Bytes;
pub use iter::{EventsIntoIter, EventsIter};
use pgn_ids::{Address, Pgn};
use port_table::PortId;
use std::alloc::Global;
use std::marker::Model;
use tp_wire::Outcome;

/// An event of a station.
#[derive(Debug, Drop)]
pub enum Event {
    /// A message from one node to this one or to all is given at a port.
    Given {
        port: PortId,
        from: Address,
        to: Address,
        pgn: Pgn,
        bytes: Bytes,
    },
    /// A message of the lane from this station to a destination has its outcome. Its number counts from 1 in the lane.
    Outcome {
        from: Address,
        to: Address,
        number: u64,
        outcome: Outcome,
    },
}

/// The events of one call, in their order. The first is held in place, so that one event takes no memory.
#[derive(Debug)]
pub struct Events {
    first: Option<Event>,
    rest: Vec<Event>,
}

impl Model for Events {
    ghost use Rattle.std.specs.Prelude.{List};
    ghost use Rattle.message_events.specs.declared.event.Event.{Event};
    ghost use Rattle.message_events.specs.EventFields.{events_value, HasFirst};

    ghost Value = { List Event };

    ghost view = { events_value };

    ghost invariant = { HasFirst };
}

impl Drop for Events {
    fn drop(self) {
        let Events { first: _, rest: _ } = self;
    }
}

impl Events {
    /// No event. It takes no memory.
    pub fn none(alloc: Global) -> Events
        ensures { result ≡ [] }
    {
        Events {
            first: None,
            rest: Vec::new(alloc),
        }
    }

    /// One event, or none. It takes no memory.
    pub fn of(alloc: Global, event: Option<Event>) -> Events
        ensures { result ≡ option_to_list event }
    {
        Events {
            first: event,
            rest: Vec::new(alloc),
        }
    }

    /// An event and those behind it.
    pub fn all(first: Event, rest: Vec<Event>) -> Events
        ensures { result ≡ first ∷ rest.items }
    {
        Events {
            first: Some(first),
            rest,
        }
    }

    /// Puts one event, or none, if no event was put yet. It takes no memory.
    pub fn tell(&mut self, event: Option<Event>)
        requires { self.old ≡ [] }
        ensures { self.new ≡ option_to_list event }
    {
        self.first = event;
    }

    /// Puts an event and those behind it, if no event was put yet. It takes no memory.
    pub fn tell_all(&mut self, first: Event, rest: Vec<Event>)
        requires { self.old ≡ [] }
        ensures { self.new ≡ first ∷ rest.items }
    {
        self.first = Some(first);
        self.rest = rest;
    }

    /// How many there are.
    pub fn len(&self) -> usize
        ensures { result ≡ length self.now }
    {
        match self.first {
            None => 0,
            Some(_) => 1 + self.rest.len(),
        }
    }

    /// Whether there is no event.
    pub fn is_empty(&self) -> bool
        ensures { result ≡ (length self.now == 0) }
    {
        self.first.is_none()
    }

    /// The event at a place, counted from 0.
    #[tactic(auto, using(crate::proofs::EventPlaces::event_laws))]
    pub fn get(&self, place: usize) -> Option<&Event>
        ensures { option_copied result ≡ slice_get self.now place }
    {
        if place == 0 {
            return self.first.as_ref();
        }
        self.rest.get(place - 1)
    }

    /// The events behind the first.
    #[tactic(auto, using(crate::proofs::EventPlaces::event_laws))]
    pub fn rest(&self) -> &[Event]
        ensures { result.now ≡ drop 1 self.now }
    {
        self.rest.as_slice()
    }

    /// The first event, and those behind it.
    pub fn into_parts(self) -> (Option<Event>, Vec<Event>)
        ensures parts { self ≡ option_to_list result.0 ++ result.1.items }
        ensures none { result.0 ≡ None → result.1.items ≡ [] }
    {
        let Events { first, rest } = self;
        (first, rest)
    }
}
