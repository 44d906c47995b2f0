//! The events of one call, one after the other.
ghost use Rattle.std.specs.Prelude.{◌≡◌};
ghost use Rattle.std.specs.Iterator.{YieldsFirst, YieldsFirstRef, item_count};

use super::{Event, Events};
use std::iter::FusedIterator;
use std::marker::Model;
use std::vec;

/// The events of one call in place, in their order, seen as the list of those that are left.
#[derive(Drop)]
pub struct EventsIter<'a> {
    first: Option<&'a Event>,
    rest: &'a [Event],
}

impl<'a> Model for EventsIter<'a> {
    ghost use Rattle.std.specs.Prelude.{List, ◌++◌, option_to_list, option_copied};
    ghost use Rattle.message_events.specs.declared.event.Event.{Event};

    ghost Value = { List Event };

    ghost view = { λ it. option_to_list (option_copied it.first) ++ it.rest.now };
}

impl<'a> Iterator for EventsIter<'a> {
    type Item = &'a Event;

    ghost next_gives = { YieldsFirstRef (λ rest. rest) };

    ghost remaining = { item_count (λ rest. rest) };

    fn next(&mut self) -> Option<&'a Event> {
        if let Some(event) = self.first.take() {
            return Some(event);
        }
        let (event, rest) = self.rest.split_first()?;
        self.rest = rest;
        Some(event)
    }
}

impl<'a> FusedIterator for EventsIter<'a> {}

/// The events of one call given away, in their order, seen as the list of those that are left.
#[derive(Drop)]
pub struct EventsIntoIter {
    first: Option<Event>,
    rest: vec::IntoIter<Event>,
}

impl Model for EventsIntoIter {
    ghost use Rattle.std.specs.Prelude.{List, ◌++◌, option_to_list};
    ghost use Rattle.std.specs.Vec.Iter.{into_iter_items};
    ghost use Rattle.message_events.specs.declared.event.Event.{Event};

    ghost Value = { List Event };

    ghost view = { λ it. option_to_list it.first ++ into_iter_items it.rest };
}

impl Iterator for EventsIntoIter {
    type Item = Event;

    ghost next_gives = { YieldsFirst (λ rest. rest) };

    ghost remaining = { item_count (λ rest. rest) };

    fn next(&mut self) -> Option<Event> {
        if let Some(event) = self.first.take() {
            return Some(event);
        }
        self.rest.next()
    }
}

impl FusedIterator for EventsIntoIter {}

impl Events {
    /// The events in place, in their order.
    pub fn iter(&self) -> EventsIter<'_>
        ensures { result ≡ self.now }
    {
        EventsIter {
            first: self.first.as_ref(),
            rest: self.rest.as_slice(),
        }
    }
}

impl IntoIterator for Events {
    type Item = Event;

    type IntoIter = EventsIntoIter;

    ghost into_iter_gives = { λ events it. it ≡ events };

    fn into_iter(self) -> EventsIntoIter {
        let Events { first, rest } = self;
        EventsIntoIter {
            first,
            rest: rest.into_iter(),
        }
    }
}

impl<'a> IntoIterator for &'a Events {
    type Item = &'a Event;

    type IntoIter = EventsIter<'a>;

    ghost into_iter_gives = { λ events it. it ≡ events.now };

    fn into_iter(self) -> EventsIter<'a> {
        self.iter()
    }
}
