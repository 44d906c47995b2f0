//! A place of the table.
ghost use Rattle.std.specs.Prelude.{◌≡◌, ◌<◌, length};
ghost use Rattle.std.specs.Option.{option_map};
ghost use Rattle.std.specs.Map.Iter.{deref_pair};
ghost use Rattle.session_table.specs.Shape.{content_at, content_of};
ghost use Rattle.tx_queue.specs.Queue.{queue_limit};
ghost use Rattle.session_table.specs.Leading.{LeadsIn, by_timer};

use crate::incoming::Incoming;
use crate::key::Key;
use responder::{Flow, Left};
use slab::Slab;
use tx_queue::TxQueue;

/// A state with what it is bound to, or nothing while its key is held. One that is dropped spends its state.
pub(crate) enum Slot<T> {
    Empty,
    Full(T, Incoming),
}

impl<T: Drop> Drop for Slot<T> {
    fn drop(self) {
        match self {
            Slot::Empty => {}
            Slot::Full(_bound, state) => state.overrun(),
        }
    }
}

impl<T> Slot<T> {
    pub(crate) fn into_content(self) -> Option<(T, Incoming)>
        ensures { result ≡ content_of self }
    {
        match self {
            Slot::Empty => None,
            Slot::Full(bound, state) => Some((bound, state)),
        }
    }

    /// The timer of its state fires at tick `now`; without one nothing is done.
    pub(crate) fn fire(&mut self, flow: Flow, now: u64, queue: &mut TxQueue) -> Left
        requires { length queue.old < queue_limit }
        ensures { LeadsIn (by_timer flow now) (content_of self.old) result (content_of self.new) queue.old queue.new }
    {
        match self {
            Slot::Empty => Left::Nothing,
            Slot::Full(_bound, state) => state.fire(flow, now, queue),
        }
    }
}

/// A key with its state, or the empty place of a state that is taken out.
#[derive(Drop)]
pub(crate) struct Place<T> {
    pub(crate) key: Key,
    pub(crate) slot: Slot<T>,
}

/// The content of a place, if there is one and it isn't empty.
pub(crate) fn content<T>(places: &Slab<Place<T>>, at: usize) -> Option<(&T, &Incoming)>
    ensures { option_map deref_pair result ≡ content_at places.now at }
{
    match &places.get(at)?.slot {
        Slot::Empty => None,
        Slot::Full(bound, state) => Some((bound, state)),
    }
}
