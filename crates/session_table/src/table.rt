//! The table.
ghost use Rattle.std.specs.Prelude.{◌≡◌, ◌<◌, ◌≤◌, ◌==◌, length, Some, None, IfErr, OnOk, OnErr, OnSome, IfNone, IfSome};
ghost use Rattle.std.specs.Option.{option_map};
ghost use Rattle.std.specs.FinMap as map;
ghost use Rattle.std.specs.List.{IsDistinct};
ghost use Rattle.std.specs.Map.{keys_of};
ghost use Rattle.std.specs.Map.Iter.{deref_pair};
ghost use Rattle.slab.specs.Slab.{HasRoomFor};
ghost use Rattle.session_table.specs.Key.{key_eq};
ghost use Rattle.session_table.specs.Sessions.{IsHeld, state_at};
ghost use Rattle.session_table.specs.DueOrder.{IsLeastPicked, first_above, first_due, is_above_low, is_due_now};
ghost use Rattle.session_table.specs.Leading.{LeadsAt, by_frame, by_timer};
ghost use Rattle.tx_queue.specs.Queue.{queue_limit};
ghost use Rattle.session_table.specs.Refusal.{refusal};

mod due;
mod image;

use crate::MAX_SESSIONS;
use crate::held::Held;
use crate::incoming::Incoming;
use crate::index::{Index, find, link, reserve, unlink};
use crate::key::Key;
use crate::place::{Place, Slot, content};
use crate::walk::{is_above_at, is_due_at, lesser};
pub use image::TableImage;
use responder::{Flow, Left};
use slab::Slab;
use std::alloc::{AllocError, Global};
use std::marker::Model;
use std::mem;
use tp_wire::Wire;
use tx_queue::TxQueue;

/// Why a session was not opened, with what was handed in. Its state must be spent.
pub enum OpenRefused<T> {
    /// The table has 32 keys.
    TableFull(T, Incoming),
    /// The memory for a further key was refused.
    OutOfMemory(T, Incoming),
}

/// The incoming sessions of a station by key, up to 32, each with the `T` that it is bound to.
///
/// A key is held while its state is taken out: it stays in the table and counts, but has no state. What is dropped
/// with a table is spent without a frame.
pub struct SessionTable<T> {
    places: Slab<Place<T>>,
    index: Index,
}

impl<T> Model for SessionTable<T> {
    ghost use Rattle.session_table.specs.Sessions.{Sessions, sessions_code};

    ghost Value = { Sessions T };

    ghost coded = { sessions_code T.code };

    ghost use Rattle.session_table.specs.Shape.{sessions_of, IsLinked};

    ghost view = { λ s. sessions_of s.places s.index.entries };

    ghost invariant = { λ s. IsLinked s.places s.index.entries };
}

impl<T: Drop> Drop for SessionTable<T> {
    fn drop(self) {
        let SessionTable {
            places: _,
            index: _,
        } = self;
    }
}

impl<T> SessionTable<T> {
    /// A table with no session. It takes no memory.
    pub fn new(alloc: Global) -> Self
        ensures { result ≡ map.empty }
    {
        SessionTable {
            places: Slab::new(alloc),
            index: Index::new(alloc),
        }
    }

    /// How many keys there are, those that are held included.
    pub fn len(&self) -> usize
        ensures value { result ≡ map.len self.now }
        ensures few { result ≤ MAX_SESSIONS }
    {
        self.index.len()
    }

    /// Whether there is no key, held or not.
    pub fn is_empty(&self) -> bool
        ensures { result ≡ (map.len self.now == 0) }
    {
        self.len() == 0
    }

    /// Opens a session under a key that isn't there.
    ///
    /// Refused as `TableFull` exactly if 32 keys are there, and else as `OutOfMemory` if memory is refused. A refusal hands back
    /// the arguments, and changes nothing.
    // Always inlined, as `take_out` is.
    #[inline(always)]
    pub fn open(&mut self, key: Key, bound: T, state: Incoming) -> Result<(), OpenRefused<T>>
        requires { map.get self.old key ≡ None }
        ensures opened { OnOk result (self.new ≡ map.insert self.old key (Some (bound, state))) }
        ensures room { OnOk result (map.len self.old < MAX_SESSIONS) }
        ensures refused { IfErr result (λ refused. refused ≡ refusal (map.len self.old) bound state) }
        ensures err { OnErr result (self.new ≡ self.old) }
    {
        if self.len() >= MAX_SESSIONS {
            return Err(OpenRefused::TableFull(bound, state));
        }
        if make_room(&mut self.places, &mut self.index).is_err() {
            return Err(OpenRefused::OutOfMemory(bound, state));
        }
        let at = self.places.insert_reserved(Place {
            key,
            slot: Slot::Full(bound, state),
        });
        link(&mut self.index, key, at);
        Ok(())
    }

    /// The state of a key takes a frame of its source at tick `now`, and changes in place (SAE J1939-21, TP.DT; ISO 11783-3,
    /// ETP.DT, ETP.CM_DPO). The step's answer is queued behind the frames of a queue.
    ///
    /// If this returns anything but `Nothing`, neither has changed yet: the message is complete, the session is to be ended, or
    /// memory for a window is missing. If the key isn't there or is held, nothing is to be done.
    // Always inlined: so a packet in the middle of a message passes without a call.
    #[inline(always)]
    pub fn take(
        &mut self,
        key: Key,
        wire: &Wire<'_>,
        room: bool,
        flow: Flow,
        now: u64,
        queue: &mut TxQueue,
    ) -> Left
        requires { length queue.old < queue_limit }
        ensures { LeadsAt (by_frame wire.now room flow now) (state_at self.old key) result self.old key self.new queue.old queue.new }
    {
        let Some(at) = find(&self.index, key) else {
            return Left::Nothing;
        };
        let Some(found) = self.places.get_mut(at) else {
            return Left::Nothing;
        };
        let Slot::Full(_bound, state) = &mut found.slot else {
            return Left::Nothing;
        };
        state.take(wire, room, flow, now, queue)
    }

    /// The timer of the state of a key fires at tick `now` (SAE J1939-21, timers T1, T2 and Th): a connection on hold asks again or
    /// continues, and its frame is queued behind the frames of a queue; any other session is to be ended.
    ///
    /// If this returns anything but `Nothing`, neither has changed yet. If the key isn't there or is held, nothing is to be done.
    pub fn fire(&mut self, key: Key, flow: Flow, now: u64, queue: &mut TxQueue) -> Left
        requires { length queue.old < queue_limit }
        ensures { LeadsAt (by_timer flow now) (state_at self.old key) result self.old key self.new queue.old queue.new }
    {
        let Some(at) = find(&self.index, key) else {
            return Left::Nothing;
        };
        let Some(found) = self.places.get_mut(at) else {
            return Left::Nothing;
        };
        found.slot.fire(flow, now, queue)
    }

    /// Takes the state of a key out, and leaves the key, which is held from now on. None if the key isn't there or is held.
    // Always inlined, as what takes or gives a state by value is: a call would write it to memory in parts and read it as a whole.
    #[inline(always)]
    pub fn take_out(&mut self, key: Key) -> Option<(Held, T, Incoming)>
        ensures value { result ≡ option_map (λ v. (key, v.0, v.1)) (state_at self.old key) }
        ensures held { OnSome result (self.new ≡ map.insert self.old key None) }
        ensures token { IfSome result (λ r. IsHeld self.new r.0) }
        ensures absent { IfNone result (self.new ≡ self.old) }
    {
        let at = find(&self.index, key)?;
        let place = self.places.get_mut(at)?;
        let (bound, state) = mem::replace(&mut place.slot, Slot::Empty).into_content()?;
        Some((Held::new(key), bound, state))
    }

    /// Puts a state, which may be that of a new session, under the key that is held. It takes no memory.
    #[inline(always)]
    pub fn put_back(&mut self, held: Held, bound: T, state: Incoming)
        requires { IsHeld self.old held }
        ensures { self.new ≡ map.insert self.old held (Some (bound, state)) }
    {
        let key = held.spend();
        let Some(at) = find(&self.index, key) else {
            unreachable!()
        };
        let Some(place) = self.places.get_mut(at) else {
            unreachable!()
        };
        match mem::replace(&mut place.slot, Slot::Full(bound, state)).into_content() {
            None => {}
            Some(_) => unreachable!(),
        }
    }

    /// Removes the key that is held. It takes no memory.
    pub fn end(&mut self, held: Held)
        requires { IsHeld self.old held }
        ensures { self.new ≡ map.remove self.old held }
    {
        let key = held.spend();
        let Some(at) = unlink(&mut self.index, key) else {
            unreachable!()
        };
        let Some(Place { key: _, slot }) = self.places.try_remove(at) else {
            unreachable!()
        };
        match slot.into_content() {
            None => {}
            Some(_) => unreachable!(),
        }
    }

    /// Removes a key with its state. It takes no memory. None if the key isn't there or is held; then nothing changes.
    pub fn remove(&mut self, key: Key) -> Option<(T, Incoming)>
        ensures value { result ≡ state_at self.old key }
        ensures removed { OnSome result (self.new ≡ map.remove self.old key) }
        ensures absent { IfNone result (self.new ≡ self.old) }
    {
        let Some(_) = self.get(key) else {
            return None;
        };
        let Some(at) = unlink(&mut self.index, key) else {
            unreachable!()
        };
        let Some(Place { key: _, slot }) = self.places.try_remove(at) else {
            unreachable!()
        };
        slot.into_content()
    }

    /// Whether the key is in the table, held or not.
    pub fn contains(&self, key: Key) -> bool
        ensures { result ≡ map.contains_key self.now key }
    {
        find(&self.index, key).is_some()
    }

    /// The state at a key. None if the key isn't there or is held.
    pub fn get(&self, key: Key) -> Option<(&T, &Incoming)>
        ensures { option_map deref_pair result ≡ state_at self.now key }
    {
        content(&self.places, find(&self.index, key)?)
    }

    /// The least key whose timer is due at tick `now`. Held keys are passed over.
    pub fn next_due(&self, now: u64) -> Option<Key>
        ensures least { IsLeastPicked self.now (is_due_now now) result }
        ensures first { result ≡ first_due self.now now }
    {
        let mut least = None;
        for (key, at) in self.index.entries() {
            if is_due_at(&self.places, *at, now) {
                least = lesser(least, *key);
            }
        }
        least
    }

    /// The least key above this one, or the least of all if there is none. Held keys are passed over.
    pub fn next_key(&self, low: Option<Key>) -> Option<Key>
        ensures least { IsLeastPicked self.now (is_above_low low) result }
        ensures first { result ≡ first_above self.now low }
    {
        let mut least = None;
        for (key, at) in self.index.entries() {
            if is_above_at(&self.places, *key, *at, low) {
                least = lesser(least, *key);
            }
        }
        least
    }
}

// Makes room for one more in both. Neither changes but in its capacity.
fn make_room<T>(places: &mut Slab<Place<T>>, index: &mut Index) -> Result<(), AllocError>
    ensures places { places.new ≡ record places.old { capacity = places.new.capacity } }
    ensures same { index.new.entries ≡ index.old.entries }
    ensures distinct { IsDistinct key_eq (keys_of index.new.entries) }
    ensures room_in_places { OnOk result (HasRoomFor places.new 1) }
    ensures room_in_index { OnOk result (0 < index.new.spare) }
{
    reserve(index)?;
    places.reserve(1)
}
