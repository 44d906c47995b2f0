//! The doors of all ports, and which of them have news.
ghost use Rattle.std.specs.Prelude.{◌≡◌};

use crate::cutting::cut_doors as cut_each;
use crate::hand::hand_one as hand_event;
use crate::places::prepare as prepare_door;
use message_events::Event;
use port_table::PortId;
use segment_rings::{Buffer, Door};
use std::alloc::{AllocError, Global};
use std::collections::VecDeque;
use std::marker::Model;

/// The doors in the order in which their ports were opened, and the places of those that have news, each of which is named once.
#[derive(Drop)]
pub struct Doors {
    doors: Vec<Door>,
    news: VecDeque<usize>,
}

impl Model for Doors {
    ghost use Rattle.std.specs.Prelude.{◌-◌, min, vec_len, vec_capacity};
    ghost use Rattle.std.specs.VecDeque.{deque_capacity};
    ghost use Rattle.segment_rings.specs.Views.{has_pushed_news};
    ghost use Rattle.live_ends.specs.Waiting.{DoorsView, Waits};

    ghost Value = { DoorsView };

    ghost view = { λ d. record { items = d.doors.items; spare = min (vec_capacity d.doors) (deque_capacity d.news) - vec_len d.doors } };

    ghost invariant = { λ d. Waits has_pushed_news d.doors.items d.news.items (deque_capacity d.news) };
}

impl Doors {
    ghost use Rattle.std.specs.Prelude.{◌≡◌, ◌<◌, ◌≤◌, ℕ, [], ◌∷◌, ◌++◌, length, List, true, false, IfOk, OnOk, IsTrue, IsFalse, MatchOption, slice_index_or, slice_set};
    ghost use Rattle.message_events.specs.declared.event.Event.{Event as EventValue};
    ghost use Rattle.segment_rings.specs.Views.{DoorView, closed_door, has_pushed_news, named_door};
    ghost use Rattle.live_ends.specs.Ends.{PortsApart, SameDoors, CutDoors, give_all};
    ghost use Rattle.live_ends.specs.Places.{RoomAt, LacksRoom, TakesAll, EnoughFor};

    /// No doors.
    pub fn new(alloc: Global) -> Doors
        ensures items { result.items ≡ [] }
    {
        Doors {
            doors: Vec::new(alloc),
            news: VecDeque::new(alloc),
        }
    }

    /// All of them.
    pub fn as_slice(&self) -> &[Door]
        ensures value { result.now ≡ self.now.items }
    {
        self.doors.as_slice()
    }

    /// The k-th door.
    pub fn get(&self, k: usize) -> &Door
        requires { k < length self.now.items }
        ensures { (d : DoorView) → result.now ≡ slice_index_or self.now.items k d }
    {
        &self.doors[k]
    }

    /// Makes room for one more, and for its news.
    pub fn reserve(&mut self) -> Result<(), AllocError>
        ensures items { self.new.items ≡ self.old.items }
        ensures ok { OnOk result (0 < self.new.spare) }
    {
        let wanted = (self.doors.len() + 1).saturating_sub(self.news.len());
        self.news.reserve(wanted)?;
        self.doors.reserve(1)
    }

    /// Puts one more, which has no news. There is room for it.
    pub fn push_reserved(&mut self, door: Door)
        requires spare { 0 < self.old.spare }
        requires none { has_pushed_news door ≡ false }
        ensures items { self.new.items ≡ self.old.items ++ door ∷ [] }
    {
        self.doors.push_reserved(door);
    }

    /// Looks for so many places in a port's ring, if the port has one.
    pub fn prepare(&mut self, port: PortId, needed: usize) -> Result<bool, AllocError>
        requires { PortsApart self.old.items }
        ensures same { SameDoors self.old.items self.new.items }
        ensures ready { IfOk result (λ r. IsTrue r → RoomAt port needed self.new.items) }
        ensures none { IfOk result (λ r. IsFalse r → LacksRoom port needed self.new.items) }
    {
        prepare_door(&mut self.doors, port, needed)
    }

    /// Gives what one event gives.
    pub fn hand_one(&mut self, buffers: &mut Vec<Buffer>, event: &Event)
        requires apart { PortsApart self.old.items }
        requires takes { TakesAll (event.now ∷ []) self.old.items }
        requires enough { (n : ℕ) × EnoughFor n (event.now ∷ []) buffers.old.items }
        ensures doors { self.new.items ≡ give_all (event.now ∷ []) self.old.items }
        ensures enough { (n : ℕ) (es : List EventValue) → EnoughFor n (event.now ∷ es) buffers.old.items → EnoughFor n es buffers.new.items }
    {
        if let Some(k) = hand_event(&mut self.doors, buffers, event) {
            self.news.push_back_reserved(k);
        }
    }

    /// Each port's deliveries that are known to be received are kept no more.
    pub fn cut_doors(&mut self)
        ensures { CutDoors self.old.items self.new.items }
    {
        cut_each(&mut self.doors);
    }

    /// Gives nothing more to a port.
    pub fn close(&mut self, k: usize)
        requires { k < length self.old.items }
        ensures { (d : DoorView) → self.new.items ≡ slice_set self.old.items k (closed_door (slice_index_or self.old.items k d)) }
    {
        let door = &mut self.doors[k];
        door.close();
    }

    /// A door whose port has news, and has none then; none exactly if no port has news.
    pub fn name(&mut self) -> Option<usize>
        ensures { MatchOption result ((self.new ≡ self.old) × ((k : ℕ) (d : DoorView) → k < length self.old.items → has_pushed_news (slice_index_or self.old.items k d) ≡ false)) (λ k. (k < length self.old.items) × ((d : DoorView) → (has_pushed_news (slice_index_or self.old.items k d) ≡ true) × (self.new.items ≡ slice_set self.old.items k (named_door (slice_index_or self.old.items k d))))) }
    {
        let Some(k) = self.news.pop_front() else {
            return None;
        };
        let door = &mut self.doors[k];
        door.name();
        Some(k)
    }
}
