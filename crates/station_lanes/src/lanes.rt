//! The lanes of a station, by destination.
ghost use Rattle.std.specs.Prelude.{◌≡◌, ◌<◌, ◌≤◌, Option, Some, None, IfOk, IfSome, IfNone, slice_set, vec_len};
ghost use Rattle.std.specs.Option.{option_map, option_copied, option_copied_mut};
ghost use Rattle.std.specs.Borrow.{sem};
ghost use Rattle.std.specs.FinMap as map;
ghost use Rattle.pgn_ids.specs.Address.{null_address};
ghost use Rattle.lane_core.specs.Lane.{Lane};
ghost use Rattle.lane_core.specs.Pump.{is_ready};
ghost use Rattle.lane_core.specs.Fire.{is_timed};
ghost use Rattle.station_lanes.specs.LaneSlots.{slot_at, IsMarked};
ghost use Rattle.station_lanes.specs.LaneLends.{LendsLane};
ghost use Rattle.station_lanes.specs.LaneReaders.{is_ready_at, is_timed_at, NonePasses};

use address_set::AddressSet;
use lane_core::Lane;
use pgn_ids::Address;
use std::alloc::{AllocError, Global};
use std::marker::Model;

/// One place for each address.
pub(crate) const PLACES: usize = 256;

/// The place of the lane to one destination, once there is one.
#[derive(Drop)]
pub(crate) struct Slot {
    lane: Option<Box<Lane>>,
}

impl Model for Slot {
    ghost use Rattle.std.specs.Prelude.{Option};
    ghost use Rattle.std.specs.Option.{option_map};
    ghost use Rattle.lane_core.specs.Lane.{Lane};

    ghost Value = { Option Lane };

    ghost view = { λ s. option_map (λ b. b.value) s.lane };
}

impl Slot {
    fn empty() -> Slot
        ensures { result ≡ None }
    {
        Slot { lane: None }
    }

    /// The lane.
    pub(crate) fn get(&self) -> Option<&Lane>
        ensures { option_copied result ≡ self.now }
    {
        match &self.lane {
            None => None,
            Some(lane) => Some(lane),
        }
    }

    /// The lane, to be stepped in place.
    #[inline(always)]
    pub(crate) fn get_mut(&mut self) -> Option<&mut Lane>
        ensures* stands { sem 𝓛 (LendsLane self.entry result) }
        ensures value { option_copied_mut result ≡ self.old }
    {
        match &mut self.lane {
            None => None,
            Some(lane) => Some(lane),
        }
    }

    /// Puts a lane in the place of what was there.
    fn put(&mut self, lane: Box<Lane>)
        ensures { self.new ≡ Some lane.value }
    {
        self.lane = Some(lane);
    }
}

/// The lanes of a station, by destination. There is a lane once a message was sent to its destination. Which of them have a frame
/// to queue, and which a running timer, is kept beside them, so that the next one is found without looking at all.
pub struct Lanes {
    pub(crate) slots: Vec<Slot>,
    pub(crate) ready: AddressSet,
    pub(crate) timed: AddressSet,
}

impl Model for Lanes {
    ghost use Rattle.std.specs.FinMap as map;
    ghost use Rattle.station_lanes.specs.Lanes.{Lanes, lanes_code};

    ghost Value = { Lanes };

    ghost coded = { lanes_code };

    ghost use Rattle.station_lanes.specs.LaneSlots.{lanes_value, AreSlots};

    ghost view = { lanes_value };

    ghost invariant = { AreSlots };
}

impl Drop for Lanes {
    fn drop(self) {
        let Lanes {
            slots: _,
            ready: _,
            timed: _,
        } = self;
    }
}

impl Lanes {
    /// No lane. It makes the places of all.
    pub fn new(alloc: Global) -> Result<Lanes, AllocError>
        ensures { IfOk result (λ lanes. lanes ≡ map.empty) }
    {
        let mut slots = Vec::with_capacity(alloc, PLACES)?;
        for _ in 0..PLACES {
            slots.push_reserved(Slot::empty());
        }
        Ok(Lanes {
            slots,
            ready: AddressSet::new(),
            timed: AddressSet::new(),
        })
    }

    /// The lane to a destination.
    pub fn get(&self, to: Address) -> Option<&Lane>
        ensures value { option_copied result ≡ map.get self.now to.0 }
        ensures in_place { IfSome result (λ lane. lane.now.to ≡ to.0) }
    {
        lane_at(&self.slots, to.0)
    }

    /// Puts the lane to a destination in.
    pub(crate) fn put(&mut self, to: Address, lane: Box<Lane>)
        requires { lane.value.to ≡ to.0 }
        ensures { self.new ≡ map.insert self.old to.0 lane.value }
    {
        // Calling a reader states that no lane has the null address.
        let _to = lane.to();
        mark(&lane, &mut self.ready, &mut self.timed, to.0);
        put_at(&mut self.slots, to.0, lane);
    }

    /// What holds of all lanes: none is to the null address. It does nothing.
    pub fn laws(&self)
        ensures { map.get self.now null_address ≡ None }
    {
        let _places = self.slots.len();
    }

    /// The lowest destination from one on, 0 to 256, whose lane has a frame to queue, now or once a gap has passed.
    pub(crate) fn next_ready(&self, from: usize) -> Option<Address>
        ensures some { IfSome result (λ to. (from ≤ to.0) × NonePasses (is_ready_at self.now) from to.0) }
        ensures none { IfNone result (NonePasses (is_ready_at self.now) from 256) }
    {
        match self.ready.next(from) {
            None => None,
            Some(to) => Some(Address(to)),
        }
    }

    /// The lowest destination from one on, 0 to 256, whose lane may have a running timer.
    pub(crate) fn next_timed(&self, from: usize) -> Option<Address>
        ensures some { IfSome result (λ to. (from ≤ to.0) × NonePasses (is_timed_at self.now) from to.0) }
        ensures none { IfNone result (NonePasses (is_timed_at self.now) from 256) }
    {
        match self.timed.next(from) {
            None => None,
            Some(to) => Some(Address(to)),
        }
    }
}

/// Marks in the sets whether the lane to a destination has a frame to queue, and whether a timer of it runs.
#[inline(always)]
pub(crate) fn mark(lane: &Lane, ready: &mut AddressSet, timed: &mut AddressSet, to: u8)
    ensures ready { IsMarked ready.old ready.new to (is_ready lane.now) }
    ensures timed { IsMarked timed.old timed.new to (is_timed lane.now) }
{
    // Both are read first: after a store between them, the second would read its fields again.
    let is_ready = lane.is_ready();
    let is_timed = lane.is_timed();
    ready.set(to, is_ready);
    timed.set(to, is_timed);
}

/// `mark`, after a step that may have ended a message. Most steps end none; they are kept apart, so that no outcome is copied for
/// them.
#[inline(always)]
pub(crate) fn mark_after(
    has_ended: bool,
    lane: &Lane,
    ready: &mut AddressSet,
    timed: &mut AddressSet,
    to: u8,
)
    ensures ready { IsMarked ready.old ready.new to (is_ready lane.now) }
    ensures timed { IsMarked timed.old timed.new to (is_timed lane.now) }
{
    if has_ended {
        mark_ended(lane, ready, timed, to);
    } else {
        mark(lane, ready, timed, to);
    }
}

#[inline(never)]
fn mark_ended(lane: &Lane, ready: &mut AddressSet, timed: &mut AddressSet, to: u8)
    ensures ready { IsMarked ready.old ready.new to (is_ready lane.now) }
    ensures timed { IsMarked timed.old timed.new to (is_timed lane.now) }
{
    mark(lane, ready, timed, to);
}

// The lane in the place of a destination.
fn lane_at(slots: &Vec<Slot>, to: u8) -> Option<&Lane>
    requires { to < vec_len slots.now }
    ensures { option_copied result ≡ slot_at slots.now.items to }
{
    slots[usize::from(to)].get()
}

// Puts a lane in the place of a destination.
fn put_at(slots: &mut Vec<Slot>, to: u8, lane: Box<Lane>)
    requires { to < vec_len slots.old }
    ensures { slots.new.items ≡ slice_set slots.old.items to (Some lane.value) }
{
    slots[usize::from(to)].put(lane);
}
