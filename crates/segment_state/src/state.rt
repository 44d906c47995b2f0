//! The state of a segment: its clock, its stations by rising address, its bus, and what was counted.

ghost use Rattle.std.specs.Prelude.{◌≡◌, ◌<◌, true, length, IfOk, IfSome};
ghost use Rattle.pgn_ids.specs.Address.{is_one};
ghost use Rattle.segment_law.specs.Segment.{are_addresses, new_segment, place_of};
ghost use Rattle.station_core.specs.Station.{new_station};

use crate::places::Places;
use bus_order::BusLog;
use pgn_ids::Address;
use segment_law::Counts;
use station_addresses::in_order;
use station_core::{Station, Stopped};
use std::alloc::{AllocError, Global};
use std::marker::Model;
use tick_timers::Clock;

const NOTHING_COUNTED: Counts = Counts {
    frames: 0,
    malformed: 0,
    repeated: 0,
    given: 0,
    acknowledged: 0,
    broadcast: 0,
    aborted: 0,
    timed_out: 0,
    overrun: 0,
    cancelled: 0,
    unreachable: 0,
};

/// The state of one bus with 1 to 32 stations. Nothing changes it but the steps of calls.
pub struct SegmentState {
    pub(crate) clock: Clock,
    pub(crate) stations: Vec<Station>,
    pub(crate) places: Places,
    pub(crate) bus: BusLog,
    pub(crate) counts: Counts,
}

impl Model for SegmentState {
    ghost use Rattle.segment_law.specs.Segment.{Segment};
    ghost use Rattle.segment_state.specs.StateFields.{state_value, IsStateInside};
    ghost use Rattle.segment_state.specs.SegmentCode.{segment_code};

    ghost Value = { Segment };

    ghost coded = { segment_code };

    ghost view = { state_value };

    ghost invariant = { IsStateInside };
}

impl Drop for SegmentState {
    fn drop(self) {
        let SegmentState {
            clock: _,
            stations: _,
            places: _,
            bus: _,
            counts: _,
        } = self;
    }
}

// The station with an address of one node, which nothing but want of memory refuses.
fn station_at(alloc: Global, address: Address) -> Result<Station, AllocError>
    requires { is_one address.0 ≡ true }
    ensures { IfOk result (λ station. station ≡ new_station address) }
{
    match Station::new(alloc, address) {
        Ok(station) => Ok(station),
        Err(Stopped::OutOfMemory) => Err(AllocError),
        Err(Stopped::Refused(_)) => unreachable!(),
    }
}

impl SegmentState {
    /// A new segment with stations of these addresses, which are fit, in any order: its clock is at 0, and nothing was done yet.
    pub fn of(alloc: Global, addresses: &[Address]) -> Result<SegmentState, AllocError>
        requires { are_addresses addresses.now ≡ true }
        ensures { IfOk result (λ state. state ≡ new_segment addresses.now) }
    {
        let rising = in_order(alloc, addresses)?;
        let mut stations = Vec::with_capacity(alloc, rising.len())?;
        let mut places = Places::new();
        for place in 0..rising.len() {
            let address = rising[place];
            places.note(address, place as u8);
            stations.push_reserved(station_at(alloc, address)?);
        }
        Ok(SegmentState {
            clock: Clock::new(),
            stations,
            places,
            bus: BusLog::new(alloc, addresses.len())?,
            counts: NOTHING_COUNTED,
        })
    }

    /// The place of the station with an address.
    pub(crate) fn place_of(&self, address: Address) -> Option<usize>
        ensures value { result ≡ place_of self.now address }
        ensures within { IfSome result (λ place. place < length self.now.stations) }
    {
        self.places.get(address)
    }
}
