//! What a segment answers without a step. No reader takes memory.
ghost use Rattle.std.specs.Prelude.{◌≡◌, ◌<◌, ◌≤◌, length, slice_get, slice_index_or};
ghost use Rattle.tx_queue.specs.Queue.{queue_limit};
ghost use Rattle.bus_order.specs.Bus.{bus_len, frame_at};
ghost use Rattle.station_lanes.specs.LaneReaders.{missing_at};
ghost use Rattle.segment_law.specs.Segment.{has_station, station_at, station_limit, waiting_at};
ghost use Rattle.segment_law.specs.Readers.{lane_seen, queue_len, front_at, next_pump, is_due, wanted, wanted_with, frame_for, rests, is_idle};
ghost use Rattle.segment_state.specs.Followed.{IsFollowed, addresses_of};

use crate::state::SegmentState;
use bus_frame::Frame;
use bus_order::BusLog;
use lane_core::LaneSight;
use pgn_ids::Address;
use port_table::PortSet;
use segment_law::Counts;
use station_core::Station;

impl SegmentState {
    /// The clock's tick, of 1 ms.
    pub fn now(&self) -> u64
        ensures { result ≡ self.now.now }
    {
        self.clock.now()
    }

    /// Its stations, by rising address.
    pub fn stations(&self) -> &[Station]
        ensures value { result.now ≡ self.now.stations }
        ensures few { length result.now ≤ station_limit }
    {
        &self.stations
    }

    /// Its bus, with a cursor for each station.
    pub fn bus(&self) -> &BusLog
        ensures value { result.now ≡ self.now.bus }
        ensures cursors { length result.now.cursors ≡ length self.now.stations }
    {
        &self.bus
    }

    /// Whether the address is that of a station.
    pub fn has_station(&self, address: Address) -> bool
        ensures { result ≡ has_station self.now address }
    {
        self.place_of(address).is_some()
    }

    /// How many frames wait in a station's transmit queue; 0 if the address isn't a station's.
    pub fn queue_len(&self, station: Address) -> usize
        ensures value { result ≡ queue_len self.now station }
        ensures within { result ≤ queue_limit }
    {
        match self.place_of(station) {
            None => 0,
            Some(place) => self.stations[place].queue_len(),
        }
    }

    /// How many frames of the bus a station has neither taken nor passed over; 0 if the address isn't a station's.
    pub fn waiting(&self, station: Address) -> u64
        ensures { result ≡ waiting_at self.now station }
    {
        match self.place_of(station) {
            None => 0,
            Some(place) => self.bus.waiting(place),
        }
    }

    /// How many frames were put on the bus.
    pub fn bus_len(&self) -> u64
        ensures { result ≡ bus_len self.now.bus }
    {
        self.bus.len()
    }

    /// The frame at a place of the bus, from 1, if it is kept. Frames are kept from the one that the station furthest behind took or
    /// passed over last, that one included, to the newest.
    pub fn frame(&self, place: u64) -> Option<Frame>
        ensures { result ≡ frame_at self.now.bus place }
    {
        self.bus.frame(place)
    }

    /// The counts, each up to the last value of `u64`.
    pub fn counts(&self) -> Counts
        ensures { result ≡ self.now.counts }
    {
        self.counts
    }

    /// The frame that a station transmits next; none if its queue is empty or the address isn't a station's.
    pub fn front(&self, station: Address) -> Option<Frame>
        ensures { result ≡ front_at self.now station }
    {
        match self.place_of(station) {
            None => None,
            Some(place) => self.stations[place].front(),
        }
    }

    /// The sight of a station's lane to a destination: how many messages wait or are under way, and whether it is in doubt after one
    /// that failed. Nothing if the address isn't a station's.
    pub fn lane(&self, station: Address, to: Address) -> LaneSight
        ensures { result ≡ lane_seen self.now station to }
    {
        match self.place_of(station) {
            None => LaneSight::nothing(),
            Some(place) => self.stations[place].lane(to),
        }
    }

    /// The lowest destination of a station whose Pump would not be refused; none if the address isn't a station's.
    #[tactic(auto, using(crate::proofs::Pumping::next_pump_is, crate::proofs::Pumping::next_pump_none))]
    pub fn next_pump(&self, station: Address) -> Option<Address>
        ensures { result ≡ next_pump self.now station }
    {
        match self.place_of(station) {
            None => None,
            Some(place) => self.stations[place].next_pump(self.clock.now()),
        }
    }

    /// Whether one of a station's timers is due; false if the address isn't a station's.
    pub fn is_due(&self, station: Address) -> bool
        ensures { result ≡ is_due self.now station }
    {
        match self.place_of(station) {
            None => false,
            Some(place) => self.stations[place].is_due(self.clock.now()),
        }
    }

    /// The ports that the station's next Take with room would give to, or with `again` its TakeAgain, and the length of the message in
    /// bytes; no port and 0 if it would give nothing or the address isn't a station's.
    pub fn wants(&self, station: Address, again: bool) -> (PortSet, u32)
        ensures { result ≡ wanted self.now station again }
    {
        match self.place_of(station) {
            None => (PortSet::empty(), 0),
            Some(place) => self.wants_at(place, again),
        }
    }

    // `wants`, for the station at a place.
    fn wants_at(&self, place: usize, again: bool) -> (PortSet, u32)
        requires { place < length self.now.stations }
        ensures { result ≡ wanted_with (slice_get self.now.stations place) (frame_for self.now again place) }
    {
        let Some(frame) = self.frame_for(place, again) else {
            return (PortSet::empty(), 0);
        };
        let station = &self.stations[place];
        if station.free() == 0 {
            return (PortSet::empty(), 0);
        }
        station.wants(&frame)
    }

    // The frame that the station at a place takes next, or that it takes again.
    fn frame_for(&self, place: usize, again: bool) -> Option<Frame>
        requires { place < length self.now.stations }
        ensures { result ≡ frame_for self.now again place }
    {
        if again {
            return self.bus.again(place);
        }
        self.next_frame(place)
    }

    /// Whether all queues are empty, no frame waits for a station, and no lane has anything to queue now.
    pub fn is_idle(&self) -> bool
        ensures { result ≡ is_idle self.now }
    {
        self.stations.iter().all(|station| self.rests(station))
    }

    // `is_idle`, for one station.
    fn rests(&self, station: &Station) -> bool
        ensures { result ≡ rests self.now station.now }
    {
        station.queue_len() == 0
            && self.waiting(station.address()) == 0
            && station.next_pump(self.clock.now()).is_none()
    }

    /// How many stations there are.
    pub fn station_count(&self) -> usize
        ensures { result ≡ length self.now.stations }
    {
        self.stations.len()
    }

    /// The address of the station at a place.
    pub fn address_at(&self, place: usize) -> Address
        requires { place < length self.now.stations }
        ensures { result ≡ slice_index_or (addresses_of self.now) place result }
    {
        self.stations[place].address()
    }

    /// How many frames wait for a station.
    pub fn left(&self, station: Address) -> u64
        ensures value { result ≡ waiting_at self.now station }
        ensures followed { IsFollowed self.now }
    {
        let _sound = self.bus.len();
        match self.place_of(station) {
            None => 0,
            Some(place) => self.bus.waiting(place),
        }
    }

    /// How many ticks are missing until the next frame of a broadcast.
    pub fn missing(&self, from: Address, to: Address) -> u64
        ensures { result ≡ missing_at (station_at self.now from).lanes to.0 self.now.now }
    {
        match self.place_of(from) {
            None => 0,
            Some(place) => self.stations[place].missing(to, self.clock.now()),
        }
    }
}
