//! Why a call would be refused, looked for without a step and without memory.
ghost use Rattle.std.specs.Prelude.{◌≡◌, ℕ, List, length, true};
ghost use Rattle.bus_order.specs.Bus.{is_full};
ghost use Rattle.segment_law.specs.Calls.{at_address, called, cancels, closes, fires, injects, overruns, pauses, pumps, repeats, resumes, takes, ticks, transmits};
ghost use Rattle.segment_law.specs.declared.call.Call.TheVariants.{Open, Send};
ghost use Rattle.segment_state.specs.Answers.{refusal_of};

use crate::state::SegmentState;
use crate::stop::refusal_by;
use bus_frame::Frame;
use bus_order::MAX_KEPT;
use pgn_ids::{Address, read_id};
use port_table::PortId;
use segment_law::{Call, Refusal};

impl SegmentState {
    /// Why a call would be refused: the first of its causes, or `None` if `apply` makes the call or finds no memory for
    /// it. It takes no memory.
    #[tactic(auto, unfolding(segment_law::specs::Calls::called))]
    pub fn refusal(&self, call: &Call) -> Option<Refusal>
        ensures { result ≡ refusal_of (called self.now call.now) }
    {
        match call {
            Call::Open { station, .. } => self.open_refusal(*station),
            Call::Close { port } => self.close_refusal(*port),
            Call::Send {
                from,
                to,
                bytes,
                ..
            } => self.send_refusal(*from, *to, bytes.len()),
            Call::Pump { station, to } => self.pump_refusal(*station, *to),
            Call::Transmit { station } => self.transmit_refusal(*station),
            Call::Take { station, room } => self.take_refusal(*station, *room),
            Call::TakeAgain { station, room } => self.repeat_refusal(*station, *room),
            Call::Overrun { station, n } => self.overrun_refusal(*station, *n),
            Call::Tick { n } => self.tick_refusal(*n),
            Call::Fire { station } => self.fire_refusal(*station),
            Call::Cancel { from, to, number } => self.cancel_refusal(*from, *to, *number),
            Call::Inject { frame } => self.inject_refusal(frame),
            Call::Pause { port } => self.pause_refusal(*port),
            Call::Resume { port } => self.resume_refusal(*port),
        }
    }

    /// Why a Send of so many bytes from a station to a destination would be refused, whatever they are and whatever the
    /// PGN. It takes no memory.
    #[tactic(auto, unfolding(segment_law::specs::Calls::called))]
    pub fn send_refusal(&self, from: Address, to: Address, len: usize) -> Option<Refusal>
        ensures { (pgn : ℕ) (bytes : List ℕ) → length bytes ≡ len → result ≡ refusal_of (called self.now (Send from to pgn bytes)) }
    {
        let Some(place) = self.place_of(from) else {
            return Some(Refusal::NoSuchStation);
        };
        refusal_by(self.stations[place].send_refusal(to, len))
    }

    // Why a Close of a port would be refused.
    fn close_refusal(&self, port: PortId) -> Option<Refusal>
        ensures { result ≡ refusal_of (at_address self.now port.station (closes self.now port.number)) }
    {
        let Some(place) = self.place_of(port.station) else {
            return Some(Refusal::NoSuchStation);
        };
        refusal_by(self.stations[place].close_refusal(port.number))
    }

    // Why a Pause of a port would be refused.
    fn pause_refusal(&self, port: PortId) -> Option<Refusal>
        ensures { result ≡ refusal_of (at_address self.now port.station (pauses self.now port.number)) }
    {
        let Some(place) = self.place_of(port.station) else {
            return Some(Refusal::NoSuchStation);
        };
        refusal_by(self.stations[place].pause_refusal(port.number))
    }

    // Why a Resume of a port would be refused.
    fn resume_refusal(&self, port: PortId) -> Option<Refusal>
        ensures { result ≡ refusal_of (at_address self.now port.station (resumes self.now port.number)) }
    {
        let Some(place) = self.place_of(port.station) else {
            return Some(Refusal::NoSuchStation);
        };
        refusal_by(self.stations[place].resume_refusal(port.number))
    }

    /// Why an Open at a station would be refused, whatever its PGN and length: the address isn't a station's, or the
    /// station has 16 open ports or no number left. It takes no memory.
    pub fn open_refusal(&self, station: Address) -> Option<Refusal>
        ensures { (pgn max_len : ℕ) → result ≡ refusal_of (called self.now (Open station pgn max_len)) }
    {
        let Some(place) = self.place_of(station) else {
            return Some(Refusal::NoSuchStation);
        };
        refusal_by(self.stations[place].open_refusal())
    }

    /// Why a station's Transmit would be refused.
    #[tactic(auto, using(crate::proofs::Stations::call_laws))]
    pub fn transmit_refusal(&self, station: Address) -> Option<Refusal>
        ensures { result ≡ refusal_of (at_address self.now station (transmits self.now)) }
    {
        let Some(place) = self.place_of(station) else {
            return Some(Refusal::NoSuchStation);
        };
        let Some(_front) = self.stations[place].front() else {
            return Some(Refusal::NothingToSend);
        };
        if self.is_bus_full() {
            return Some(Refusal::BusFull);
        }
        None
    }

    // Whether the bus keeps all frames that it can, or has no place for one more in `u64`.
    #[tactic(auto, using(crate::proofs::Causes::bus_laws))]
    fn is_bus_full(&self) -> bool
        ensures { result ≡ is_full self.now.bus }
    {
        let len = self.bus.len();
        let most = MAX_KEPT as u64;
        if len == u64::MAX {
            return true;
        }
        if len < most {
            return false;
        }
        self.bus.frame(len - (most - 1)).is_some()
    }

    /// Why a Pump of the lane from a station to a destination would be refused.
    pub fn pump_refusal(&self, station: Address, to: Address) -> Option<Refusal>
        ensures { result ≡ refusal_of (at_address self.now station (pumps self.now to)) }
    {
        let Some(place) = self.place_of(station) else {
            return Some(Refusal::NoSuchStation);
        };
        refusal_by(self.stations[place].pump_refusal(to, self.clock.now()))
    }

    /// Why a station's Take would be refused, with room or without.
    pub fn take_refusal(&self, station: Address, room: bool) -> Option<Refusal>
        ensures { result ≡ refusal_of (at_address self.now station (takes self.now room)) }
    {
        let Some(place) = self.place_of(station) else {
            return Some(Refusal::NoSuchStation);
        };
        let Some(_next) = self.next_frame(place) else {
            return Some(Refusal::NothingToTake);
        };
        refusal_by(self.stations[place].take_refusal())
    }

    // Why a station's TakeAgain would be refused.
    fn repeat_refusal(&self, station: Address, room: bool) -> Option<Refusal>
        ensures { result ≡ refusal_of (at_address self.now station (repeats self.now room)) }
    {
        let Some(place) = self.place_of(station) else {
            return Some(Refusal::NoSuchStation);
        };
        let Some(_last) = self.bus.again(place) else {
            return Some(Refusal::NothingToRepeat);
        };
        refusal_by(self.stations[place].take_refusal())
    }

    // Why a station's Overrun would be refused.
    #[tactic(auto, using(crate::proofs::Stations::call_laws))]
    fn overrun_refusal(&self, station: Address, n: u64) -> Option<Refusal>
        ensures { result ≡ refusal_of (at_address self.now station (overruns self.now n)) }
    {
        let Some(place) = self.place_of(station) else {
            return Some(Refusal::NoSuchStation);
        };
        if n > self.bus.waiting(place) {
            return Some(Refusal::NothingToTake);
        }
        None
    }

    // Why a Tick would be refused.
    fn tick_refusal(&self, n: u64) -> Option<Refusal>
        ensures { result ≡ refusal_of (ticks self.now n) }
    {
        if n > u64::MAX - self.clock.now() {
            return Some(Refusal::ClockEnd);
        }
        None
    }

    // Why a station's Fire would be refused.
    fn fire_refusal(&self, station: Address) -> Option<Refusal>
        ensures { result ≡ refusal_of (at_address self.now station (fires self.now)) }
    {
        let Some(place) = self.place_of(station) else {
            return Some(Refusal::NoSuchStation);
        };
        refusal_by(self.stations[place].fire_refusal(self.clock.now()))
    }

    // Why a Cancel of a message would be refused.
    fn cancel_refusal(&self, from: Address, to: Address, number: u64) -> Option<Refusal>
        ensures { result ≡ refusal_of (at_address self.now from (cancels self.now to number)) }
    {
        let Some(place) = self.place_of(from) else {
            return Some(Refusal::NoSuchStation);
        };
        refusal_by(self.stations[place].cancel_refusal(to, number))
    }

    // Why an Inject of a frame would be refused.
    #[tactic(auto, using(crate::proofs::Stations::call_laws))]
    fn inject_refusal(&self, frame: &Frame) -> Option<Refusal>
        ensures { result ≡ refusal_of (injects self.now frame.now) }
    {
        if self.place_of(read_id(frame.id()).from).is_some() {
            return Some(Refusal::StationAddress);
        }
        if self.is_bus_full() {
            return Some(Refusal::BusFull);
        }
        None
    }
}
