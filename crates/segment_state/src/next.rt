//! When a segment next has something to do by itself.
ghost use Rattle.std.specs.Prelude.{◌≡◌, ◌||◌, true, is_none};
ghost use Rattle.tick_timers.specs.Due.{IsDueFrom, IsNextFrom};
ghost use Rattle.segment_law.specs.Calls.{called};
ghost use Rattle.segment_law.specs.declared.call.Call.TheVariants.{Transmit, Take};
ghost use Rattle.segment_state.specs.Answers.{refusal_of};
ghost use Rattle.segment_state.specs.Next.{at_tick, is_active, has_work, any_work};

use crate::state::SegmentState;
use pgn_ids::Address;
use tick_timers::{always, earlier, not_before};

impl SegmentState {
    /// The first tick, from that of its clock on, at which it has something to do by itself: at that tick a Pump to some
    /// destination, or a Transmit, a Take or a Fire of some station, would not be refused. So nothing is to be done before, unless
    /// another call is made. None if there is no such tick up to the last one of `u64`.
    pub fn next_at(&self) -> Option<u64>
        ensures { IsNextFrom (any_work self.now) self.now.now result }
    {
        not_before(self.clock.now(), self.work_from())
    }

    /// The tick from which on a timer of a station is due or one of its lanes has a frame to queue, unless a call names it before.
    /// None if there is no such tick up to the last one of `u64`, or the address isn't a station's.
    pub fn active_from(&self, station: Address) -> Option<u64>
        ensures { IsDueFrom (λ tick. is_active (at_tick self.now tick) station) result }
    {
        let Some(place) = self.place_of(station) else {
            return None;
        };
        let at = &self.stations[place];
        earlier(at.next_due_at(), at.next_pump_at())
    }

    // The tick from which on some station has something to do.
    #[tactic(auto, using(crate::proofs::Nexts::work_laws))]
    fn work_from(&self) -> Option<u64>
        ensures { IsDueFrom (any_work self.now) result }
    {
        let mut tick = None;
        for station in &self.stations {
            tick = earlier(tick, self.work_from_at(station.address()));
        }
        tick
    }

    // The tick from which on the station with an address has something to do. A frame that it can put on the bus or take from it is
    // there at every tick.
    #[tactic(auto, using(crate::proofs::Nexts::work_laws))]
    fn work_from_at(&self, address: Address) -> Option<u64>
        ensures { IsDueFrom (λ tick. has_work (at_tick self.now tick) address) result }
    {
        let Some(place) = self.place_of(address) else {
            return None;
        };
        let station = &self.stations[place];
        let timed = earlier(station.next_pump_at(), station.next_fire_at());
        earlier(always(self.moves(address)), timed)
    }

    // Whether the station with an address can put a frame on the bus or take one from it.
    #[tactic(auto, unfolding(segment_law::specs::Calls::called))]
    fn moves(&self, address: Address) -> bool
        ensures { result ≡ (is_none (refusal_of (called self.now (Transmit address))) || is_none (refusal_of (called self.now (Take address true)))) }
    {
        self.transmit_refusal(address).is_none() || self.take_refusal(address, true).is_none()
    }
}
