//! The turns of workers, each within one hold of the lock.
ghost use Rattle.std.specs.Prelude.{◌≡◌, ◌<◌, List, length, false};
ghost use Rattle.message_events.specs.declared.event.Event.{Event};
ghost use Rattle.segment_state.specs.Answers.{reply_with};
ghost use Rattle.segment_law.specs.Segment.{waiting_at};
ghost use Rattle.segment_law.specs.Readers.{next_pump, is_due};
ghost use Rattle.segment_state.specs.Next.{is_active};
ghost use Rattle.live_calls.specs.declared.call.WorkerCall.TheVariants.{Fire as FireCall, Overrun as OverrunCall};
ghost use Rattle.live_calls.specs.Lowest.{IsNext};
ghost use Rattle.live_segment.specs.Offers.{IsAtRest};
ghost use Rattle.live_segment.specs.Turns.{Finishes, is_stuck, point, no_turn, one_more, after_refusal, after_reply, after_accept, Makes, Accepts, AcceptsOne, AcceptsBelow, MakesWhere, PumpsTo, StationTurn, BusTurn, state_of};

use crate::live::Live;
use crate::refused::Accepted;
use bus_order::MAX_KEPT;
use live_calls::{WorkerCall, lowest_front};
use message_events::Events;
use pgn_ids::Address;
use segment_law::Refusal;
use segment_state::{Made, Passing};
use tx_queue::MAX_FRAMES;

/// What one turn did: how many calls were applied, up to the last value, and whether the worker ends since no more calls can
/// be stored.
#[derive(Clone, Copy, Debug, Drop)]
pub struct Turn {
    pub calls: u64,
    pub ended: bool,
}

/// How far the clock advances while nothing is to do.
const IDLE_TICKS: u64 = 50;

impl Turn {
    fn new() -> Turn
        ensures { result ≡ no_turn }
    {
        Turn {
            calls: 0,
            ended: false,
        }
    }

    // One call more.
    fn add(&mut self)
        ensures { self.new ≡ one_more self.old }
    {
        self.calls = self.calls.saturating_add(1);
    }

    // The worker ends if no more calls can be stored.
    fn refused(&mut self, refusal: Refusal)
        ensures { self.new ≡ after_refusal self.old refusal }
    {
        match refusal {
            Refusal::TraceFull => self.ended = true,
            _ => {}
        }
    }

    fn answered(&mut self, made: Made)
        ensures { (told : List Event) → self.new ≡ after_reply self.old (reply_with made told) }
    {
        match made {
            Made::Opened(_) => self.add(),
            Made::Sent(_) => self.add(),
            Made::Refused(refusal) => self.refused(refusal),
            Made::Done => self.add(),
        }
    }

    fn accepted(&mut self, accepted: Accepted)
        ensures { self.new ≡ after_accept self.old accepted }
    {
        match accepted {
            Accepted::Empty => {}
            Accepted::Owed => {}
            Accepted::Refused(refusal) => self.refused(refusal),
            Accepted::Sent(_) => self.add(),
        }
    }

    // Makes a call; each caller names which. The usual one gives no message.
    #[inline(always)]
    fn make(&mut self, live: &mut Live, call: &WorkerCall)
        ensures { Makes call.now (point live.old self.old) (point live.new self.new) }
    {
        if live.make_plainly(call) {
            self.add();
            return;
        }
        self.make_apart(live, *call);
    }

    // `make`, for a call that may give a message, is refused or finds no memory. A turn isn't paid at its entry for what few calls do.
    #[inline(never)]
    fn make_apart(&mut self, live: &mut Live, call: WorkerCall)
        ensures { Makes call (point live.old self.old) (point live.new self.new) }
    {
        let mut told = Events::none(live.alloc);
        match live.apply_telling(call, &mut told) {
            Ok(made) => self.answered(made),
            Err(_) => {}
        }
    }

    // Looks at the front submission of a client.
    fn accept(&mut self, live: &mut Live, client: u64)
        ensures { Accepts client (point live.old self.old) (point live.new self.new) }
    {
        match live.accept(client) {
            Ok(accepted) => self.accepted(accepted),
            Err(_) => {}
        }
    }

    // `accept`, if it is a client of the station.
    fn accept_one(&mut self, live: &mut Live, station: Address, client: u64)
        ensures { AcceptsOne station client (point live.old self.old) (point live.new self.new) }
    {
        let Some(other) = live.station_of(client) else {
            return;
        };
        if other.0 != station.0 {
            return;
        }
        self.accept(live, client);
    }

    // Accepts once for each client of a station. Nobody looks at them while none has news. If a submission was accepted, more may be
    // in its ring that were announced already, so the clients are looked at again.
    #[inline(always)]
    fn accept_all(&mut self, live: &mut Live, station: Address)
        ensures { AcceptsBelow (length live.old.clients) station (point live.old self.old) (point live.new self.new) }
    {
        if live.is_called(station) {
            let before = self.calls;
            self.accept_each(live, station);
            if self.calls == before {
                live.hush(station);
            }
        }
    }

    // Accepts once for each client of a station.
    #[inline(never)]
    fn accept_each(&mut self, live: &mut Live, station: Address)
        ensures { AcceptsBelow (length live.old.clients) station (point live.old self.old) (point live.new self.new) }
    {
        for client in 0..live.clients() {
            self.accept_one(live, station, client);
        }
    }

    // Makes the Pump that has something to queue, if there is one.
    fn pump(&mut self, live: &mut Live, station: Address)
        ensures { PumpsTo (next_pump (state_of live.old) station) station (point live.old self.old) (point live.new self.new) }
    {
        if let Some(to) = live.segment().next_pump(station) {
            self.make(live, &WorkerCall::Pump { station, to });
        }
    }

    // Makes a call if it has something to do.
    #[inline(always)]
    fn make_where(&mut self, live: &mut Live, is_wanted: bool, call: WorkerCall)
        ensures { MakesWhere is_wanted call (point live.old self.old) (point live.new self.new) }
    {
        if is_wanted {
            self.make(live, &call);
        }
    }

    // `make_where`, for a call that few turns make.
    #[inline(always)]
    fn make_apart_where(&mut self, live: &mut Live, is_wanted: bool, call: WorkerCall)
        ensures { MakesWhere is_wanted call (point live.old self.old) (point live.new self.new) }
    {
        if is_wanted {
            self.make_apart(live, call);
        }
    }

    // Fires the first timer that is due, if there is one. Of a station that isn't active the look at it is one comparison, and the tick
    // up to which it isn't is noted for its next turn.
    #[inline(always)]
    fn fire(&mut self, live: &mut Live, station: Address)
        ensures { MakesWhere (is_due (state_of live.old) station) (FireCall station) (point live.old self.old) (point live.new self.new) }
    {
        if live.is_active(station) {
            let is_due = live.segment().is_due(station);
            self.make_apart_where(live, is_due, WorkerCall::Fire { station });
        }
    }

    // What a turn does once its station's clients were looked at and a Pump was made.
    #[inline(always)]
    fn finish(&mut self, live: &mut Live, station: Address)
        ensures { Finishes station (point live.old self.old) (point live.new self.new) }
    {
        let waits = live.segment().waiting(station) > 0;
        self.make_where(live, waits, WorkerCall::Take { station });
        self.fire(live, station);
        self.miss(live, station);
    }

    // A station whose queue is full takes nothing more. If so many frames wait for it that the bus is full, no station can
    // transmit either, and nothing would go on: it misses the frames that wait.
    #[inline(always)]
    fn miss(&mut self, live: &mut Live, station: Address)
        ensures { MakesWhere (is_stuck (state_of live.old) station) (OverrunCall station (waiting_at (state_of live.old) station)) (point live.old self.old) (point live.new self.new) }
    {
        let waiting = live.segment().waiting(station);
        // Among the frames that the bus keeps is the one that the station took last.
        let most_waiting = MAX_KEPT as u64 - 1;
        let is_stuck = waiting >= most_waiting && live.segment().queue_len(station) >= MAX_FRAMES;
        self.make_apart_where(
            live,
            is_stuck,
            WorkerCall::Overrun {
                station,
                n: waiting,
            },
        );
    }
}

// A turn that made one call.
#[inline(always)]
fn one_call() -> Turn
    ensures { result ≡ one_more no_turn }
{
    let mut turn = Turn::new();
    turn.add();
    turn
}

impl Live {
    /// One turn of a station's worker: it accepts once for each client of the station, by rising number, and then makes at most
    /// one Pump, one Take and one Fire, each if there is something to do. If its queue of 64 frames is full then and 4,095
    /// frames or more wait for it, it misses them by an Overrun: the bus is as good as full, so its queue could not empty and
    /// nothing would go on. A call that is refused or finds no memory changes nothing and isn't counted.
    pub fn station_turn(&mut self, station: Address) -> Turn
        ensures { StationTurn station (point self.old no_turn) (point self.new result) }
    {
        if self.is_called(station) {
            return self.whole_turn(station);
        }
        if self.is_active(station) {
            return self.whole_turn(station);
        }
        match self.pass_by(station) {
            Passing::Busy => self.taking_turn(station),
            Passing::Rests => Turn::new(),
            Passing::Passed => one_call(),
        }
    }

    // `station_turn`, step by step: of a station that may have more to do than to take a frame.
    #[inline(never)]
    fn whole_turn(&mut self, station: Address) -> Turn
        ensures { StationTurn station (point self.old no_turn) (point self.new result) }
    {
        let mut turn = Turn::new();
        turn.accept_all(self, station);
        turn.pump(self, station);
        turn.finish(self, station);
        turn
    }

    // `station_turn`, of a station that has nothing to accept and nothing to queue.
    #[inline(never)]
    fn taking_turn(&mut self, station: Address) -> Turn
        requires rests { IsAtRest station self.old }
        requires calm { is_active (state_of self.old) station ≡ false }
        ensures { StationTurn station (point self.old no_turn) (point self.new result) }
    {
        let mut turn = Turn::new();
        turn.finish(self, station);
        turn
    }

    /// The station whose waiting frame has the lowest identifier, of several the first in the order of their addresses; none if
    /// no station's queue has a frame.
    pub fn lowest(&self) -> Option<Address>
        ensures { IsNext (state_of self.now) self.now.addresses result }
    {
        lowest_front(self.segment(), self.addresses())
    }

    /// One turn of the bus's worker: the waiting frame of the lowest identifier is put on the bus; or the clock advances by 50
    /// ticks if no frame waits and nothing is to do.
    pub fn bus_turn(&mut self) -> Turn
        ensures { BusTurn (point self.old no_turn) (point self.new result) }
    {
        let mut turn = Turn::new();
        if let Some(station) = self.lowest() {
            turn.make(self, &WorkerCall::Transmit { station });
            return turn;
        }
        let is_idle = self.segment().is_idle();
        turn.make_where(self, is_idle, WorkerCall::Tick { n: IDLE_TICKS });
        turn
    }
}
