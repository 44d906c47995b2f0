//! The turns of a worker, one after another.
use crate::clock::Clock;
use crate::cutting::{Cutting, PieceKeeper, cut_at};
use crate::relief::{relieved_turn, tick};
use crate::shared::SharedSegment;
use crate::workers::{BUS, Gate, Tally, WorkerEnd};
use live_segment::{Live, MOST_CALLS, NotMade, Piece, Turn};
use pgn_ids::Address;
use std::sync::Wait;
use std::thread;

/// The turns that a worker makes: those of a station or of the bus.
#[derive(Clone, Copy)]
pub(crate) enum Whose {
    Station(Address),
    Bus,
}

impl Whose {
    fn number(self) -> u8 {
        match self {
            Whose::Station(station) => station.0,
            Whose::Bus => BUS,
        }
    }
}

/// A worker: whose turns it makes, the gate that it passes, and, if it cuts the record or follows a clock, the keeper and the clock.
pub(crate) struct Worker<'a, G, K, C> {
    pub(crate) whose: Whose,
    pub(crate) gate: &'a G,
    pub(crate) cutting: Option<&'a Cutting<'a, K>>,
    pub(crate) clock: Option<&'a C>,
}

impl<G, K, C> Drop for Worker<'_, G, K, C> {
    fn drop(self) {
        let Worker {
            whose: _,
            gate: _,
            cutting: _,
            clock: _,
        } = self;
    }
}

/// A keeper and a clock for workers without one: it keeps no pieces and has no time.
#[derive(Drop)]
pub(crate) struct Nobody {}

impl PieceKeeper for Nobody {
    fn keep(&self, _piece: Piece) {}
}

impl Clock for Nobody {
    fn now(&self) -> u64 {
        0
    }
}

// The result of a turn: its calls, and those among them by which the clock followed another; how often in a row the station found no memory for
// what it takes; whether the worker waits for others; why it ends, if it does; and what was cut.
#[derive(Drop)]
struct Turned {
    calls: u64,
    ticks: u64,
    tried: u64,
    waits: bool,
    end: Option<WorkerEnd>,
    piece: Option<Piece>,
}

impl Turned {
    // Nothing was done.
    fn nothing(tried: u64, end: Option<WorkerEnd>) -> Turned {
        Turned {
            calls: 0,
            ticks: 0,
            tried,
            waits: true,
            end,
            piece: None,
        }
    }
}

impl<G: Gate, K: PieceKeeper, C: Clock> Worker<'_, G, K, C> {
    /// Makes so many turns at most. A worker with nothing to do lets other threads run, since it waits for their work.
    pub(crate) fn work<R: Wait>(&self, rt: &R, shared: &SharedSegment, turns: u64) -> Tally {
        let mut calls = 0u64;
        let mut tried = 0u64;
        for turn in 0..turns {
            self.gate.pass(self.whose.number(), turn + 1);
            let Turned {
                calls: made,
                ticks,
                tried: now_tried,
                waits,
                end,
                piece,
            } = self.turn_under_lock(rt, shared, tried);
            tried = now_tried;
            calls = calls.saturating_add(made);
            self.hand_over(piece);
            if let Some(end) = end {
                return Tally { calls, end };
            }
            self.gate
                .made(self.whose.number(), made.saturating_sub(ticks));
            if waits {
                thread::yield_now();
            }
        }
        Tally {
            calls,
            end: WorkerEnd::Turns,
        }
    }

    // Hands a piece to the keeper. The lock is free.
    fn hand_over(&self, piece: Option<Piece>) {
        if let Some(piece) = piece
            && let Some(cutting) = self.cutting
        {
            cutting.keeper.keep(piece);
        }
    }

    // A turn under the lock.
    fn turn_under_lock<R: Wait>(&self, rt: &R, shared: &SharedSegment, tried: u64) -> Turned {
        let mut live = shared.lock_for_turn(rt);
        if live.is_stopped() {
            return Turned::nothing(tried, Some(WorkerEnd::Stopped));
        }
        let (piece, is_past) = self.cut(&mut live);
        if live.calls().len() >= MOST_CALLS {
            return Turned::nothing(tried, self.end_if(is_past));
        }
        let mut turned = self.turn(&mut live, tried);
        turned.piece = piece;
        turned
    }

    // Cuts the record if that is due, and returns whether a count would pass its last value. If memory is refused, the next turn tries again.
    fn cut(&self, live: &mut Live) -> (Option<Piece>, bool) {
        let Some(cutting) = self.cutting else {
            return (None, false);
        };
        match cut_at(live, cutting.at) {
            Ok(piece) => (piece, false),
            Err(NotMade::OutOfMemory) => (None, false),
            Err(NotMade::Refused(_)) => (None, true),
        }
    }

    // Why a worker ends that finds the record full: a worker that cuts doesn't, unless no cut is possible.
    fn end_if(&self, is_past: bool) -> Option<WorkerEnd> {
        if self.cutting.is_none() || is_past {
            return Some(WorkerEnd::RecordFull);
        }
        None
    }

    // A turn of a segment whose record has room.
    fn turn(&self, live: &mut Live, tried: u64) -> Turned {
        let ticks = self.keep_time(live);
        let now = live.segment().now();
        let (done, tried) = self.turn_of(live, tried);
        let end = if done.ended { self.end_if(false) } else { None };
        Turned {
            calls: done.calls.saturating_add(ticks),
            ticks,
            tried,
            waits: done.calls == 0 || live.segment().now() != now,
            end,
            piece: None,
        }
    }

    // Brings the segment's clock to the one that it follows; returns how many calls that takes.
    fn keep_time(&self, live: &mut Live) -> u64 {
        let Some(clock) = self.clock else {
            return 0;
        };
        match clock.now().saturating_sub(live.segment().now()) {
            0 => 0,
            behind => tick(live, behind),
        }
    }

    fn turn_of(&self, live: &mut Live, tried: u64) -> (Turn, u64) {
        let is_timed = self.clock.is_some();
        match self.whose {
            Whose::Station(station) => relieved_turn(live, station, tried, is_timed),
            Whose::Bus => (self.turn_of_bus(live, is_timed), tried),
        }
    }

    // A clock that follows another doesn't advance by itself.
    fn turn_of_bus(&self, live: &mut Live, is_timed: bool) -> Turn {
        if is_timed && live.lowest().is_none() {
            return Turn {
                calls: 0,
                ended: false,
            };
        }
        live.bus_turn()
    }
}
