//! The log of a bus.
ghost use Rattle.std.specs.Prelude.{◌≡◌, ℕ, true, replicate, ◌+◌, ◌<◌, ◌≤◌, ◌↔◌, length, drop, IfOk, OnOk, OnErr, OnSome, IfNone, IsErrOf, IsSome, IsTrue, slice_set};
ghost use Rattle.std.specs.Bool.{OnTrue, OnFalse};
ghost use Rattle.std.specs.Option.{option_copied};
ghost use Rattle.std.specs.VecDeque.{deque_capacity};
ghost use Rattle.bus_order.specs.Bus.{new_bus, bus_len, lowest, cursor_at, frame_at, next_frame, frame_again, waiting, is_full, put, taken, passed, released};
ghost use Rattle.bus_order.specs.Kept.{HoldsAhead, IsSound};
ghost use Rattle.bus_order.specs.Abreast.{are_abreast, are_level, passed_first};

use crate::cursor::{Cursor, Rear, bring_all, move_cursor};
use bus_frame::Frame;
use std::alloc::{AllocError, Global};
use std::collections::VecDeque;
use std::marker::Model;
use thiserror::Error;

/// How many frames are kept at most.
pub const MAX_KEPT: usize = 4096;

// Frames that there is room for from the start: while only the newest is kept, as it may be repeated, one more needs no memory.
const ROOM: usize = 2;

/// Why a frame isn't put.
#[derive(Clone, Copy, Debug, PartialEq, Eq, Error)]
pub enum PutError {
    /// 4,096 frames are kept, or the next place would pass `u64`.
    #[error("the bus is full")]
    BusFull,
    /// There was no memory for one more frame.
    #[error("out of memory")]
    OutOfMemory,
}

/// The frames put on a bus, with a cursor for each station. Places count from 1. A station's cursor is the place of the
/// frame that it took or passed over last, at first 0. Frames are dropped by `release` alone.
#[derive(Debug)]
pub struct BusLog {
    pub(crate) first: u64,
    pub(crate) kept: VecDeque<Frame>,
    pub(crate) cursors: Vec<Cursor>,
    rear: Rear,
}

impl Model for BusLog {
    ghost use Rattle.bus_order.specs.Bus.{Bus};

    ghost Value = { Bus };

    ghost use Rattle.bus_order.specs.LogFields.{log_value, IsSoundLog};

    ghost view = { log_value };

    ghost invariant = { IsSoundLog };
}

impl Drop for BusLog {
    fn drop(self) {
        let BusLog {
            first: _,
            kept: _,
            cursors: _,
            rear: _,
        } = self;
    }
}

impl BusLog {
    /// An empty bus with this many stations, whose cursors are the numbers below it. With no station, no frame is ever dropped.
    /// It makes room for two frames.
    #[tactic(auto, using(crate::proofs::Steps::sound_new, crate::proofs::Steps::sound_holds))]
    pub fn new(alloc: Global, stations: usize) -> Result<BusLog, AllocError>
        ensures new { IfOk result (λ log. log ≡ new_bus stations) }
        ensures holds { IfOk result HoldsAhead }
    {
        Ok(BusLog {
            first: 1,
            kept: VecDeque::with_capacity(alloc, ROOM)?,
            cursors: vec![in alloc; Cursor::START; stations]?,
            rear: Rear {
                place: 0,
                count: stations,
            },
        })
    }

    /// How many stations there are.
    pub fn stations(&self) -> usize
        ensures { result ≡ length self.now.cursors }
    {
        self.cursors.len()
    }

    /// How many frames were put, which is the place of the newest.
    pub fn len(&self) -> u64
        ensures value { result ≡ bus_len self.now }
        ensures sound { IsSound self.now }
    {
        self.first - 1 + self.kept.len() as u64
    }

    /// Whether no frame was put yet.
    pub fn is_empty(&self) -> bool
        ensures { IsTrue result ↔ (bus_len self.now ≡ 0) }
    {
        self.len() == 0
    }

    /// The frame at a place, if it is kept.
    pub fn frame(&self, place: u64) -> Option<Frame>
        ensures { result ≡ frame_at self.now place }
    {
        if place < self.first {
            return None;
        }
        self.kept.get((place - self.first) as usize).copied()
    }

    /// How many frames a station has neither taken nor passed over.
    pub fn waiting(&self, cursor: usize) -> u64
        requires { cursor < length self.now.cursors }
        ensures { result ≡ waiting self.now cursor }
    {
        self.len() - self.at(cursor).place
    }

    /// The frame that a station took last. None exactly if it has taken none, or none since it passed over frames.
    #[tactic(auto, using(crate::proofs::Steps::read_repeats))]
    pub fn again(&self, cursor: usize) -> Option<Frame>
        requires { cursor < length self.now.cursors }
        ensures frame { result ≡ frame_again self.now cursor }
        ensures repeats { IsSome result ↔ IsTrue (cursor_at self.now cursor).repeatable }
    {
        let at = self.at(cursor);
        if !at.is_repeatable() {
            return None;
        }
        self.frame(at.place)
    }

    // How far a station is, and what holds of the log.
    #[inline]
    fn at(&self, cursor: usize) -> Cursor
        requires { cursor < length self.now.cursors }
        ensures value { result ≡ cursor_at self.now cursor }
        ensures sound { IsSound self.now }
    {
        self.cursors[cursor]
    }

    // The frame behind a place, by reference.
    #[inline]
    fn frame_behind(&self, place: u64) -> Option<&Frame>
        requires held { self.now.first ≤ place + 1 }
        ensures frame { option_copied result ≡ frame_at self.now (place + 1) }
        ensures put { IsSome result ↔ (place < bus_len self.now) }
    {
        self.kept.get((place - (self.first - 1)) as usize)
    }

    // Moves a cursor on, at most to the newest frame.
    #[inline]
    fn move_to(&mut self, cursor: usize, to: Cursor)
        requires cursor { cursor < length self.old.cursors }
        requires on { (cursor_at self.old cursor).place ≤ to.place }
        requires within { to.place ≤ bus_len self.old }
        requires repeats { IsTrue to.repeatable → 0 < to.place }
        ensures moved { self.new ≡ record self.old { cursors = slice_set self.old.cursors cursor to } }
        ensures holds { HoldsAhead self.new }
    {
        self.rear = move_cursor(&mut self.cursors, self.rear, cursor, to);
    }

    /// Puts a frame on the bus, at the place behind the newest. `BusFull` exactly if 4,096 frames are kept or that place would
    /// pass `u64`. An error changes nothing. It asks for memory only if two frames or more are kept.
    #[inline]
    #[tactic(auto, using(crate::proofs::Steps::sound_put, crate::proofs::Steps::sound_holds))]
    pub fn put(&mut self, frame: Frame) -> Result<(), PutError>
        ensures ok { OnOk result (self.new ≡ put self.old frame) }
        ensures full { IsErrOf result PutError.BusFull ↔ IsTrue (is_full self.old) }
        ensures memory { IsErrOf result PutError.OutOfMemory → 1 < length self.old.kept }
        ensures err { OnErr result (self.new ≡ self.old) }
        ensures holds { HoldsAhead self.new }
    {
        if self.kept.len() >= MAX_KEPT {
            return Err(PutError::BusFull);
        }
        if self.len() == u64::MAX {
            return Err(PutError::BusFull);
        }
        if self.kept.len() == self.kept.capacity() {
            match grow(&mut self.kept) {
                Ok(()) => {}
                Err(_) => return Err(PutError::OutOfMemory),
            }
        }
        self.kept.push_back_reserved(frame);
        Ok(())
    }

    /// A station takes the frame behind its cursor, which moves on by one. None exactly if no frame waits for it; then nothing
    /// changes.
    #[tactic(auto, using(crate::proofs::Steps::read_within, crate::proofs::Steps::read_held, crate::proofs::Steps::sound_holds))]
    pub fn next(&mut self, cursor: usize) -> Option<Frame>
        requires { cursor < length self.old.cursors }
        ensures frame { result ≡ next_frame self.old cursor }
        ensures waits { IsSome result ↔ (0 < waiting self.old cursor) }
        ensures some { OnSome result (self.new ≡ taken self.old cursor) }
        ensures none { IfNone result (self.new ≡ self.old) }
        ensures holds { HoldsAhead self.new }
    {
        let at = self.at(cursor);
        let frame = *self.frame_behind(at.place)?;
        let to = Cursor::taken(at.place + 1);
        self.move_to(cursor, to);
        Some(frame)
    }

    /// The frame behind a station's cursor, by reference. None exactly if no frame waits for it.
    #[inline]
    #[tactic(auto, using(crate::proofs::Steps::read_within, crate::proofs::Steps::read_held))]
    pub fn peek(&self, cursor: usize) -> Option<&Frame>
        requires { cursor < length self.now.cursors }
        ensures frame { option_copied result ≡ next_frame self.now cursor }
        ensures waits { IsSome result ↔ (0 < waiting self.now cursor) }
    {
        self.frame_behind(self.at(cursor).place)
    }

    /// A station takes the frame behind its cursor, which waits for it, as `next` and `release` one after the other.
    #[inline]
    #[tactic(auto, using(crate::proofs::Steps::read_within, crate::proofs::Steps::sound_holds))]
    pub fn pass(&mut self, cursor: usize)
        requires cursor { cursor < length self.old.cursors }
        requires waits { 0 < waiting self.old cursor }
        ensures passed { self.new ≡ released (taken self.old cursor) }
        ensures holds { HoldsAhead self.new }
    {
        let at = self.at(cursor);
        let to = Cursor::taken(at.place + 1);
        self.move_to(cursor, to);
        self.release();
    }

    /// Whether the stations are abreast: just the newest frame waits for each.
    #[inline]
    #[tactic(auto, using(crate::proofs::Abreast::one_waits))]
    pub fn are_abreast(&self) -> bool
        ensures value { result ≡ are_abreast self.now }
        ensures each { OnTrue result ((i : ℕ) → i < length self.now.cursors → waiting self.now i ≡ 1) }
        ensures sound { IsSound self.now }
    {
        let newest = self.len();
        if self.rear.place >= newest {
            return false;
        }
        newest - self.rear.place == 1 && self.rear.count == self.stations()
    }

    /// The first n of the stations, which are abreast, take the newest frame, each as by `pass`.
    #[inline]
    pub fn pass_first(&mut self, n: usize)
        requires n { n ≤ length self.old.cursors }
        requires abreast { are_abreast self.old ≡ true }
        ensures passed { self.new ≡ passed_first n self.old }
        ensures holds { HoldsAhead self.new }
    {
        if n == self.stations() {
            return self.pass_all();
        }
        let _sound = self.len();
        for cursor in 0..n {
            self.pass(cursor);
        }
    }

    /// Whether the stations are level: all have taken or passed over the newest frame, which alone is kept, and one more can be
    /// put without memory.
    #[inline]
    pub fn are_level(&self) -> bool
        ensures value { result ≡ are_level self.now }
        ensures sound { IsSound self.now }
    {
        self.kept.len() == 1
            && self.rear.place == self.first
            && self.rear.count == self.stations()
            && self.first < u64::MAX
    }

    /// A frame is put, and the first n of the stations, which are level, take it, as by `put` and `pass_first` one after the
    /// other. It takes no memory.
    #[inline]
    pub fn put_passed(&mut self, frame: Frame, n: usize)
        requires n { n ≤ length self.old.cursors }
        requires level { are_level self.old ≡ true }
        ensures passed { self.new ≡ passed_first n (put self.old frame) }
        ensures holds { HoldsAhead self.new }
    {
        if n == self.stations() {
            return self.replace(frame);
        }
        self.put_level(frame, n)
    }

    // All of them take it: it takes the place of the newest frame, which nobody needs any more.
    #[inline]
    fn replace(&mut self, frame: Frame)
        requires level { are_level self.old ≡ true }
        ensures passed { self.new ≡ passed_first (length self.old.cursors) (put self.old frame) }
        ensures holds { HoldsAhead self.new }
    {
        let to = Cursor::taken(self.first + 1);
        let count = self.stations();
        self.kept[0] = frame;
        self.first = to.place;
        bring_all(&mut self.cursors, to);
        self.rear = Rear {
            place: to.place,
            count,
        };
    }

    // Some of them take it.
    #[inline(never)]
    fn put_level(&mut self, frame: Frame, n: usize)
        requires n { n ≤ length self.old.cursors }
        requires level { are_level self.old ≡ true }
        ensures passed { self.new ≡ passed_first n (put self.old frame) }
        ensures holds { HoldsAhead self.new }
    {
        self.kept.push_back_reserved(frame);
        self.pass_first(n)
    }

    // All of them do. They stay abreast, so none of them is looked at.
    fn pass_all(&mut self)
        requires abreast { are_abreast self.old ≡ true }
        ensures passed { self.new ≡ passed_first (length self.old.cursors) self.old }
        ensures holds { HoldsAhead self.new }
    {
        if self.stations() == 0 {
            return;
        }
        let to = Cursor::taken(self.at(0).place + 1);
        self.bring_to(to);
        self.release()
    }

    // Moves all cursors, at least one, to one place, at most that of the newest frame.
    #[inline]
    fn bring_to(&mut self, to: Cursor)
        requires some { 0 < length self.old.cursors }
        requires on { lowest self.old.cursors ≤ to.place }
        requires within { to.place ≤ bus_len self.old }
        requires repeats { IsTrue to.repeatable → 0 < to.place }
        ensures moved { self.new ≡ record self.old { cursors = replicate (length self.old.cursors) to } }
        ensures holds { HoldsAhead self.new }
    {
        let count = self.stations();
        bring_all(&mut self.cursors, to);
        self.rear = Rear {
            place: to.place,
            count,
        };
    }

    /// A station passes over the next n frames, which may be 0. False exactly if fewer wait for it; then nothing changes.
    /// Otherwise nothing can be repeated until it has taken a frame.
    #[tactic(auto, using(crate::proofs::Steps::read_within, crate::proofs::Steps::read_held, crate::proofs::Steps::sound_holds))]
    pub fn skip(&mut self, cursor: usize, n: u64) -> bool
        requires { cursor < length self.old.cursors }
        ensures waits { IsTrue result ↔ (n ≤ waiting self.old cursor) }
        ensures passed { OnTrue result (self.new ≡ passed self.old cursor n) }
        ensures fewer { OnFalse result (self.new ≡ self.old) }
        ensures holds { HoldsAhead self.new }
    {
        let at = self.at(cursor);
        if n > self.len() - at.place {
            return false;
        }
        let to = Cursor::passed(at.place + n);
        self.move_to(cursor, to);
        true
    }

    /// Drops the frames that no station can take or repeat: those before the lowest cursor, or none if that cursor is at 0.
    #[inline]
    #[tactic(auto, using(crate::proofs::Steps::sound_released, crate::proofs::Steps::sound_holds))]
    pub fn release(&mut self)
        ensures released { self.new ≡ released self.old }
        ensures holds { HoldsAhead self.new }
    {
        if self.rear.place <= self.first {
            return;
        }
        let dropped = (self.rear.place - self.first) as usize;
        drop_front(&mut self.kept, dropped);
        self.first = self.rear.place;
    }
}

// Makes room for one more frame and the next. It is kept out of `put`, which seldom needs it.
#[inline(never)]
fn grow(kept: &mut VecDeque<Frame>) -> Result<(), AllocError>
    ensures items { kept.new.items ≡ kept.old.items }
    ensures capacity { deque_capacity kept.old ≤ deque_capacity kept.new }
    ensures room { OnOk result (length kept.new.items + ROOM ≤ deque_capacity kept.new) }
{
    kept.reserve(ROOM)
}

// Frame by frame, so that its cost is in proportion to the frames that it drops.
fn drop_front(kept: &mut VecDeque<Frame>, n: usize)
    ensures items { kept.new.items ≡ drop n kept.old.items }
    ensures capacity { deque_capacity kept.new ≡ deque_capacity kept.old }
{
    for _ in 0..n {
        let _dropped = kept.pop_front();
    }
}
