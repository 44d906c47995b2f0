//! The seats of all clients, and which stations have none with a submission that is seen.
//!
//! Nobody looks at the clients of a station that is marked as quiet until one of them rings its bell.
use crate::cutting::cut_seats as cut_each;
use crate::home::Home;
use crate::offer::{
    Front, has_nothing as find_nothing, keep_notes as keep_more, look as look_at,
    store as store_front,
};
use crate::settle::settle_event as settle_one;
use live_record::{Calls, Owed};
use message_events::Event;
use pgn_ids::Address;
use segment_rings::{Bell, Seat};
use std::alloc::{AllocError, Global};
use std::collections::VecDeque;
use std::marker::Model;

/// How many values an address has.
const ADDRESSES: usize = 256;

/// The seats by the numbers of their clients, what is known of the clients of each address, and the numbers of those that have news,
/// each of which is named once.
#[derive(Drop)]
pub struct Seats {
    seats: Vec<Seat>,
    homes: Vec<Home>,
    news: VecDeque<usize>,
}

impl Model for Seats {
    ghost use Rattle.std.specs.Prelude.{◌-◌, min, vec_len, vec_capacity};
    ghost use Rattle.std.specs.VecDeque.{deque_capacity};
    ghost use Rattle.segment_rings.specs.Views.{has_noted_news};
    ghost use Rattle.live_ends.specs.Homes.{SeatsView, AreQuiet};
    ghost use Rattle.live_ends.specs.Waiting.{Waits};

    ghost Value = { SeatsView };

    ghost view = { λ s. record { items = s.seats.items; spare = min (vec_capacity s.seats) (deque_capacity s.news) - vec_len s.seats } };

    ghost invariant = { λ s. AreQuiet s.homes.items s.seats.items × Waits has_noted_news s.seats.items s.news.items (deque_capacity s.news) };
}

ghost use Rattle.std.specs.Prelude.{◌≡◌, List, true, false, IsTrue, IsFalse, slice_index_or};
ghost use Rattle.segment_rings.specs.Views.{SeatView};
ghost use Rattle.live_ends.specs.Homes.{AreSilent, AreQuiet};

// Whether nothing of the clients of an address is seen.
fn are_silent(seats: &[Seat], station: Address) -> bool
    ensures { IsTrue result → AreSilent station.0 seats.now }
{
    for seat in seats {
        if seat.station().0 == station.0 && seat.sees() {
            return false;
        }
    }
    true
}

// Marks a station as quiet or not.
fn mark(homes: &mut Vec<Home>, station: Address, quiet: bool)
    ensures kept { (ss : List SeatView) → AreQuiet homes.old.items ss → (quiet ≡ true → AreSilent station.0 ss) → AreQuiet homes.new.items ss }
    ensures off { quiet ≡ false → slice_index_or homes.new.items station.0 false ≡ false }
{
    if let Some(home) = homes.get_mut(station.0 as usize) {
        home.mark(quiet);
    }
}

// Whether a submission of a station's client may wait: it isn't marked as quiet, or its bell was rung.
#[inline(always)]
fn listen(homes: &mut Vec<Home>, station: Address) -> bool
    ensures kept { (ss : List SeatView) → AreQuiet homes.old.items ss → AreQuiet homes.new.items ss }
    ensures silent { IsFalse result → (ss : List SeatView) → AreQuiet homes.old.items ss → AreSilent station.0 ss }
{
    let Some(home) = homes.get_mut(station.0 as usize) else {
        return true;
    };
    home.listen()
}

impl Seats {
    ghost use Rattle.std.specs.Prelude.{◌≡◌, ◌<◌, ◌≤◌, ◌+◌, ◌-◌, ◌^◌, ℕ, [], ◌∷◌, ◌++◌, length, true, false, Option, Some, None, MatchOption, IfOk, OnOk, IsTrue, IsFalse, slice_index_or, slice_set, vec_len, vec_capacity};
    ghost use Rattle.segment_rings.specs.Views.{SeatView, closed_seat, has_noted_news, named_seat, with_spare};
    ghost use Rattle.segment_rings.specs.declared.words.Submission.{Submission};
    ghost use Rattle.live_record.specs.Record.{settle_notes, settle_owed, notes_at, owed_after};
    ghost use Rattle.live_record.specs.declared.calls.TheConstants.{MOST_CALLS};
    ghost use Rattle.live_record.specs.Past.{count_since};
    ghost use Rattle.live_ends.specs.Ends.{IdsFrom, HaveRoom, OwedWithin, SameSeats, CutSeats, note_all};
    ghost use Rattle.live_ends.specs.Offers.{IsFrontIn, IsStored};
    ghost use Rattle.live_ends.specs.declared.offer.Front.TheVariants as front;
    ghost use Rattle.live_ends.specs.Homes.{AreSilent};
    ghost use Rattle.message_events.specs.declared.event.Event.{Event as EventValue};

    /// No seats.
    pub fn new(alloc: Global) -> Result<Seats, AllocError>
        ensures { IfOk result (λ s. s.items ≡ []) }
    {
        let mut homes = Vec::with_capacity(alloc, ADDRESSES)?;
        for _ in 0..ADDRESSES {
            homes.push(Home::new())?;
        }
        Ok(Seats {
            seats: Vec::new(alloc),
            homes,
            news: VecDeque::new(alloc),
        })
    }

    /// How many there are.
    pub fn len(&self) -> usize
        ensures { result ≡ length self.now.items }
    {
        self.seats.len()
    }

    /// All of them.
    pub fn as_slice(&self) -> &[Seat]
        ensures { result.now ≡ self.now.items }
    {
        self.seats.as_slice()
    }

    /// The seat of a client.
    pub fn get(&self, k: usize) -> &Seat
        requires { k < length self.now.items }
        ensures { (s : SeatView) → result.now ≡ slice_index_or self.now.items k s }
    {
        &self.seats[k]
    }

    /// Makes room for one more, and for its news.
    pub fn reserve(&mut self) -> Result<(), AllocError>
        ensures items { self.new.items ≡ self.old.items }
        ensures ok { OnOk result (0 < self.new.spare) }
    {
        let wanted = (self.seats.len() + 1).saturating_sub(self.news.len());
        self.news.reserve(wanted)?;
        self.seats.reserve(1)
    }

    /// Puts one more, of which nothing is seen, and which has no news. There is room for it.
    pub fn push_reserved(&mut self, seat: Seat)
        requires spare { 0 < self.old.spare }
        requires silent { seat.ahead ≡ [] }
        requires none { has_noted_news seat ≡ false }
        ensures items { self.new.items ≡ self.old.items ++ seat ∷ [] }
    {
        self.seats.push_reserved(seat);
    }

    /// The bell of a station's clients.
    pub fn bell(&mut self, alloc: Global, station: Address) -> Result<Bell, AllocError>
        ensures { self.new ≡ self.old }
    {
        let Some(home) = self.homes.get_mut(station.0 as usize) else {
            return Bell::new(alloc);
        };
        home.bell(alloc)
    }

    /// Whether a submission of a station's client may wait: if not, none is seen.
    #[inline(always)]
    pub fn is_called(&mut self, station: Address) -> bool
        ensures same { self.new ≡ self.old }
        ensures silent { IsFalse result → AreSilent station.0 self.old.items }
    {
        listen(&mut self.homes, station)
    }

    /// Marks a station as quiet if no submission of its clients is seen.
    pub fn hush(&mut self, station: Address)
        ensures { self.new ≡ self.old }
    {
        let quiet = are_silent(self.seats.as_slice(), station);
        mark(&mut self.homes, station, quiet);
    }

    /// Whether a client has nothing to accept, as in most turns.
    pub fn has_nothing(&mut self, k: usize) -> bool
        requires { k < length self.old.items }
        ensures same { SameSeats self.old.items self.new.items }
        ensures nothing { IsTrue result → (owed stored : ℕ) → IsFrontIn self.new.items k owed stored front.Empty }
        ensures count { length self.new.items ≡ length self.old.items }
    {
        let station = self.seats[k].station();
        mark(&mut self.homes, station, false);
        find_nothing(&mut self.seats, k)
    }

    /// Looks at the front submission of a client that is owed so many notes, while so many calls are stored.
    pub fn look(&mut self, k: usize, owed: usize, stored: usize) -> Front
        requires { k < length self.old.items }
        ensures same { SameSeats self.old.items self.new.items }
        ensures front { IsFrontIn self.new.items k owed stored result }
        ensures count { length self.new.items ≡ length self.old.items }
        ensures few { result ≡ front.Waits → owed + 1 < 2 ^ 64 }
    {
        let station = self.seats[k].station();
        mark(&mut self.homes, station, false);
        look_at(&mut self.seats, k, owed, stored)
    }

    /// Makes room to keep so many notes more of a client.
    pub fn keep_notes(&mut self, k: usize, count: usize) -> Result<(), AllocError>
        requires { k < length self.old.items }
        ensures same { SameSeats self.old.items self.new.items }
        ensures kept { (s : SeatView) → slice_index_or self.new.items k s ≡ with_spare (slice_index_or self.old.items k s) (slice_index_or self.new.items k s).spare }
        ensures ok { OnOk result ((s : SeatView) → count ≤ (slice_index_or self.new.items k s).spare) }
        ensures count { length self.new.items ≡ length self.old.items }
    {
        let station = self.seats[k].station();
        mark(&mut self.homes, station, false);
        keep_more(&mut self.seats, k, count)
    }

    /// Takes the front submission of a client and stores its Send, for which there is space.
    pub fn store(&mut self, calls: &mut Calls, owed: &mut Vec<Owed>, k: usize, number: u64)
        requires within { k < length self.old.items }
        requires waits { (s : SeatView) → 0 < length (slice_index_or self.old.items k s).ahead }
        requires few { (s : SeatView) → length (slice_index_or self.old.items k s).popped + 1 < 2 ^ 64 }
        requires calls { 0 < calls.old.spare }
        requires stored { count_since calls.old.pieces calls.old.items < MOST_CALLS }
        requires owed { vec_len owed.old < vec_capacity owed.old }
        ensures stored { (s : SeatView) → (x : Submission) × IsStored (slice_index_or self.old.items k s) k number x calls.old.items calls.new.items owed.old.items owed.new.items self.old.items self.new.items }
        ensures pieces { calls.new.pieces ≡ calls.old.pieces }
    {
        let station = self.seats[k].station();
        mark(&mut self.homes, station, false);
        store_front(calls, owed, &mut self.seats, k, number);
    }

    /// Makes the note of one event, if it is an outcome.
    pub fn settle_event(&mut self, owed: &mut Vec<Owed>, event: &Event)
        requires ids { IdsFrom 0 self.old.items }
        requires room { HaveRoom owed.old.items self.old.items }
        requires within { OwedWithin (length self.old.items) owed.old.items }
        ensures owed { owed.new.items ≡ owed_after owed.old.items event.now }
        ensures seats { self.new.items ≡ note_all (notes_at owed.old.items event.now) self.old.items }
    {
        if let Some(k) = settle_one(owed, &mut self.seats, event) {
            self.news.push_back_reserved(k);
        }
    }

    /// Makes the notes of all outcomes among the events.
    pub fn settle(&mut self, owed: &mut Vec<Owed>, events: &[Event])
        requires ids { IdsFrom 0 self.old.items }
        requires room { HaveRoom owed.old.items self.old.items }
        requires within { OwedWithin (length self.old.items) owed.old.items }
        ensures owed { owed.new.items ≡ settle_owed owed.old.items events.now }
        ensures seats { self.new.items ≡ note_all (settle_notes owed.old.items events.now) self.old.items }
        ensures ids { IdsFrom 0 self.new.items }
        ensures room { HaveRoom owed.new.items self.new.items }
        ensures within { OwedWithin (length self.new.items) owed.new.items }
        ensures count { length self.new.items ≡ length self.old.items }
    {
        for event in events {
            self.settle_event(owed, event);
        }
    }

    /// Each client's notes that are known to be read are kept no more.
    pub fn cut_seats(&mut self)
        ensures { CutSeats self.old.items self.new.items }
    {
        cut_each(&mut self.seats);
    }

    /// Takes no more submissions of a client, and puts no more notes into its ring.
    pub fn close(&mut self, k: usize)
        requires { k < length self.old.items }
        ensures { (s : SeatView) → self.new.items ≡ slice_set self.old.items k (closed_seat (slice_index_or self.old.items k s)) }
    {
        let seat = &mut self.seats[k];
        seat.close();
    }

    /// A client that has news, and has none then; none exactly if no client has news.
    pub fn name(&mut self) -> Option<usize>
        ensures { MatchOption result ((self.new ≡ self.old) × ((k : ℕ) (s : SeatView) → k < length self.old.items → has_noted_news (slice_index_or self.old.items k s) ≡ false)) (λ k. (k < length self.old.items) × ((s : SeatView) → (has_noted_news (slice_index_or self.old.items k s) ≡ true) × (self.new.items ≡ slice_set self.old.items k (named_seat (slice_index_or self.old.items k s))))) }
    {
        let Some(k) = self.news.pop_front() else {
            return None;
        };
        let seat = &mut self.seats[k];
        seat.name();
        Some(k)
    }
}
