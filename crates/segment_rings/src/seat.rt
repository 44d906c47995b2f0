//! What a segment keeps of one client: the far ends of its two rings, and the notes made for it.
use crate::bell::Bell;
use crate::client::Client;
use crate::kept::Kept;
use crate::mark::Mark;
use crate::words::{Note, RING_PLACES, Submission};
use pgn_ids::Address;
use rtrb::{Consumer, Producer, RingBuffer};
use std::alloc::{AllocError, Global};
use std::marker::Model;

/// Whether the front submission can be accepted now.
#[derive(Clone, Copy, Debug, PartialEq, Eq)]
pub enum Offer {
    /// No submission waits, or none is taken any more.
    Empty,
    /// Each place for a note that is known to be free is owed already.
    Owed,
    /// A submission waits, and its note has a place.
    Ready,
}

/// The segment's side of a client.
pub struct Seat {
    id: u64,
    station: Address,
    active: bool,
    submissions: Consumer<Submission>,
    notes: Producer<Note>,
    kept: Kept<Note>,
    noted: u64,
    named: u64,
    taken: u64,
    taken_mark: Mark,
    notes_mark: Mark,
}

impl Model for Seat {
    ghost use Rattle.std.specs.Prelude.{◌≡◌, ◌≤◌, ◌+◌, length, true};
    ghost use Rattle.rtrb.specs.Ring.{sent, received, known_free, known_items};
    ghost use Rattle.segment_rings.specs.Views.{SeatView};
    ghost use Rattle.segment_rings.specs.Tails.{IsTailOf};
    ghost use Rattle.segment_rings.specs.Ends.{ring_places};

    ghost Value = { SeatView };

    ghost view = { λ s. record { id = s.id; station = s.station; active = s.active; popped = received s.submissions; ahead = known_items s.submissions; gone = s.kept.gone; kept = s.kept.items; noted = sent s.notes; named = s.named; free = known_free s.notes; spare = s.kept.spare } };

    ghost invariant = { λ s. (s.taken ≡ length (received s.submissions)) × (s.kept.gone ≤ length (sent s.notes)) × (s.kept.gone + ring_places ≤ length (sent s.notes) + known_free s.notes) × (s.active ≡ true → IsTailOf s.kept (sent s.notes)) × (s.noted ≡ length (sent s.notes)) × (s.named ≤ s.noted) };
}

impl Drop for Seat {
    fn drop(self) {
        let Seat {
            id: _,
            station: _,
            active: _,
            submissions: _,
            notes: _,
            kept: _,
            noted: _,
            named: _,
            taken: _,
            taken_mark: _,
            notes_mark: _,
        } = self;
    }
}

impl Seat {
    ghost use Rattle.std.specs.Prelude.{◌≡◌, ◌≤◌, ◌<◌, ◌+◌, ◌-◌, ◌^◌, ◌↔◌, [], ◌∷◌, length, true, false, IfOk, OnOk, IsTrue, IsFalse};
    ghost use mathlib.Core.List.{IsPrefix};
    ghost use Rattle.segment_rings.specs.Views.{SeatView, new_seat, looked, looked_for_room, with_spare, popped_one, with_note, closed_seat, has_noted_news, named_seat, SameSeat, CutSeat, IsOffer};
    ghost use Rattle.segment_rings.specs.Ends.{new_client_end, ring_places};
    ghost use Rattle.segment_rings.specs.declared.seat.Offer.TheVariants as offer;

    /// A client of a station, and the seat that it has in the segment. The client rings this bell whenever it has submitted.
    pub fn new(
        alloc: Global,
        id: u64,
        station: Address,
        bell: Bell,
    ) -> Result<(Seat, Client), AllocError>
        ensures seat { IfOk result (λ r. r.0 ≡ new_seat id station r.0.free r.0.spare) }
        ensures client { IfOk result (λ r. r.1 ≡ new_client_end id station) }
    {
        let (producer, submissions) = RingBuffer::new(alloc, RING_PLACES)?;
        let (notes, consumer) = RingBuffer::new(alloc, RING_PLACES)?;
        let (taken_mark, submitted_mark) = Mark::pair(alloc)?;
        let (notes_mark, read_mark) = Mark::pair(alloc)?;
        let seat = Seat {
            id,
            station,
            active: true,
            submissions,
            notes,
            kept: Kept::new(alloc),
            noted: 0,
            named: 0,
            taken: 0,
            taken_mark,
            notes_mark,
        };
        let client = Client::new(
            alloc,
            id,
            station,
            (producer, submitted_mark),
            (consumer, read_mark),
            bell,
        );
        Ok((seat, client))
    }

    /// The client's number in its segment.
    pub fn id(&self) -> u64
        ensures { result ≡ self.now.id }
    {
        self.id
    }

    /// The station that the client sends from.
    pub fn station(&self) -> Address
        ensures { result ≡ self.now.station }
    {
        self.station
    }

    /// Whether submissions are still taken.
    pub fn is_active(&self) -> bool
        ensures { result ≡ self.now.active }
    {
        self.active
    }

    /// How many submissions were taken.
    pub fn taken(&self) -> u64
        ensures { result ≡ length self.now.popped }
    {
        self.taken
    }

    // Looks whether a submission waits.
    fn look(&mut self) -> bool
        ensures same { self.new ≡ looked self.old self.new.ahead }
        ensures value { IsTrue result ↔ (0 < length self.new.ahead) }
    {
        !self.submissions.is_empty()
    }

    /// Whether submissions are taken, and one is known to wait. It doesn't look at the ring.
    pub fn sees(&self) -> bool
        ensures { IsTrue result ↔ ((self.now.active ≡ true) × (0 < length self.now.ahead)) }
    {
        self.active && self.submissions.cached_slots() > 0
    }

    /// The submission in front.
    pub fn front(&self) -> &Submission
        requires { 0 < length self.now.ahead }
        ensures { IsPrefix (result.now ∷ []) self.now.ahead }
    {
        self.submissions.peek_known()
    }

    /// Takes the submission in front.
    pub fn take(&mut self) -> Submission
        requires waits { 0 < length self.old.ahead }
        requires room { length self.old.popped + 1 < 2 ^ 64 }
        ensures front { self.old.ahead ≡ result ∷ self.new.ahead }
        ensures same { self.new ≡ popped_one self.old result self.new.ahead }
    {
        self.taken += 1;
        self.submissions.pop_known()
    }

    // How many places for notes are known to be free.
    fn room(&mut self) -> usize
        ensures same { self.new ≡ looked_for_room self.old result }
        ensures more { self.old.free ≤ result }
    {
        self.notes.slots()
    }

    /// Makes room to keep this many notes more.
    pub fn reserve(&mut self, count: usize) -> Result<(), AllocError>
        ensures same { self.new ≡ with_spare self.old self.new.spare }
        ensures more { self.old.spare ≤ self.new.spare }
        ensures ok { OnOk result (count ≤ self.new.spare) }
    {
        self.kept.reserve(count)
    }

    /// Makes a note. There is room for it. It goes into the client's ring while submissions are taken, and is kept. It tells whether
    /// the client has news by that, and had none before.
    pub fn note(&mut self, note: Note) -> bool
        requires free { 0 < self.old.free }
        requires spare { 0 < self.old.spare }
        ensures noted { self.new ≡ with_note self.old note }
        ensures first { IsTrue result → (has_noted_news self.old ≡ false) × (has_noted_news self.new ≡ true) }
        ensures again { IsFalse result → has_noted_news self.new ≡ has_noted_news self.old }
    {
        let is_first = self.active && self.named == self.noted;
        self.kept.push_reserved(note);
        if self.active {
            self.notes.push_reserved(note);
            self.noted = self.kept.count();
        }
        is_first
    }

    /// Its client is named among those that have news: it has none until there is one more note for it.
    pub fn name(&mut self)
        ensures { self.new ≡ named_seat self.old }
    {
        self.named = self.noted;
    }

    /// Takes no more submissions, and puts no more notes into the client's ring.
    pub fn close(&mut self)
        ensures { self.new ≡ closed_seat self.old }
    {
        self.active = false;
    }

    /// The notes made so far, without those that are kept no more.
    pub fn notes(&self) -> &[Note]
        ensures { result.now ≡ self.now.kept }
    {
        self.kept.as_slice()
    }

    /// How many of the first notes are kept no more.
    pub fn notes_gone(&self) -> u64
        ensures value { result ≡ self.now.gone }
        ensures within { result ≤ length self.now.noted }
    {
        self.kept.gone()
    }

    /// Drops the notes that its client is known to have read, and lets the client know what it needn't keep any more: these
    /// notes, and all submissions that were taken. It takes no memory and never waits.
    pub fn cut(&mut self)
        ensures { CutSeat self.old self.new }
    {
        self.taken_mark.raise(self.taken);
        if !self.active {
            return;
        }
        let read = self.count_read();
        self.kept.let_go(read);
        self.notes_mark.raise(self.kept.gone());
    }

    // How many notes are known to be out of the ring, while all go into it.
    fn count_read(&mut self) -> u64
        requires { self.old.active ≡ true }
        ensures same { self.new ≡ looked_for_room self.old self.new.free }
        ensures more { self.old.free ≤ self.new.free }
        ensures value { result ≡ length self.new.noted - (ring_places - self.new.free) }
        ensures none_again { self.new.gone ≤ result }
        ensures within { result ≤ length self.new.noted }
    {
        let unread = RING_PLACES.saturating_sub(self.notes.slots());
        self.kept.count().saturating_sub(unread as u64)
    }

    /// Looks whether a submission waits and its note has a place beside those that are owed.
    pub fn offer(&mut self, owed: usize) -> Offer
        ensures same { SameSeat self.old self.new }
        ensures offer { IsOffer self.new owed result }
        ensures few { result ≡ offer.Ready → owed + 1 < 2 ^ 64 }
    {
        if !self.active {
            return Offer::Empty;
        }
        if !self.look() {
            return Offer::Empty;
        }
        if self.room() <= owed {
            return Offer::Owed;
        }
        Offer::Ready
    }
}
