//! A client: what it submitted and the notes that it read, with its ends of the two rings.
use crate::bell::Bell;
use crate::kept::Kept;
use crate::mark::Mark;
use crate::words::{Note, Submission};
use message_events::Bytes;
use pgn_ids::{Address, Pgn};
use rtrb::{Consumer, Producer};
use segment_law::Refusal;
use station_core::message_refusal;
use std::alloc::{AllocError, Global};
use std::marker::Model;
use std::sync::Wait;
use std::thread;

/// A submission that was refused, or, without a refusal, for which there was no memory. The bytes are handed back.
#[derive(Debug, Drop)]
pub struct SubmitRefused {
    pub refusal: Option<Refusal>,
    pub bytes: Bytes,
}

/// Submits messages of one station and reads their outcomes. It may move to a thread of its own; `submit` and `try_outcome` take
/// no lock and never wait. It keeps what it submitted and read until the segment is cut.
pub struct Client {
    alloc: Global,
    id: u64,
    station: Address,
    submissions: Producer<Submission>,
    notes: Consumer<Note>,
    submitted: Kept<Submission>,
    read: Kept<Note>,
    submitted_mark: Mark,
    read_mark: Mark,
    bell: Bell,
}

impl Model for Client {
    ghost use Rattle.rtrb.specs.Ring.{sent, received, known_free};
    ghost use Rattle.segment_rings.specs.Ends.{ClientEnd};
    ghost use Rattle.segment_rings.specs.Tails.{IsTailOf};

    ghost Value = { ClientEnd };

    ghost view = { λ c. record { id = c.id; station = c.station; submitted = sent c.submissions; read = received c.notes; gone = c.submitted.gone; read_gone = c.read.gone; free = known_free c.submissions } };

    ghost invariant = { λ c. IsTailOf c.submitted (sent c.submissions) × IsTailOf c.read (received c.notes) };
}

impl Drop for Client {
    fn drop(self) {
        let Client {
            alloc: _,
            id: _,
            station: _,
            submissions: _,
            notes: _,
            submitted: _,
            read: _,
            submitted_mark: _,
            read_mark: _,
            bell: _,
        } = self;
    }
}

ghost use Rattle.std.specs.Prelude.{◌≡◌, length, None};
ghost use Rattle.segment_rings.specs.Submitting.{submit_refusal as submit_refusal_of};

/// Why a message of so many bytes whose PGN is one isn't submitted, before a ring is looked at: the first cause that holds.
pub fn submit_refusal(from: Address, to: Address, len: usize) -> Option<Refusal>
    ensures { result ≡ submit_refusal_of from to len }
{
    match message_refusal(from, to, len) {
        Some(cause) => Some(Refusal::of(cause)),
        None => None,
    }
}

// The refusal, or want of memory, with the bytes that are handed back.
fn refused(refusal: Option<Refusal>, bytes: Bytes) -> SubmitRefused
    ensures refusal { result.refusal ≡ refusal }
    ensures bytes { result.bytes ≡ bytes }
{
    SubmitRefused { refusal, bytes }
}

impl Client {
    ghost use Rattle.std.specs.Prelude.{◌≡◌, ◌+◌, ◌<◌, [], ◌≤◌, length, drop, IfOk, OnOk, OnErr, IfErr, MatchOption, Option, Some, None, ◌⊎◌};
    ghost use Rattle.rtrb.specs.Ring.{sent, received, known_free};
    ghost use Rattle.segment_law.specs.declared.refusal.Refusal.{Refusal};
    ghost use Rattle.segment_law.specs.declared.refusal.Refusal.TheVariants as refusal;
    ghost use Rattle.segment_rings.specs.Ends.{ClientEnd, new_client_end, ring_places, submits, reads, lets_read_go, SameClient};
    ghost use Rattle.segment_rings.specs.Tails.{GoesOn};
    ghost use Rattle.segment_rings.specs.Submitting.{why_refused};

    pub(crate) fn new(
        alloc: Global,
        id: u64,
        station: Address,
        submissions: (Producer<Submission>, Mark),
        notes: (Consumer<Note>, Mark),
        bell: Bell,
    ) -> Client
        requires submissions { sent submissions.0 ≡ [] }
        requires free { known_free submissions.0 ≡ ring_places }
        requires notes { received notes.0 ≡ [] }
        ensures { result ≡ new_client_end id station }
    {
        Client {
            alloc,
            id,
            station,
            submissions: submissions.0,
            notes: notes.0,
            submitted: Kept::new(alloc),
            read: Kept::new(alloc),
            submitted_mark: submissions.1,
            read_mark: notes.1,
            bell,
        }
    }

    /// Its number, which no other client of the segment has.
    pub fn id(&self) -> u64
        ensures { result ≡ self.now.id }
    {
        self.id
    }

    /// The station that it sends from.
    pub fn station(&self) -> Address
        ensures { result ≡ self.now.station }
    {
        self.station
    }

    /// Submits a message, and returns its ticket: its place among all that the client submitted, from 1.
    ///
    /// It is refused if the PGN is none, then for its destination and its length, and then if the ring has no free place. Want of memory is
    /// an error without a refusal. The bytes are handed back in each case, and nothing has changed. Whatever it returns, it drops the first
    /// submissions that, by a cut of the segment, needn't be kept.
    pub fn submit(&mut self, to: Address, pgn: u32, bytes: Bytes) -> Result<u64, SubmitRefused>
        ensures new { IfOk result (λ n. self.new ≡ submits self.old to pgn bytes self.new.free self.new.gone) }
        ensures gone { GoesOn self.old.gone self.new.gone self.old.submitted }
        ensures ticket { IfOk result (λ n. n ≡ length self.new.submitted) }
        ensures fit { IfOk result (λ n. why_refused self.old.station to pgn (length bytes) ≡ None) }
        ensures refused { (c : Refusal) → why_refused self.old.station to pgn (length bytes) ≡ Some c → IfErr result (λ e. e.refusal ≡ Some c) }
        ensures free { OnOk result (self.old.free ≤ self.new.free + 1) }
        ensures full { why_refused self.old.station to pgn (length bytes) ≡ None → IfErr result (λ e. ((e.refusal ≡ None) × (0 < self.new.free)) ⊎ ((e.refusal ≡ Some refusal.RingFull) × (self.new.free ≡ 0))) }
        ensures back { IfErr result (λ e. e.bytes ≡ bytes) }
        ensures err { OnErr result (SameClient self.old self.new) }
    {
        self.submitted.let_go(self.submitted_mark.look());
        let Ok(pgn) = Pgn::new(pgn) else {
            return Err(refused(Some(Refusal::BadPgn), bytes));
        };
        if let Some(refusal) = submit_refusal(self.station, to, bytes.len()) {
            return Err(refused(Some(refusal), bytes));
        }
        if self.submissions.is_full() {
            return Err(refused(Some(Refusal::RingFull), bytes));
        }
        if self.submitted.reserve(1).is_err() {
            return Err(refused(None, bytes));
        }
        let Ok(copy) = bytes.copy(self.alloc) else {
            return Err(refused(None, bytes));
        };
        self.submissions
            .push_reserved(Submission { to, pgn, bytes });
        self.submitted.push_reserved(Submission {
            to,
            pgn,
            bytes: copy,
        });
        self.bell.ring();
        Ok(self.submitted.count())
    }

    /// Reads the next note, if there is one. Want of memory leaves it in the ring. Whatever it returns, it drops the first notes that, by a
    /// cut of the segment, needn't be kept.
    pub fn try_outcome(&mut self) -> Result<Option<Note>, AllocError>
        ensures note { IfOk result (λ r. MatchOption r (self.new ≡ lets_read_go self.old self.new.read_gone) (λ n. self.new ≡ reads self.old n self.new.read_gone)) }
        ensures gone { GoesOn self.old.read_gone self.new.read_gone self.old.read }
        ensures err { OnErr result (self.new ≡ lets_read_go self.old self.new.read_gone) }
    {
        self.read.let_go(self.read_mark.look());
        if self.notes.is_empty() {
            return Ok(None);
        }
        self.read.reserve(1)?;
        let note = self.notes.pop_known();
        self.read.push_reserved(note);
        Ok(Some(note))
    }

    /// Tries to read a note at most so often, and ends at the first, or at want of memory, which leaves it in the ring.
    pub fn outcome<R: Wait>(&mut self, _rt: &R, turns: u64) -> Result<Option<Note>, AllocError>
        ensures note { IfOk result (λ r. MatchOption r (self.new ≡ lets_read_go self.old self.new.read_gone) (λ n. self.new ≡ reads self.old n self.new.read_gone)) }
        ensures gone { GoesOn self.old.read_gone self.new.read_gone self.old.read }
        ensures err { OnErr result (self.new ≡ lets_read_go self.old self.new.read_gone) }
    {
        let _client = &self.alloc;
        for _ in 0..turns {
            if let Some(note) = self.try_outcome()? {
                return Ok(Some(note));
            }
            thread::yield_now();
        }
        Ok(None)
    }

    /// How many of the first submissions are kept no more.
    pub fn submitted_gone(&self) -> u64
        ensures value { result ≡ self.now.gone }
        ensures within { result ≤ length self.now.submitted }
    {
        self.submitted.gone()
    }

    /// What was submitted, in order, without the submissions that are kept no more.
    pub fn submitted(&self) -> &[Submission]
        ensures { result.now ≡ drop self.now.gone self.now.submitted }
    {
        self.submitted.as_slice()
    }

    /// How many of the first notes are kept no more.
    pub fn read_gone(&self) -> u64
        ensures value { result ≡ self.now.read_gone }
        ensures within { result ≤ length self.now.read }
    {
        self.read.gone()
    }

    /// The notes that were read, in order, without those that are kept no more.
    pub fn read(&self) -> &[Note]
        ensures { result.now ≡ drop self.now.read_gone self.now.read }
    {
        self.read.as_slice()
    }
}
