//! The calls that were made: those that are stored, and the pieces in which those before them were handed out.
ghost use Rattle.live_record.specs.declared.calls.TheConstants.{CUT_AT, MOST_CALLS};

use segment_law::Call;
use segment_rings::Outlet;
use std::alloc::{AllocError, Global};
use std::marker::Model;
use stored_calls::{Stored, StoredCalls};

/// How many calls are stored at most since the last cut.
pub const MOST_CALLS: usize = 1_000_000;

/// At how many stored calls a record is cut as a rule: 100,000 more can be made while memory for a cut is lacking.
pub const CUT_AT: usize = 900_000;

/// A law: at most 1,000,000 calls are stored since the last cut, and a record is cut as a rule at 900,000.
pub fn at_most_a_million_calls()
    ensures most { MOST_CALLS ≡ 1000000 }
    ensures cut { CUT_AT ≡ 900000 }
{}

/// The calls that were stored between two cuts, each with the client whose message it sends. The pieces of a segment are
/// numbered from 1.
#[derive(Debug, Drop)]
pub struct Piece {
    pub number: u64,
    pub calls: StoredCalls,
}

/// All calls that were made. Those of a piece that was handed out are not kept: contracts alone see them.
pub struct Calls {
    stored: StoredCalls,
    outlet: Outlet<Piece>,
    cuts: u64,
    before: u64,
    turned_away: u64,
}

impl Model for Calls {
    ghost use Rattle.std.specs.Prelude.{◌≡◌, ◌+◌, ◌<◌, ◌≤◌, ◌^◌, ◌++◌, length};
    ghost use Rattle.live_record.specs.declared.calls.TheConstants.{MOST_CALLS};
    ghost use Rattle.live_record.specs.Past.{CallsView, joined, NumberedAfter};
    ghost use Rattle.live_record.specs.PastCode.{calls_code};
    ghost use Rattle.live_record.specs.TurnedAway.{count_turned_away};

    ghost Value = { CallsView };

    ghost coded = { calls_code };

    ghost view = { λ c. record { pieces = c.outlet; items = joined c.outlet ++ c.stored.items; spare = c.stored.spare } };

    ghost invariant = { λ c. (c.cuts ≡ length c.outlet) × (c.before ≡ length (joined c.outlet)) × (c.before + MOST_CALLS < 2 ^ 64) × (length c.stored.items ≤ MOST_CALLS) × NumberedAfter 0 c.outlet × (c.turned_away ≡ count_turned_away (joined c.outlet ++ c.stored.items)) };
}

impl Drop for Calls {
    fn drop(self) {
        let Calls {
            stored: _,
            outlet: _,
            cuts: _,
            before: _,
            turned_away: _,
        } = self;
    }
}

ghost use Rattle.std.specs.Prelude.{◌≡◌, ℕ, cond};
ghost use Rattle.live_record.specs.TurnedAway.{is_turned_away};

// 1 for a call that gives without room for what it gives, and else 0.
#[inline(always)]
fn turned_away_by(call: &Call) -> u64
    ensures { result ≡ cond {A = ℕ} (is_turned_away call.now) 1 0 }
{
    match call {
        Call::Take { station: _, room } => u64::from(!*room),
        Call::TakeAgain { station: _, room } => u64::from(!*room),
        _ => 0,
    }
}

impl Calls {
    ghost use Rattle.std.specs.Prelude.{◌≡◌, ◌≤◌, ◌<◌, ◌+◌, ◌^◌, [], ◌∷◌, ◌++◌, length, IfOk, OnOk, IsTrue, IsFalse};
    ghost use Rattle.live_record.specs.Past.{CallsView, joined, since, count_since, HasPast, IsPastCounts, HasCounts};
    ghost use Rattle.live_record.specs.TurnedAway.{count_turned_away};

    /// No calls. It takes memory for what hands pieces out.
    pub fn new(alloc: Global) -> Result<Calls, AllocError>
        ensures items { IfOk result (λ c. c.items ≡ []) }
        ensures pieces { IfOk result (λ c. c.pieces ≡ []) }
    {
        let outlet = Outlet::new(alloc)?;
        Ok(Calls {
            stored: StoredCalls::new(alloc),
            outlet,
            cuts: 0,
            before: 0,
            turned_away: 0,
        })
    }

    /// What holds of the pieces and the calls that are stored. It does nothing.
    pub fn laws(&self)
        ensures { HasPast self.now.pieces self.now.items }
    {
        let _stored = &self.stored;
    }

    /// How many pieces were handed out.
    pub fn cuts(&self) -> u64
        ensures { result ≡ length self.now.pieces }
    {
        self.cuts
    }

    /// How many calls are stored.
    pub fn len(&self) -> usize
        ensures { result ≡ count_since self.now.pieces self.now.items }
    {
        self.stored.len()
    }

    /// How many of all calls gave without room.
    pub fn turned_away(&self) -> u64
        ensures { result ≡ count_turned_away self.now.items }
    {
        self.turned_away
    }

    /// Whether no more calls can be stored.
    pub fn is_full(&self) -> bool
        ensures full { IsTrue result → MOST_CALLS ≤ count_since self.now.pieces self.now.items }
        ensures few { IsFalse result → count_since self.now.pieces self.now.items < MOST_CALLS }
    {
        self.stored.len() >= MOST_CALLS
    }

    /// The calls that are stored.
    pub fn stored(&self) -> &StoredCalls
        ensures { result.now.items ≡ since self.now.pieces self.now.items }
    {
        &self.stored
    }

    /// Makes room for one call more.
    #[inline(always)]
    pub fn reserve(&mut self) -> Result<(), AllocError>
        ensures items { self.new.items ≡ self.old.items }
        ensures pieces { self.new.pieces ≡ self.old.pieces }
        ensures room { OnOk result (0 < self.new.spare) }
        ensures few { count_since self.old.pieces self.old.items < MOST_CALLS → length self.old.items + 1 < 2 ^ 64 }
    {
        // As a rule there is room.
        if self.stored.has_room() {
            return Ok(());
        }
        self.stored.reserve()
    }

    /// Stores one call more, for which there is room.
    // As a rule its caller says which call it is, and so how it is stored.
    #[inline(always)]
    pub fn push_reserved(&mut self, call: Stored)
        requires room { 0 < self.old.spare }
        requires few { count_since self.old.pieces self.old.items < MOST_CALLS }
        ensures items { self.new.items ≡ self.old.items ++ call ∷ [] }
        ensures pieces { self.new.pieces ≡ self.old.pieces }
    {
        self.turned_away += turned_away_by(&call.call);
        self.stored.push_reserved(call);
    }

    /// Whether the number of one more piece, or how many calls can have been made then, would pass the last value of a count.
    pub fn is_past_counts(&self) -> bool
        ensures past { IsTrue result → IsPastCounts self.now.pieces self.now.items }
        ensures fits { IsFalse result → HasCounts self.now.pieces self.now.items }
    {
        self.cuts == u64::MAX
            || self.before + self.stored.len() as u64 > u64::MAX - MOST_CALLS as u64
    }

    /// Hands out the calls that are stored. It takes no memory.
    pub fn cut(&mut self, alloc: Global) -> Piece
        requires { HasCounts self.old.pieces self.old.items }
        ensures number { result.number ≡ length self.old.pieces + 1 }
        ensures calls { joined self.old.pieces ++ result.calls.items ≡ self.old.items }
        ensures pieces { self.new.pieces ≡ self.old.pieces ++ result ∷ [] }
        ensures items { self.new.items ≡ self.old.items }
    {
        self.before += self.stored.len() as u64;
        self.cuts += 1;
        let calls = std::mem::replace(&mut self.stored, StoredCalls::new(alloc));
        self.outlet.hand_out(Piece {
            number: self.cuts,
            calls,
        })
    }
}
