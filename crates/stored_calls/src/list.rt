//! A list of calls.
use crate::short::Short;
use crate::stored::Stored;
use std::alloc::{AllocError, Global};
use std::marker::Model;

/// Calls in the order in which they were made. A call without an owner that pumps, transmits, takes, fires, or ticks at most
/// 4,294,967,295 times takes eight bytes; any other 48 more, and a message its bytes.
#[derive(Debug)]
pub struct StoredCalls {
    shorts: Vec<Short>,
    wholes: Vec<Stored>,
}

impl Model for StoredCalls {
    ghost use Rattle.std.specs.Prelude.{◌≤◌, ◌-◌, length, map, min, vec_len, vec_capacity};
    ghost use Rattle.stored_calls.specs.Lists.{CallsView, made_of, PlacesWithin};
    ghost use Rattle.stored_calls.specs.ListsCode.{calls_code};

    ghost Value = { CallsView };

    ghost coded = { calls_code };

    ghost view = { λ c. record { items = map (made_of c.wholes.items) c.shorts.items; spare = min (vec_capacity c.shorts - vec_len c.shorts) (vec_capacity c.wholes - vec_len c.wholes) } };

    ghost invariant = { λ c. PlacesWithin (length c.wholes.items) c.shorts.items × (length c.wholes.items ≤ length c.shorts.items) };
}

impl Drop for StoredCalls {
    fn drop(self) {
        let StoredCalls {
            shorts: _,
            wholes: _,
        } = self;
    }
}

impl StoredCalls {
    ghost use Rattle.std.specs.Prelude.{◌≡◌, ◌<◌, ◌^◌, [], ◌∷◌, ◌++◌, ◌↔◌, length, IfOk, OnOk, IsTrue, IfSome, IfNone, slice_index_or};
    ghost use Rattle.stored_calls.specs.Lists.{IsOfNobody};
    ghost use Rattle.stored_calls.specs.declared.stored.Stored.{Stored as StoredCall};

    /// No calls.
    pub fn new(alloc: Global) -> StoredCalls
        ensures { result.items ≡ [] }
    {
        StoredCalls {
            shorts: Vec::new(alloc),
            wholes: Vec::new(alloc),
        }
    }

    /// How many calls there are.
    pub fn len(&self) -> usize
        ensures { result ≡ length self.now.items }
    {
        self.shorts.len()
    }

    /// Whether one more call has its place in memory.
    pub fn has_room(&self) -> bool
        ensures { IsTrue result ↔ (0 < self.now.spare) }
    {
        self.shorts.len() < self.shorts.capacity() && self.wholes.len() < self.wholes.capacity()
    }

    /// Makes room for one call more.
    pub fn reserve(&mut self) -> Result<(), AllocError>
        ensures items { self.new.items ≡ self.old.items }
        ensures room { OnOk result (0 < self.new.spare) }
    {
        self.wholes.reserve(1)?;
        self.shorts.reserve(1)
    }

    /// Puts a call behind the others. There must be room for it and fewer than 4,294,967,296 calls. It takes no memory.
    // Inlined, since a caller usually knows which call it is, and so which form is stored.
    #[inline(always)]
    #[tactic(auto, using(crate::proofs::Places::within_short))]
    pub fn push_reserved(&mut self, call: Stored)
        requires room { 0 < self.old.spare }
        requires few { length self.old.items < 2 ^ 32 }
        ensures { self.new.items ≡ self.old.items ++ call ∷ [] }
    {
        match Short::of(&call) {
            Some(short) => self.shorts.push_reserved(short),
            None => self.push_whole(call),
        }
    }

    // Puts a call behind the others that is kept whole.
    #[tactic(auto, using(crate::proofs::Places::within_whole))]
    fn push_whole(&mut self, call: Stored)
        requires room { 0 < self.old.spare }
        requires few { length self.old.items < 2 ^ 32 }
        ensures { self.new.items ≡ self.old.items ++ call ∷ [] }
    {
        let at = self.wholes.len() as u32;
        self.shorts.push_reserved(Short::Whole { at });
        self.wholes.push_reserved(call);
    }

    /// The call at a place, if it is kept whole: each call that has an owner, opens or closes a port, or sends.
    pub fn whole(&self, at: usize) -> Option<&Stored>
        requires { at < length self.now.items }
        ensures whole { IfSome result (λ s. (x : StoredCall) → s.now ≡ slice_index_or self.now.items at x) }
        ensures brief { IfNone result ((x : StoredCall) → IsOfNobody (slice_index_or self.now.items at x)) }
    {
        match self.shorts[at].call() {
            Ok(_) => None,
            Err(place) => Some(&self.wholes[place]),
        }
    }

    /// A copy of the call at a place. Memory is taken for the bytes of a message alone.
    pub fn copy(&self, alloc: Global, at: usize) -> Result<Stored, AllocError>
        requires { at < length self.now.items }
        ensures { IfOk result (λ s. (x : StoredCall) → s ≡ slice_index_or self.now.items at x) }
    {
        match self.shorts[at].call() {
            Ok(call) => Ok(Stored { by: None, call }),
            Err(place) => self.wholes[place].copy(alloc),
        }
    }
}
