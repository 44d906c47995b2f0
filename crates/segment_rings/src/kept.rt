//! The end of a list that grows: what is kept of it.
use std::alloc::{AllocError, Global};
use std::marker::Model;

/// How many of a list's first items may be kept no more: so many that a count of all stays below 2^64.
const MOST_GONE: u64 = 1 << 63;

/// What is kept of a list to which items are added, and how many before that are kept no more.
#[derive(Drop)]
pub(crate) struct Kept<T> {
    gone: u64,
    items: Vec<T>,
}

impl<T> Model for Kept<T> {
    ghost use Rattle.std.specs.Prelude.{◌-◌, ◌≤◌, vec_len, vec_capacity};
    ghost use Rattle.segment_rings.specs.Tails.{Tail, most_gone};

    ghost Value = { Tail T };

    ghost view = { λ k. record { gone = k.gone; items = k.items.items; spare = vec_capacity k.items - vec_len k.items } };

    ghost invariant = { λ k. k.gone ≤ most_gone };
}

impl<T> Kept<T> {
    ghost use Rattle.std.specs.Prelude.{◌≡◌, ◌+◌, ◌-◌, ◌<◌, ◌≤◌, ◌^◌, [], ◌∷◌, ◌++◌, List, length, drop, min, max, OnOk};
    ghost use Rattle.segment_rings.specs.Tails.{Tail, IsTailOf, new_tail, most_gone};

    /// Nothing of an empty list.
    pub(crate) fn new(alloc: Global) -> Kept<T>
        ensures { result ≡ new_tail result.spare }
    {
        Kept {
            gone: 0,
            items: Vec::new(alloc),
        }
    }

    /// How many of the first items are kept no more.
    pub(crate) fn gone(&self) -> u64
        ensures { result ≡ self.now.gone }
    {
        self.gone
    }

    /// How many items the list has, those included that are kept no more.
    pub(crate) fn count(&self) -> u64
        ensures { result ≡ self.now.gone + length self.now.items }
    {
        self.gone + self.items.len() as u64
    }

    /// Makes room to keep so many items more.
    pub(crate) fn reserve(&mut self, count: usize) -> Result<(), AllocError>
        ensures same { self.new ≡ record self.old { spare = self.new.spare } }
        ensures more { self.old.spare ≤ self.new.spare }
        ensures ok { OnOk result (count ≤ self.new.spare) }
    {
        self.items.reserve(count)
    }

    /// Puts one item more. There is room for it.
    pub(crate) fn push_reserved(&mut self, item: T)
        requires { 0 < self.old.spare }
        ensures added { self.new ≡ record self.old { items = self.old.items ++ item ∷ []; spare = self.old.spare - 1 } }
        ensures tail { (xs : List T) → IsTailOf self.old xs → IsTailOf self.new (xs ++ item ∷ []) }
    {
        self.items.push_reserved(item);
    }

    /// The items that are kept.
    pub(crate) fn as_slice(&self) -> &[T]
        ensures { result.now ≡ self.now.items }
    {
        self.items.as_slice()
    }
}

impl<T: Drop> Kept<T> {
    ghost use Rattle.std.specs.Prelude.{◌≡◌, ◌+◌, ◌-◌, ◌<◌, ◌≤◌, ◌^◌, [], ◌∷◌, ◌++◌, List, length, drop, min, max};
    ghost use Rattle.segment_rings.specs.Tails.{Tail, IsTailOf, new_tail, most_gone};

    /// The list's first items up to this count are kept no more, as many of them as there are.
    pub(crate) fn let_go(&mut self, count: u64)
        ensures gone { self.new.gone ≡ max self.old.gone (min count (min most_gone (self.old.gone + length self.old.items))) }
        ensures items { self.new.items ≡ drop (self.new.gone - self.old.gone) self.old.items }
        ensures more { self.old.spare ≤ self.new.spare }
        ensures tail { (xs : List T) → IsTailOf self.old xs → IsTailOf self.new xs }
        ensures exact { (xs : List T) → IsTailOf self.old xs → self.old.gone ≤ count → count ≤ length xs → self.new.gone ≡ min count most_gone }
    {
        let count = count.min(MOST_GONE);
        if count <= self.gone {
            return;
        }
        let len = self.items.len();
        let more = (count - self.gone).min(len as u64);
        self.gone += more;
        self.items.drain(..more as usize);
    }

    /// Puts all these items. There is room for them.
    pub(crate) fn append_reserved(&mut self, more: Vec<T>)
        requires { length more.items ≤ self.old.spare }
        ensures gone { self.new.gone ≡ self.old.gone }
        ensures items { self.new.items ≡ self.old.items ++ more.items }
    {
        let mut more = more;
        match self.items.append(&mut more) {
            Ok(()) => {}
            Err(_) => unreachable!(),
        }
    }
}
