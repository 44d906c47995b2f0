//! How many places the ring of an inbox has.
ghost use Rattle.std.specs.Prelude.{◌≡◌, ◌≤◌, MatchOption};
ghost use Rattle.segment_rings.specs.Ends.{ring_places, most_places, IsPlaces};

use crate::words::RING_PLACES;
use std::marker::Model;

/// How many places the ring of an inbox has at most.
pub const MOST_PLACES: usize = 65_536;

/// How many deliveries an inbox can have that it hasn't received yet: 1 to 65,536.
#[derive(Clone, Copy, Debug, PartialEq, Eq)]
pub struct Places {
    count: usize,
}

impl Model for Places {
    ghost use Rattle.std.specs.Prelude.{ℕ};
    ghost use Rattle.segment_rings.specs.Ends.{IsPlaces};

    ghost Value = { ℕ };

    ghost view = { λ p. p.count };

    ghost invariant = { λ p. IsPlaces p.count };

    ghost inverse = { λ n. record { count = n } };
}

impl Places {
    /// So many places. None exactly if that is 0 or more than 65,536.
    pub fn new(count: usize) -> Option<Places>
        ensures { MatchOption result (IsPlaces count → ⊥) (λ p. (p ≡ count) × IsPlaces count) }
    {
        if count == 0 || count > MOST_PLACES {
            return None;
        }
        Some(Places { count })
    }

    /// 64, as every other ring has.
    pub fn usual() -> Places
        ensures { result ≡ ring_places }
    {
        Places { count: RING_PLACES }
    }

    /// How many they are.
    pub fn count(self) -> usize
        ensures value { result ≡ self }
        ensures in_range { IsPlaces result }
    {
        self.count
    }
}
