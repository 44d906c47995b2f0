//! Sets of ports.
ghost use Rattle.std.specs.Prelude.{◌≡◌, ℕ, ◌+◌, ◌<◌, ◌≤◌, ◌==◌, [], ◌∷◌, ◌++◌, length, slice_get, All};
ghost use Rattle.std.specs.Slice.Iter.{iter_rest};
ghost use Rattle.std.specs.Iterator.Adapters.{IterYieldsInOrder};
ghost use Rattle.port_table.specs.PortSet.{port_limit, has_number, without_number};
ghost use Rattle.port_table.specs.SetFields.{ports_in};

use crate::MAX_PORTS;
use std::marker::Model;
use std::slice::Iter;

/// The numbers of at most 16 ports of one station, in the order in which they are given a message. It takes no memory.
// What follows the ports is 0, which is no port's number. A count beside them would make a set longer than what the compiler copies in
// place, and a set is copied at each step of the way into a session.
#[derive(Clone, Copy, Debug, PartialEq, Eq)]
pub struct PortSet {
    kept: [u64; MAX_PORTS],
}

impl Model for PortSet {
    ghost use Rattle.std.specs.Prelude.{List, ℕ};

    ghost Value = { List ℕ };

    ghost use Rattle.port_table.specs.SetFields.{set_value, IsPadded, set_fields, set_fields_back};

    ghost view = { set_value };

    ghost invariant = { IsPadded };

    ghost inverse = { set_fields };

    ghost inverse_ok = { set_fields_back };
}

// How many of these numbers precede the first 0.
#[inline(always)]
fn count(kept: &[u64]) -> usize
    ensures { result ≡ ports_in kept.now }
{
    for place in 0..kept.len() {
        if kept[place] == 0 {
            return place;
        }
    }
    kept.len()
}

impl PortSet {
    /// The set of no port.
    pub fn empty() -> PortSet
        ensures { result ≡ [] }
    {
        PortSet {
            kept: [0; MAX_PORTS],
        }
    }

    /// Adds a port at the end of a set of less than 16.
    pub(crate) fn push(&mut self, number: u64)
        requires few { length self.old < port_limit }
        requires above { 0 < number }
        ensures { self.new ≡ self.old ++ number ∷ [] }
    {
        let len = self.len();
        self.kept[len] = number;
    }

    /// How many ports it has.
    pub fn len(&self) -> usize
        ensures value { result ≡ length self.now }
        ensures bounded { result ≤ port_limit }
    {
        count(&self.kept)
    }

    /// Whether it has no port.
    pub fn is_empty(&self) -> bool
        ensures { result ≡ (length self.now == 0) }
    {
        self.kept[0] == 0
    }

    /// The numbers of its ports.
    pub fn numbers(&self) -> &[u64]
        ensures value { result.now ≡ self.now }
        ensures bounded { length result.now ≤ port_limit }
        ensures above { All (λ number. 0 < number) result.now }
    {
        &self.kept[..self.len()]
    }

    /// The number at a place, counted from 0.
    pub fn get(&self, place: usize) -> Option<u64>
        ensures { result ≡ slice_get self.now place }
    {
        self.numbers().get(place).copied()
    }

    /// Its numbers, one by one.
    pub fn iter(&self) -> Iter<'_, u64>
        ensures rest { iter_rest result ≡ self.now }
        ensures len { length (iter_rest result) ≡ length self.now }
        ensures runs { IterYieldsInOrder ℕ }
    {
        self.numbers().iter()
    }

    /// Whether it has the port with this number.
    pub fn contains(&self, number: u64) -> bool
        ensures { result ≡ has_number self.now number }
    {
        self.numbers().contains(&number)
    }

    /// The set without a port, in its order.
    pub fn without(&self, number: u64) -> PortSet
        ensures { result ≡ without_number self.now number }
    {
        let mut rest = PortSet::empty();
        for kept in self.numbers() {
            if *kept != number {
                rest.push(*kept);
            }
        }
        rest
    }
}
