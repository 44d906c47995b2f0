//! Sets of addresses. The next address of a set is found in a few steps, however many there are.
#![tactic(auto)]

mod set;

pub use set::AddressSet;
