//! Draining a segment: what is pending is worked off, one call a turn, until nothing is left to be done.
#![tactic(auto)]

mod choosing;
mod course;
mod drained;
mod draining;
mod end;
mod finding;
mod kind;
mod rest;
mod waits;

pub use choosing::Next;
pub use drained::Drained;
pub use draining::drain;
pub use end::DrainEnd;
pub use kind::Kind;
pub use rest::{calm_stays, has_rested};
