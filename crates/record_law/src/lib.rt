//! The laws of every record, whatever frames the bus carries: what ports are given, that each message has one outcome, and what
//! a segment's readers return.
//!
//! Its lemmas are those that all laws of records share: on tests and lists, on look-ups in the parts of a segment, on the events
//! of steps, and the induction along a record, call by call.
#![tactic(auto)]

pub mod outcomes;
pub mod ports;
pub mod readers;
