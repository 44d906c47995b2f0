//! The record of a segment that threads share: the calls that are stored and the pieces before them, what each client's accepted messages
//! are, which notes and deliveries they make, and comparisons with what clients and inboxes hold.
#![tactic(auto)]

mod calls;
mod compare;
mod owed;

pub use calls::{CUT_AT, Calls, MOST_CALLS, Piece, at_most_a_million_calls};
pub use compare::{
    accepted_begin, begins, copy_deliveries, copy_left, count_accepted, kept_from, notes_begin,
    pieces_accepted_begin,
};
pub use owed::Owed;
