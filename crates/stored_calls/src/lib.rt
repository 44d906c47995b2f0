//! Calls of a segment in the order in which they were made, most of them in eight bytes.
#![tactic(auto)]

mod list;
mod short;
mod stored;

pub use list::StoredCalls;
pub use stored::Stored;
