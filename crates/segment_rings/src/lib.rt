//! What threads hold of a shared segment, and what the segment keeps of each: the two ends of every ring, each beside the list of
//! all that went through it.
//!
//! A client pushes submissions and pops notes; its seat is the other end of both rings. An inbox pops deliveries; its door pushes
//! them. A seat and a door that are cut keep only what may be unread; by a mark the other end learns of it, and then keeps no more
//! either. An outlet has both ends of its ring, so that contracts see all that a struct gave away. Nothing above this crate sees a
//! ring. Nothing here takes a lock; only `outcome` and `receive` wait, for so many turns at most.
#![tactic(auto)]

mod bell;
mod buffer;
mod client;
mod door;
mod inbox;
mod kept;
mod mark;
mod outlet;
mod places;
mod seat;
mod words;

pub use bell::Bell;
pub use buffer::Buffer;
pub use client::{Client, SubmitRefused, submit_refusal};
pub use door::{Door, Doorway};
pub use inbox::Inbox;
pub use outlet::Outlet;
pub use places::{MOST_PLACES, Places};
pub use seat::{Offer, Seat};
pub use words::{Delivery, Note, RING_PLACES, Submission};
