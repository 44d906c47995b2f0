//! The sending side of a connection, for TP (SAE J1939-21, connection mode data transfer) and ETP (ISO 11783-3) alike.
//!
//! Values in, values out: there is no clock and no thread here, and no call takes memory. Each state must be spent.
#![tactic(auto)]

mod await_cts;
mod await_end;
mod cts;
mod endings;
mod image;
mod link;
mod opening;
mod pump;
mod sending;
mod spending;
mod states;
mod step;
mod timers;

pub use await_cts::AwaitCts;
pub use await_end::AwaitEnd;
pub use cts::MOST_RESENDS;
pub use endings::Ending;
pub use image::OutImage;
pub use opening::begin;
pub use sending::Sending;
pub use states::{OutOver, OutState, Stepped};
