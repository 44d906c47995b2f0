//! The printed text of a segment's replies, frames, events and counts, and of a relay: `print_` puts whole lines behind what a buffer
//! holds already, `put_` a part of one.
//!
//! A call fails only if memory is refused; what the buffer holds then is not specified.
#![tactic(auto)]

mod counts;
mod parts;
mod replies;

pub use counts::{print_counts, print_relayed};
pub use parts::put_port;
pub use replies::{
    print_drove, print_events, print_frames, print_given, print_outcome, print_port, print_put,
    print_refused, print_reply, print_text, put_outcome,
};
