//! One call on a segment with its ends: all that it needs is found first, and then it is made, or nothing has changed.
#![tactic(auto)]

mod call;
mod offer;
mod places;
mod step;
mod wanted;

pub use call::WorkerCall;
pub use offer::{Ready, find_ready};
pub use places::{Found, make_found};
pub use step::{make, refusal_for, try_plainly};
pub use wanted::Wanted;
pub use watched_segment::{Image, NewRefused, Segment, Watched, lowest_front, the_headline_holds};
