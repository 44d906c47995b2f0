//! What a drive keeps of its calls: the frames that they put, and their events, which are counted too; and how the stations of a
//! bus take a frame that is read once for all of them.
#![tactic(auto)]

mod counting;
mod course;
mod driven;
mod seen;

pub use counting::{count_events, count_frame, count_look, count_repeat};
pub use course::Course;
pub use driven::{Driven, EventList, FrameList};
pub use seen::take_first;
