//! One bus with its stations: every call on it is one atomic step, which changes nothing if it is refused.
//!
//! `segment_law` says what each call does; its types of calls, replies and refusals are shown here too. `segment_state` makes the calls;
//! what is proved of every record is said here.
#![tactic(auto)]

mod apart;
mod call;
mod drive;
mod driving;
mod image;
mod next;
mod passing;
mod readers;
mod refusing;
mod run;
mod segment;

pub use connection_law::the_headline_holds;
pub use drive_course::{Driven, EventList, FrameList};
pub use image::{Image, equal_images_answer_alike};
pub use lane_core::LaneSight;
pub use message_events::Bytes;
pub use port_table::{PortId, PortSet};
pub use run::Ran;
pub use segment::{NewRefused, Segment};
pub use segment_law::{Call, Counts, DriveEnd, Refusal, Reply, RunEnd};
pub use segment_state::{Made, Passing, Tried};
pub use station_core::{Event, Events, EventsIntoIter, EventsIter};
