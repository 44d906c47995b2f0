//! The courses of the messages of a log, beside a listener: the first and the last frame of each, how many it has, and how many packets its receiver
//! asked for again (SAE J1939-21, transport protocol; ISO 11783-3, extended transport protocol).
//!
//! A course goes from the announcement to the frame at which the message is reported. The end acknowledgements of messages that were given are awaited
//! too. It holds one course for each message under way, and one note for each two nodes between which a message was given.
//!
//! The messages are counted by how they ended, with a row for each interface, PGN, sender and destination between which one was reported. A `Summary`
//! holds these rows, one note for each reason for which messages of a row were aborted, and one for each interface. A call that takes memory fails only
//! if memory is refused.
#![tactic(auto)]

mod awaited;
mod course;
mod courses;
mod key;
mod row;
mod summary;

pub use awaited::Awaited;
pub use course::Course;
pub use courses::Courses;
pub use row::{Losses, Reason, ReasonCount, Row};
pub use summary::Summary;
