//! One bus with its stations, with the far ends of the rings that lead to each client and each port, for one thread at a time.
//!
//! At every moment the segment is at the record of all calls that were made, and this record says what was put through each ring:
//! each client's submissions are its accepted messages, each port's deliveries its given ones, each client's notes the outcomes of
//! its messages.
//!
//! The calls are stored until they are handed out. A segment that is cut continues from its state, and the pieces joined again are
//! the calls of its record.
#![tactic(auto)]

mod closing;
mod cutting;
mod detaching;
mod ending;
mod live;
mod news;
mod passing;
mod plain;
mod readers;
mod refused;
mod rejoining;
mod report;
mod turns;

pub use closing::Closed;
pub use detaching::NotDetached;
pub use ending::{client_agrees, finish, inbox_agrees, pieces_begin};
pub use live::Live;
pub use live_calls::WorkerCall;
pub use live_record::{CUT_AT, MOST_CALLS, Owed, Piece};
pub use message_events::{Bytes, Event, Events};
pub use news::News;
pub use port_table::PortId;
pub use refused::{Accepted, NotMade};
pub use rejoining::{RejoinRefused, rejoin};
pub use report::{ClientReport, FinishRefused, InboxReport, Report};
pub use segment_law::{Refusal, Reply};
pub use segment_rings::{
    Client, Delivery, Inbox, MOST_PLACES, Note, Places, Submission, SubmitRefused,
};
pub use stored_calls::{Stored, StoredCalls};
pub use turns::Turn;
