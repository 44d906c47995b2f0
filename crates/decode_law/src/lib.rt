//! The laws of a listener to a recorded bus: a message that nothing disturbs is heard as it was sent, and a log is read as it was written.
#![tactic(auto)]

mod laws;
mod lines;
mod missing;

pub use laws::{undisturbed_drives_are_heard, undisturbed_messages_are_heard};
pub use lines::written_lines_are_read_in_form;
pub use missing::{lacking_logs_tell_no_other_message, premises_can_be_met};
