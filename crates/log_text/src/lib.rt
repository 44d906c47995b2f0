//! Lines of a bus log: read, in the form that `candump -L` writes and `canplayer` reads, `(SECONDS.MICROS) IFACE ID#HEX`, and in that of
//! `candump` on a screen, with a time in front of it or not; written in the first.
//!
//! Times are microseconds. Reading takes no memory.
#![tactic(auto)]

mod digits;
mod laws;
mod line;
mod reading;
mod screen;
mod usual;
mod writing;

pub use laws::written_lines_are_read_back;
pub use line::{LogLine, NotLogLine, read_log_line};
pub use log_fields::{BadName, Iface, put_time, read_time};
pub use reading::{Form, before_return, form_of, read_line_as};
pub use writing::put_log_line;
