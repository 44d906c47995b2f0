//! What is wrong with a line of a script or a log.
ghost use Rattle.std.specs.Prelude.{◌≡◌, Some};
ghost use Rattle.line_faults.specs.Faults.{fault_text};
ghost use Rattle.line_faults.specs.declared.fault.LineError.TheVariants.{OutOfMemory};

use std::alloc::{AllocError, AllocFailed};
use std::fmt;

/// What is wrong with a line of a script or a log, in the order in which it is looked for.
#[derive(Clone, Copy, Debug, PartialEq, Eq)]
pub enum Fault {
    /// There are more lines than there may be, which are 1,000,000 in a script.
    TooManyLines,
    /// The line has more bytes than a line may have, which are 8,192 in a script or a log.
    LineTooLong,
    /// The line begins as a frame of the log's form, but continues differently.
    NotLogLine,
    /// A byte of the line is above 127.
    NotAscii,
    /// The first word names no command.
    UnknownCommand,
    /// The command has fewer or more words than its form.
    WrongNumberOfWords,
    /// A word isn't what its place asks for, or its value is above its bound.
    BadWord,
    /// The command needs the segment, which no line has made yet.
    NoStations,
    /// The segment is made already.
    StationsTwice,
}

/// What is wrong, in words.
fn fault_text(fault: Fault) -> &'static str
    ensures { result.now ≡ fault_text fault }
{
    match fault {
        Fault::TooManyLines => "too many lines",
        Fault::LineTooLong => "line too long",
        Fault::NotLogLine => "not a log line",
        Fault::NotAscii => "not ASCII",
        Fault::UnknownCommand => "unknown command",
        Fault::WrongNumberOfWords => "wrong number of words",
        Fault::BadWord => "bad word",
        Fault::NoStations => "no stations",
        Fault::StationsTwice => "stations twice",
    }
}

impl fmt::Display for Fault {
    ghost output = { λ f. Some (fault_text f) };

    fn fmt<W: fmt::Write>(&self, f: &mut fmt::Formatter<W>) -> fmt::Result {
        f.write_str(fault_text(*self))
    }
}

/// Why a line means no command, or isn't obeyed.
#[derive(Clone, Copy)]
pub enum LineError {
    /// Memory was refused.
    OutOfMemory,
    /// The line is wrong: this is the first fault in it.
    Fault(Fault),
}

impl From<AllocError> for LineError {
    ghost from_gives = { λ _ e. e ≡ OutOfMemory };

    fn from(_: AllocError) -> LineError {
        LineError::OutOfMemory
    }
}

impl<T: Drop> From<AllocFailed<T>> for LineError {
    ghost from_gives = { λ _ e. e ≡ OutOfMemory };

    fn from(_: AllocFailed<T>) -> LineError {
        LineError::OutOfMemory
    }
}
