//! The line at which a script or a log ended before its end, and why.
ghost use Rattle.std.specs.Prelude.{◌≡◌, Some};
ghost use Rattle.line_faults.specs.Ending.{cause_of, read_cause, fault_line};

use crate::fault::{Fault, LineError};
use std::fmt;
use text_lines::ReadError;

/// Why a script or a log ended before its end.
#[derive(Clone, Copy, Debug, PartialEq, Eq)]
pub enum Cause {
    /// The reader failed.
    ReadFailed,
    /// The writer failed.
    WriteFailed,
    /// Memory was refused.
    OutOfMemory,
    /// A line is wrong.
    Fault(Fault),
}

/// The line at which a script or a log ended before its end, and why. Lines count from 1.
#[derive(Clone, Copy)]
pub struct ScriptFault {
    pub line: u64,
    pub cause: Cause,
}

impl fmt::Display for ScriptFault {
    ghost output = { λ f. Some (fault_line f) };

    fn fmt<W: fmt::Write>(&self, f: &mut fmt::Formatter<W>) -> fmt::Result {
        let line = self.line;
        match self.cause {
            Cause::ReadFailed => write!(f, "line {line}: read failed"),
            Cause::WriteFailed => write!(f, "write failed"),
            Cause::OutOfMemory => write!(f, "line {line}: out of memory"),
            Cause::Fault(fault) => write!(f, "line {line}: {fault}"),
        }
    }
}

/// Why a line ends a script or a log.
pub fn cause_of(error: LineError) -> Cause
    ensures { result ≡ cause_of error }
{
    match error {
        LineError::OutOfMemory => Cause::OutOfMemory,
        LineError::Fault(fault) => Cause::Fault(fault),
    }
}

/// Why no line was read.
pub fn read_cause(error: ReadError) -> Cause
    ensures { result ≡ read_cause error }
{
    match error {
        ReadError::Failed => Cause::ReadFailed,
        ReadError::OutOfMemory => Cause::OutOfMemory,
    }
}
