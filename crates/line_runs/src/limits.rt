//! The next line of an input, within limits.
ghost use Rattle.std.specs.Prelude.{◌≡◌, ◌≤◌, true, IfOk};
ghost use Rattle.line_runs.specs.Limits.{script_limits, log_limits, limit_fault, Read};

use line_faults::{Cause, Fault, read_cause};
use std::io::BufRead;
use text_lines::{LineRead, MAX_LINE, read_line_up_to};

/// The most lines that an input may have, and the most bytes that a line may have.
#[derive(Clone, Copy)]
pub struct Limits {
    pub lines: u64,
    pub bytes: usize,
}

impl Limits {
    /// The limits of a script: 1,000,000 lines of 8,192 bytes.
    pub fn of_script() -> Limits
        ensures { result ≡ script_limits }
    {
        Limits {
            lines: 1_000_000,
            bytes: MAX_LINE,
        }
    }

    /// The limits of a log: 2^64 - 2 lines of 8,192 bytes.
    pub fn of_log() -> Limits
        ensures { result ≡ log_limits }
    {
        Limits {
            lines: u64::MAX - 1,
            bytes: MAX_LINE,
        }
    }
}

/// The fault of a line that is too long.
fn limit_fault(limits: &Limits, number: u64) -> Fault
    ensures { result ≡ limit_fault limits.now number }
{
    if number > limits.lines {
        Fault::TooManyLines
    } else {
        Fault::LineTooLong
    }
}

/// Reads the line of this number into `line`, without its line feed, and says whether there was one. Lines count from 1. It fails if a line
/// is above the limits, if the reader fails, or if memory is refused.
#[tactic(auto, using(crate::proofs::Above::within))]
pub fn next_line<R: BufRead>(
    limits: &Limits,
    number: u64,
    reader: &mut R,
    line: &mut Vec<u8>,
) -> Result<bool, Cause>
    ensures few { IfOk result (λ is_line. is_line ≡ true → number ≤ limits.now.lines) }
    ensures read { Read limits.now number result line.new.items (R.remaining reader.old) (R.remaining reader.new) }
{
    match read_line_up_to(limits.bytes, reader, line) {
        Ok(LineRead::End) => return Ok(false),
        Ok(LineRead::TooLong) => return Err(Cause::Fault(limit_fault(limits, number))),
        Ok(LineRead::Line) => {}
        Err(error) => return Err(read_cause(error)),
    }
    if number > limits.lines {
        return Err(Cause::Fault(Fault::TooManyLines));
    }
    Ok(true)
}
