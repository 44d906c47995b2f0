//! A log, read line by line.
ghost use Rattle.std.specs.Prelude.{◌≡◌, IfSome};
ghost use Rattle.line_runs.specs.Ending.{status_of};
ghost use Rattle.bus_decode.specs.Outcome.{outcome};
ghost use Rattle.bus_decode.specs.Ending.{EndsRun, Ended};

use crate::counts::Counts;
use crate::listening::take_end;
use crate::options::Options;
use crate::taking::{Run, number_behind};
use line_faults::{Cause, ScriptFault};
use line_runs::{Limits, run_lines, status_of};
use std::alloc::Global;
use std::io;
use std::io::{BufRead, Write};
use text_lines::tell;

/// The result of reading a log.
#[derive(Clone, Copy)]
pub struct Decoded {
    /// What was counted.
    pub counts: Counts,
    /// Why it wasn't read to its end, if it wasn't.
    pub fault: Option<ScriptFault>,
}

impl Decoded {
    /// The status of a program that read this log: 0 if it was read to its end and no line of it was wrong, else 1.
    pub fn status(&self) -> u8
        ensures { result ≡ status_of self.now.fault self.now.counts.wrong }
    {
        status_of(self.fault, self.counts.wrong)
    }
}

fn failed(line: u64, cause: Cause, counts: Counts) -> Decoded
    ensures { result ≡ record { counts = counts; fault = Some (record { line = line; cause = cause }) } }
{
    Decoded {
        counts,
        fault: Some(ScriptFault { line, cause }),
    }
}

/// The lines are read: at the end of the log the output of that is written and flushed; at a fault nothing is.
#[tactic(auto, using(text_lines::proofs::Known::front_none))]
fn end_run<W: Write>(
    alloc: Global,
    options: &Options,
    run: &mut Run,
    fault: Option<ScriptFault>,
    writer: &mut W,
) -> Decoded
    ensures { EndsRun fault result options.now (run.old.listener, run.old.counts) (W.contents writer.old) (W.contents writer.new) }
{
    if fault.is_some() {
        return Decoded {
            counts: run.counts,
            fault,
        };
    }
    let number = number_behind(&run.counts);
    run.told.clear();
    let ended = take_end(
        alloc,
        &mut run.listener,
        &mut run.counts,
        options,
        &mut run.told,
    );
    let Ok(()) = ended else {
        return failed(number, Cause::OutOfMemory, run.counts);
    };
    let Ok(()) = tell(writer, run.told.as_slice()) else {
        return failed(number, Cause::WriteFailed, run.counts);
    };
    Decoded {
        counts: run.counts,
        fault: None,
    }
}

/// Reads a log to its end, and writes the output of each line before the next one is read. The output is flushed before the reader is asked for
/// more than it holds: at the latest when it holds no further whole line, and at the end. The run ends at the first fault: a wrong line is one if
/// the options say so, else it is reported by its number.
///
/// Unless it reports a failed read or write or refused memory, exactly the text of the log was written, and counts and fault are those of the log.
/// If it reports one of these, a front of that text was written. A line is looked at in the reader's buffer; one that crosses the end of the
/// buffer is copied, which takes memory for it.
pub fn run_decode<R: BufRead, W: Write>(
    alloc: Global,
    options: &Options,
    reader: &mut R,
    writer: &mut W,
) -> Decoded
    ensures { IfSome (R.remaining reader.old) (λ log.
        Ended result (W.contents writer.old) (W.contents writer.new) (outcome options.now log)) }
{
    let limits = Limits::of_log();
    let mut run = Run::new(alloc, options);
    let mut nowhere = io::sink();
    let ran = run_lines(alloc, &limits, &mut run, reader, writer, &mut nowhere);
    end_run(alloc, options, &mut run, ran.fault, writer)
}
