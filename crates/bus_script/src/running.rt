//! A script, read and obeyed line by line.
ghost use Rattle.std.specs.Prelude.{IfSome};
ghost use Rattle.line_runs.specs.Ending.{Ended};
ghost use Rattle.bus_script.specs.Telling.{whole, frames_alone, without_frames};
ghost use Rattle.bus_script.specs.Script.{outcome};

use crate::parted::Parted;
use crate::script::run_on;
use crate::whole::Whole;
use line_runs::Ran;
use std::alloc::Global;
use std::io;
use std::io::{BufRead, Write};

/// Runs a script: reads its lines to the end of the input, obeys each, and writes what is printed for it before the next line is obeyed. That is
/// flushed before the reader is asked for more than it holds. It ends at the first fault, at 1,000,001 lines at the latest.
///
/// Unless the run reports a failed read or write or refused memory, exactly the text of the script was written, and the fault is the
/// script's. If it reports a failed read or write, or memory that was refused outside a call and in none, a front of that text was
/// written. A call that finds no memory prints `no memory`, the run continues, and then nothing is promised of the text.
pub fn run_script<R: BufRead, W: Write>(alloc: Global, reader: &mut R, writer: &mut W) -> Ran
    ensures { IfSome (R.remaining reader.old) (λ script.
        Ended result (W.contents writer.old) (W.contents writer.new) (outcome whole script)) }
{
    let mut nowhere = io::sink();
    run_on(alloc, Whole::new(alloc), reader, writer, &mut nowhere)
}

/// Runs a script as `run_script` does, and splits its output in two. The frames that are put are written to `writer`, each as a line of
/// a log of the interface `bus0` at the time of the segment's clock, in which a tick is 1,000 microseconds; all the rest is written to
/// `errors`. The output of a line is written before the next line is obeyed, its frames first, and one of the two is flushed before the other
/// goes on.
///
/// What is promised of the one text of `run_script` is promised of each of the two.
pub fn run_logged<R: BufRead, W: Write, E: Write>(
    alloc: Global,
    reader: &mut R,
    writer: &mut W,
    errors: &mut E,
) -> Ran
    ensures frames { IfSome (R.remaining reader.old) (λ script.
        Ended result (W.contents writer.old) (W.contents writer.new) (outcome frames_alone script)) }
    ensures rest { IfSome (R.remaining reader.old) (λ script.
        Ended result (E.contents errors.old) (E.contents errors.new) (outcome without_frames script)) }
{
    run_on(alloc, Parted::new(alloc), reader, errors, writer)
}
