//! The printed text of a drain.
ghost use Rattle.std.specs.Prelude.{◌≡◌, ◌++◌, OnOk};
ghost use Rattle.script_text.specs.Parts.{line};
ghost use Rattle.bus_script.specs.Draining.{drain_end_text, drained_line, told_as};

use line_runs::Told;
use script_text::{print_refused, print_text};
use segment_drain::DrainEnd;
use std::alloc::AllocError;
use text_digits::{put_decimal, put_text};

/// A drain that ended for want of memory is told as such.
pub(crate) fn told_as(end: DrainEnd) -> Told
    ensures { result ≡ told_as end }
{
    match end {
        DrainEnd::OutOfMemory => Told::NoMemory,
        _ => Told::Answered,
    }
}

// The end of a drain, and a line feed.
fn print_end(out: &mut Vec<u8>, end: DrainEnd) -> Result<(), AllocError>
    ensures { OnOk result (out.new.items ≡ out.old.items ++ line (drain_end_text end)) }
{
    match end {
        DrainEnd::Rest => print_text(out, "rest"),
        DrainEnd::Held => print_text(out, "held"),
        DrainEnd::Turns => print_text(out, "turns"),
        DrainEnd::Refused(cause) => print_refused(out, cause),
        DrainEnd::OutOfMemory => print_text(out, "no memory"),
    }
}

/// The line of a drain: its turns and how it ended.
#[tactic(auto, unfolding(crate::specs::Draining::drained_line))]
pub(crate) fn print_drained(out: &mut Vec<u8>, turns: u64, end: DrainEnd) -> Result<(), AllocError>
    ensures { OnOk result (out.new.items ≡ out.old.items ++ drained_line turns end) }
{
    put_text(out, "drained ")?;
    put_decimal(out, turns)?;
    put_text(out, " ")?;
    print_end(out, end)
}
