//! The frames of a message, listed behind its line.
ghost use Rattle.std.specs.Prelude.{◌≡◌, ◌++◌, OnOk};
ghost use Rattle.log_lines.specs.Listing.{range_text, step_text, mark_line, mark_lines};

use crate::parts::{Part, Printed, put_each};
use log_reports::{Mark, Step};
use std::alloc::AllocError;
use text_digits::put_text;

/// Packets from one to another.
fn put_range(out: &mut Vec<u8>, what: &str, first: u64, last: u64) -> Result<(), AllocError>
    ensures { OnOk result (out.new.items ≡ out.old.items ++ range_text what.now first last) }
{
    let parts = [
        Part::Text(what),
        Part::Number(first),
        Part::Text(" "),
        Part::Number(last),
        Part::Text("\n"),
    ];
    put_each(out, &parts)
}

/// What a frame does.
fn put_step(out: &mut Vec<u8>, step: Step) -> Result<(), AllocError>
    ensures { OnOk result (out.new.items ≡ out.old.items ++ step_text step) }
{
    match step {
        Step::Announcement => put_text(out, " announcement\n"),
        Step::Window { first, last } => put_range(out, " window ", first, last),
        Step::Again { first, last } => put_range(out, " again ", first, last),
        Step::Hold => put_text(out, " hold\n"),
        Step::End => put_text(out, " end\n"),
    }
}

impl Printed for Mark {
    ghost text = { mark_line };

    fn put(&self, out: &mut Vec<u8>) -> Result<(), AllocError> {
        let parts = [
            Part::Text("  "),
            Part::Time(self.place.time),
            Part::Text(" "),
            Part::Number(self.place.number),
        ];
        put_each(out, &parts)?;
        put_step(out, self.step)
    }
}

/// The lines of frames of a message, each indented by two blanks.
#[tactic(auto, unfolding(crate::specs::Listing::mark_lines))]
pub fn put_marks(out: &mut Vec<u8>, marks: &[Mark]) -> Result<(), AllocError>
    ensures { OnOk result (out.new.items ≡ out.old.items ++ mark_lines marks.now) }
{
    put_each(out, marks)
}
