//! The printed text of a drive.
ghost use Rattle.std.specs.Prelude.{◌≡◌, ◌++◌, OnOk};
ghost use Rattle.drive_course.specs.Joined.{joined};
ghost use Rattle.script_text.specs.Replies.{event_lines, drive_lines};

use script_text::{print_drove, print_events, print_frames};
use segment_core::{Driven, EventList, Events};
use std::alloc::AllocError;

/// The lines of the events of several calls, one each, in their order: one part for each call that had some.
pub(crate) fn print_parts(out: &mut Vec<u8>, parts: &[Events]) -> Result<(), AllocError>
    ensures { OnOk result (out.new.items ≡ out.old.items ++ event_lines (joined parts.now)) }
{
    for part in parts {
        print_events(out, part)?;
    }
    Ok(())
}

/// The lines of the events of a drive.
pub(crate) fn print_told(out: &mut Vec<u8>, events: &EventList) -> Result<(), AllocError>
    ensures { OnOk result (out.new.items ≡ out.old.items ++ event_lines events.now) }
{
    print_parts(out, events.parts())
}

/// The lines of a drive: its turns and how it ended, the frames that it put, then its events.
pub(crate) fn print_driven(out: &mut Vec<u8>, driven: Driven) -> Result<(), AllocError>
    ensures { OnOk result (out.new.items ≡ out.old.items ++ drive_lines driven.turns driven.end driven.frames driven.events) }
{
    print_drove(out, driven.turns, driven.end)?;
    print_frames(out, driven.frames.as_slice())?;
    print_told(out, &driven.events)
}
