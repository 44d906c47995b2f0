//! A lane is driven turn by turn, so that each frame is logged at the clock of its turn.
ghost use Rattle.std.specs.Prelude.{◌≡◌, ◌≢◌, ◌++◌, Some, IfOk, OnOk};
ghost use Rattle.segment_law.specs.Drive.{driven};
ghost use Rattle.segment_law.specs.declared.end.DriveEnd.TheVariants as end;
ghost use Rattle.bus_script.specs.Telling.{log_at, without_frames, frames_alone};
ghost use Rattle.bus_script.specs.Turns.{turns_log};
ghost use Rattle.bus_script.specs.Driving.{told_at, HasDriven};
ghost use Rattle.bus_script.specs.Script.{Obeyed, drove};

use crate::driven::print_told;
use crate::logging::print_logged;
use crate::parted::Parted;
use line_faults::LineError;
use line_runs::Told;
use pgn_ids::Address;
use script_text::print_drove;
use segment_core::{DriveEnd, Segment};
use std::alloc::AllocError;

/// A drive that ended for want of memory is reported as such.
pub(crate) fn told_at(ended: DriveEnd) -> Told
    ensures { result ≡ told_at ended }
{
    match ended {
        DriveEnd::Turns => Told::Answered,
        DriveEnd::Idle => Told::Answered,
        DriveEnd::Refused(_) => Told::Answered,
        DriveEnd::OutOfMemory => Told::NoMemory,
    }
}

/// One turn. Its frame is put into the log, its events below, and nothing is added to the text.
fn log_turn(
    segment: &mut Segment,
    from: Address,
    to: Address,
    page: &mut Parted,
) -> Result<(u64, DriveEnd), AllocError>
    ensures text { page.new.text.items ≡ page.old.text.items }
    ensures drove { IfOk result (λ done. done.1 ≢ end.OutOfMemory
        → HasDriven (driven segment.old from to 1) (log_at segment.new.now (driven segment.old from to 1).frames) segment.new page.old page.new done) }
{
    let driven = segment.drive(from, to, 1);
    print_logged(&mut page.log, segment.now(), driven.frames.as_slice())?;
    print_told(&mut page.below, &driven.events)?;
    Ok((driven.turns, driven.end))
}

/// At most so many turns, one by one: how many put a frame, and how they ended.
fn log_turns(
    segment: &mut Segment,
    from: Address,
    to: Address,
    turns: u64,
    page: &mut Parted,
) -> Result<(u64, DriveEnd), AllocError>
    ensures text { page.new.text.items ≡ page.old.text.items }
    ensures drove { IfOk result (λ done. done.1 ≢ end.OutOfMemory
        → HasDriven (driven segment.old from to turns) (turns_log turns from to segment.old) segment.new page.old page.new done) }
{
    let mut made = 0u64;
    let mut left = turns;
    while left > 0 {
        let (put, ended) = log_turn(segment, from, to, page)?;
        made = made.saturating_add(put);
        left -= 1;
        match ended {
            DriveEnd::Turns => {}
            _ => return Ok((made, ended)),
        }
    }
    Ok((made, DriveEnd::Turns))
}

fn put_bytes(text: &mut Vec<u8>, bytes: &[u8]) -> Result<(), AllocError>
    ensures { OnOk result (text.new.items ≡ text.old.items ++ bytes.now) }
{
    text.extend_from_slice(bytes)
}

/// A lane is driven turn by turn.
pub(crate) fn drive_logged(
    segment: &mut Segment,
    from: Address,
    to: Address,
    turns: u64,
    page: &mut Parted,
) -> Result<Told, LineError>
    ensures text { Obeyed without_frames result (Some segment.new) page.old.text.items page.new.text.items (drove segment.old from to turns) }
    ensures log { Obeyed frames_alone result (Some segment.new) page.old.log.items page.new.log.items (drove segment.old from to turns) }
{
    page.below.clear();
    let (made, ended) = log_turns(segment, from, to, turns, page)?;
    print_drove(&mut page.text, made, ended)?;
    put_bytes(&mut page.text, page.below.as_slice())?;
    Ok(told_at(ended))
}
