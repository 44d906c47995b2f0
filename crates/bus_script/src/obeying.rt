//! What a line does, and its telling.
ghost use Rattle.std.specs.Prelude.{◌≡◌, Some, None};
ghost use Rattle.script_commands.specs.Words.{texts};
ghost use Rattle.bus_script.specs.Script.{Obeyed, frame_put, made, called, drains, on_segment, perform, obey_words, obey_line};

use crate::draining::told_as;
use crate::sheet::Sheet;
use bus_frame::Frame;
use line_faults::{Fault, LineError};
use line_runs::Told;
use script_commands::{Addresses, Command, is_ascii, read_command, split_words};
use segment_core::{Call, NewRefused, Refusal, Segment};
use std::alloc::Global;

/// The frame that a call puts on the bus if it is done.
fn frame_put(segment: &Segment, call: &Call) -> Option<Frame>
    ensures { result ≡ frame_put segment.entry.now call.now }
{
    match call {
        Call::Transmit { station } => segment.front(*station),
        Call::Inject { frame } => Some(*frame),
        _ => None,
    }
}

/// The segment is made.
fn make<S: Sheet>(
    alloc: Global,
    segment: &mut Option<Segment>,
    addresses: &Addresses,
    sheet: &mut S,
) -> Result<Told, LineError>
    requires { segment.old ≡ None }
    ensures text { Obeyed S.in_text result segment.new (S.text_shown sheet.old) (S.text_shown sheet.new) (made addresses.now) }
    ensures log { Obeyed S.in_log result segment.new (S.log_shown sheet.old) (S.log_shown sheet.new) (made addresses.now) }
{
    match Segment::new(alloc, addresses.as_slice()) {
        Ok(made) => {
            *segment = Some(made);
            sheet.show_made(addresses.as_slice())?;
            Ok(Told::Answered)
        }
        Err(NewRefused::BadAddresses) => {
            sheet.show_refused(Refusal::BadAddresses)?;
            Ok(Told::Answered)
        }
        Err(NewRefused::OutOfMemory) => Err(LineError::OutOfMemory),
    }
}

/// A call is made.
fn call<S: Sheet>(segment: &mut Segment, call: Call, sheet: &mut S) -> Result<Told, LineError>
    ensures text { Obeyed S.in_text result (Some segment.new) (S.text_shown sheet.old) (S.text_shown sheet.new) (called segment.old call) }
    ensures log { Obeyed S.in_log result (Some segment.new) (S.log_shown sheet.old) (S.log_shown sheet.new) (called segment.old call) }
{
    let put = frame_put(segment, &call);
    let now = segment.now();
    let Ok(reply) = segment.apply(call) else {
        sheet.show_no_memory()?;
        return Ok(Told::NoMemory);
    };
    sheet.show_reply(now, put, reply)?;
    Ok(Told::Answered)
}

/// The segment is drained.
fn drain<S: Sheet>(
    alloc: Global,
    segment: &mut Segment,
    turns: u64,
    sheet: &mut S,
) -> Result<Told, LineError>
    ensures text { Obeyed S.in_text result (Some segment.new) (S.text_shown sheet.old) (S.text_shown sheet.new) (drains segment.old turns) }
    ensures log { Obeyed S.in_log result (Some segment.new) (S.log_shown sheet.old) (S.log_shown sheet.new) (drains segment.old turns) }
{
    let done = segment_drain::drain(alloc, segment, turns);
    sheet.show_drained(&done)?;
    Ok(told_as(done.end))
}

/// A command to a segment that is there.
fn on_segment<S: Sheet>(
    alloc: Global,
    segment: &mut Segment,
    command: Command,
    sheet: &mut S,
) -> Result<Told, LineError>
    ensures text { Obeyed S.in_text result (Some segment.new) (S.text_shown sheet.old) (S.text_shown sheet.new) (on_segment segment.old command) }
    ensures log { Obeyed S.in_log result (Some segment.new) (S.log_shown sheet.old) (S.log_shown sheet.new) (on_segment segment.old command) }
{
    match command {
        Command::Stations(_) => Err(LineError::Fault(Fault::StationsTwice)),
        Command::Call(asked) => call(segment, asked, sheet),
        Command::Drive { from, to, turns } => sheet.drive(segment, from, to, turns),
        Command::Drain { turns } => drain(alloc, segment, turns, sheet),
        Command::Counts => {
            sheet.show_counts(segment.counts())?;
            Ok(Told::Answered)
        }
        Command::Refused(cause) => {
            sheet.show_refused(cause)?;
            Ok(Told::Answered)
        }
    }
}

#[tactic(auto, unfolding(crate::specs::Script::perform))]
fn perform<S: Sheet>(
    alloc: Global,
    segment: &mut Option<Segment>,
    command: Command,
    sheet: &mut S,
) -> Result<Told, LineError>
    ensures text { Obeyed S.in_text result segment.new (S.text_shown sheet.old) (S.text_shown sheet.new) (perform segment.old command) }
    ensures log { Obeyed S.in_log result segment.new (S.log_shown sheet.old) (S.log_shown sheet.new) (perform segment.old command) }
{
    if let Some(made) = segment {
        return on_segment(alloc, made, command, sheet);
    }
    match command {
        Command::Stations(addresses) => make(alloc, segment, &addresses, sheet),
        _ => Err(LineError::Fault(Fault::NoStations)),
    }
}

#[tactic(auto, unfolding(crate::specs::Script::obey_words))]
fn obey_words<S: Sheet>(
    alloc: Global,
    segment: &mut Option<Segment>,
    words: &[&[u8]],
    sheet: &mut S,
) -> Result<Told, LineError>
    ensures text { Obeyed S.in_text result segment.new (S.text_shown sheet.old) (S.text_shown sheet.new) (obey_words segment.old (texts words.now)) }
    ensures log { Obeyed S.in_log result segment.new (S.log_shown sheet.old) (S.log_shown sheet.new) (obey_words segment.old (texts words.now)) }
{
    let [name, words @ ..] = words else {
        return Ok(Told::Answered);
    };
    match read_command(alloc, *name, words) {
        Ok(command) => perform(alloc, segment, command, sheet),
        Err(error) => Err(error),
    }
}

/// Obeys a line, and shows its telling behind what the sheet has.
#[tactic(auto, unfolding(crate::specs::Script::obey_line))]
pub(crate) fn obey_line<S: Sheet>(
    alloc: Global,
    segment: &mut Option<Segment>,
    line: &[u8],
    sheet: &mut S,
) -> Result<Told, LineError>
    ensures text { Obeyed S.in_text result segment.new (S.text_shown sheet.old) (S.text_shown sheet.new) (obey_line segment.old line.now) }
    ensures log { Obeyed S.in_log result segment.new (S.log_shown sheet.old) (S.log_shown sheet.new) (obey_line segment.old line.now) }
{
    if !is_ascii(line) {
        return Err(LineError::Fault(Fault::NotAscii));
    }
    let Ok(words) = split_words(alloc, line) else {
        return Err(LineError::OutOfMemory);
    };
    obey_words(alloc, segment, words.as_slice(), sheet)
}
