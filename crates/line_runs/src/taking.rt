//! The next line of an input: it is looked at in the reader's buffer, and copied only if it crosses the buffer's end.
ghost use Rattle.std.specs.Prelude.{◌≡◌, ◌<◌, ◌-◌, ◌^◌, true, false};
ghost use Rattle.std.specs.Io.KnownBytes.{Keeps};
ghost use Rattle.line_runs.specs.Taking.{Obeys, IsFlushedAfter, Takes, TakesBoth, TakesHeld};

use crate::limits::{Limits, next_line};
use crate::running::{Obeyer, Told};
use crate::telling::{flush_told, tell_both};
use line_faults::{Cause, cause_of};
use std::alloc::Global;
use std::io::{BufRead, ErrorKind, Write};
use text_lines::held_line;

/// A run, up to its next line.
#[derive(Clone, Copy)]
pub(crate) struct Run {
    /// The number of its next line. Lines count from 1.
    pub(crate) number: u64,
    /// Whether a line found no memory.
    pub(crate) memory_refused: bool,
    /// Whether all that was written in the text is flushed.
    pub(crate) is_flushed: bool,
}

/// Obeys the next line, and writes its output.
fn obey<T: Write, L: Write, O: Obeyer>(
    alloc: Global,
    obeyer: &mut O,
    run: &mut Run,
    line: &[u8],
    text: &mut T,
    log: &mut L,
) -> Result<(), Cause>
    requires { run.old.number < 2 ^ 64 - 1 }
    ensures in_text { Obeys result O.in_text O.kept (O.state obeyer.old) (O.state obeyer.new) run.old run.new line.now (T.contents text.old) (T.contents text.new) }
    ensures in_log { Obeys result O.in_log O.kept (O.state obeyer.old) (O.state obeyer.new) run.old run.new line.now (L.contents log.old) (L.contents log.new) }
    ensures lacking { run.new.memory_refused ≡ true → run.old.memory_refused ≡ false → O.may_lack }
{
    let told = match obeyer.obey_line(alloc, line) {
        Ok(told) => told,
        Err(error) => return Err(cause_of(error)),
    };
    run.memory_refused = told.or_refused(run.memory_refused);
    let Ok(()) = tell_both(text, log, obeyer, &mut run.is_flushed) else {
        return Err(Cause::WriteFailed);
    };
    run.number += 1;
    Ok(())
}

/// Flushes the output of a line that was obeyed, unless more lines are there. There was a line, if nothing failed.
fn flush_after<W: Write>(
    obeyed: Result<(), Cause>,
    has_more: bool,
    is_flushed: &mut bool,
    text: &mut W,
) -> Result<bool, Cause>
    ensures kept { Keeps (W.contents text.old) (W.contents text.new) }
    ensures result { IsFlushedAfter obeyed result }
{
    match obeyed {
        Ok(()) => {}
        Err(cause) => return Err(cause),
    }
    if has_more {
        return Ok(true);
    }
    let Ok(()) = flush_told(is_flushed, text) else {
        return Err(Cause::WriteFailed);
    };
    Ok(true)
}

/// Takes the next line from the reader's buffer, and says whether there was one. If a part of it isn't in the buffer, or it is above the limits,
/// it isn't taken, and the answer is None. If the buffer ends with the line, the reader waits for more when it is asked next, so the output is
/// flushed.
fn take_held<R: BufRead, T: Write, L: Write, O: Obeyer>(
    alloc: Global,
    limits: &Limits,
    obeyer: &mut O,
    run: &mut Run,
    reader: &mut R,
    text: &mut T,
    log: &mut L,
) -> Option<Result<bool, Cause>>
    requires { limits.now.lines < 2 ^ 64 - 1 }
    ensures taken { TakesHeld result limits.now O.in_text O.in_log O.kept (O.state obeyer.old) (O.state obeyer.new) run.old run.new (R.remaining reader.old) (R.remaining reader.new) (T.contents text.old) (T.contents text.new) (L.contents log.old) (L.contents log.new) }
    ensures lacking { run.new.memory_refused ≡ true → run.old.memory_refused ≡ false → O.may_lack }
{
    if run.number > limits.lines {
        return None;
    }
    let held = match reader.fill_buf() {
        Ok(held) => held,
        Err(e) => {
            return if e.kind() == ErrorKind::Interrupted {
                None
            } else {
                Some(Err(Cause::ReadFailed))
            };
        }
    };
    let count = held.len();
    if count == 0 {
        return Some(Ok(false));
    }
    let Some(len) = held_line(limits.bytes, held) else {
        return None;
    };
    let obeyed = obey(alloc, obeyer, run, &held[..len], text, log);
    reader.consume(len + 1);
    Some(flush_after(obeyed, len + 1 < count, &mut run.is_flushed, text))
}

/// Reads the next line to its end, and takes it.
fn take_copied<R: BufRead, T: Write, L: Write, O: Obeyer>(
    alloc: Global,
    limits: &Limits,
    obeyer: &mut O,
    run: &mut Run,
    line: &mut Vec<u8>,
    reader: &mut R,
    text: &mut T,
    log: &mut L,
) -> Result<bool, Cause>
    requires { limits.now.lines < 2 ^ 64 - 1 }
    ensures taken { TakesBoth result limits.now O.in_text O.in_log O.kept (O.state obeyer.old) (O.state obeyer.new) run.old run.new (R.remaining reader.old) (R.remaining reader.new) (T.contents text.old) (T.contents text.new) (L.contents log.old) (L.contents log.new) }
    ensures lacking { run.new.memory_refused ≡ true → run.old.memory_refused ≡ false → O.may_lack }
{
    match next_line(limits, run.number, reader, line) {
        Ok(true) => {}
        Ok(false) => return Ok(false),
        Err(cause) => return Err(cause),
    }
    let obeyed = obey(alloc, obeyer, run, line.as_slice(), text, log);
    flush_after(obeyed, false, &mut run.is_flushed, text)
}

/// Takes the next line, and says whether there was one. The output is flushed before the reader is asked for more than it holds.
pub(crate) fn take_next<R: BufRead, T: Write, L: Write, O: Obeyer>(
    alloc: Global,
    limits: &Limits,
    obeyer: &mut O,
    run: &mut Run,
    line: &mut Vec<u8>,
    reader: &mut R,
    text: &mut T,
    log: &mut L,
) -> Result<bool, Cause>
    requires { limits.now.lines < 2 ^ 64 - 1 }
    ensures in_text { Takes result limits.now O.in_text O.kept (O.state obeyer.old) (O.state obeyer.new) run.old run.new (R.remaining reader.old) (R.remaining reader.new) (T.contents text.old) (T.contents text.new) }
    ensures in_log { Takes result limits.now O.in_log O.kept (O.state obeyer.old) (O.state obeyer.new) run.old run.new (R.remaining reader.old) (R.remaining reader.new) (L.contents log.old) (L.contents log.new) }
    ensures lacking { run.new.memory_refused ≡ true → run.old.memory_refused ≡ false → O.may_lack }
{
    match take_held(alloc, limits, obeyer, run, reader, text, log) {
        Some(taken) => return taken,
        None => {}
    }
    let Ok(()) = flush_told(&mut run.is_flushed, text) else {
        return Err(Cause::WriteFailed);
    };
    take_copied(alloc, limits, obeyer, run, line, reader, text, log)
}
