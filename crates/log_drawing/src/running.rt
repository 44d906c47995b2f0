//! A log, read and drawn line by line.
ghost use Rattle.std.specs.Prelude.{◌≡◌, IfSome, MatchResult, Some};
ghost use Rattle.std.specs.Io.KnownBytes.{Appends};
ghost use Rattle.text_lines.specs.Known.{IsFront};
ghost use Rattle.log_drawing.specs.Packets.{closing};
ghost use Rattle.log_drawing.specs.Outcome.{outcome, closed};
ghost use Rattle.log_drawing.specs.Ending.{at_line, WrittenAs, Says, Stopped, Ended, status_of};

use crate::counts::Counts;
use crate::options::Options;
use crate::packets::draw_open;
use crate::picture::Picture;
use line_faults::{Cause, Fault, ScriptFault};
use line_runs::{Limits, next_line};
use std::alloc::Global;
use std::io::{BufRead, Write};
use text_lines::tell;

/// The result of drawing a log.
#[derive(Clone, Copy)]
pub struct Drawn {
    /// What was counted.
    pub counts: Counts,
    /// Why it wasn't read to its end, if it wasn't. A wrong line that ends the drawing is no fault: it is counted.
    pub fault: Option<ScriptFault>,
}

impl Drawn {
    /// The status of a program that made this drawing: 0 if the log was read to its end, no line of it was wrong and a frame was drawn, else
    /// 1.
    pub fn status(&self) -> u8
        ensures { result ≡ status_of self.now }
    {
        match self.fault {
            None => {
                if self.counts.wrong == 0 && self.counts.drawn != 0 {
                    0
                } else {
                    1
                }
            }
            Some(_) => 1,
        }
    }
}

fn failed(line: u64, cause: Cause, counts: Counts) -> Drawn
    ensures { result ≡ record { counts = counts; fault = Some (record { line = line; cause = cause }) } }
{
    Drawn {
        counts,
        fault: Some(ScriptFault { line, cause }),
    }
}

/// Nothing is read any more, at the end of the log or at a fault of this line: the packets that are open are drawn.
#[tactic(auto, using(text_lines::proofs::Known::front_none))]
fn end_run<W: Write>(
    picture: &Picture,
    line: u64,
    fault: Option<Fault>,
    out: &mut Vec<u8>,
    writer: &mut W,
) -> Drawn
    ensures text { WrittenAs result (W.contents writer.old) (W.contents writer.new) (closing picture.now.packets) }
    ensures told { Says result (closed picture.now (at_line line fault)) }
{
    let counts = picture.counts;
    out.clear();
    let Ok(()) = draw_open(out, picture.packets) else {
        return failed(line, Cause::OutOfMemory, counts);
    };
    let Ok(()) = tell(writer, out.as_slice()) else {
        return failed(line, Cause::WriteFailed, counts);
    };
    let Some(fault) = fault else {
        return Drawn {
            counts,
            fault: None,
        };
    };
    failed(line, Cause::Fault(fault), counts)
}

/// No line was read, for this cause. If it is no fault of the line, nothing more is drawn: packets that follow may be there.
fn stop<W: Write>(
    picture: &Picture,
    line: u64,
    cause: Cause,
    out: &mut Vec<u8>,
    writer: &mut W,
) -> Drawn
    ensures { Stopped cause result (W.contents writer.old) (W.contents writer.new) picture.now line }
{
    match cause {
        Cause::Fault(fault) => end_run(picture, line, Some(fault), out, writer),
        Cause::ReadFailed => failed(line, cause, picture.counts),
        Cause::WriteFailed => failed(line, cause, picture.counts),
        Cause::OutOfMemory => failed(line, cause, picture.counts),
    }
}

/// Writes and flushes the output of a line, the report that it is wrong first. If that fails, a front of each was written.
#[tactic(auto, using(crate::proofs::RunSteps::front_all, text_lines::proofs::Known::front_none))]
fn tell_both<W: Write, E: Write>(
    writer: &mut W,
    errors: &mut E,
    text: &[u8],
    told: &[u8],
) -> Result<(), ()>
    ensures text { MatchResult result (λ _. Appends (W.contents writer.old) (W.contents writer.new) text.now)
        (λ _. IsFront (W.contents writer.old) (W.contents writer.new) text.now) }
    ensures errors { MatchResult result (λ _. Appends (E.contents errors.old) (E.contents errors.new) told.now)
        (λ _. IsFront (E.contents errors.old) (E.contents errors.new) told.now) }
{
    let Ok(()) = tell(errors, told) else {
        return Err(());
    };
    tell(writer, text)
}

/// Reads a log to its end, and draws it, as the text of a sequence diagram in Mermaid: in front of the first frame its kind and the pair
/// that is asked for, then an arrow for each frame that is asked for, with its time. Packets that follow one another have one arrow, with
/// the times of the first and of the last. It is drawn once the next frame, or the end of the log, shows that no other one follows.
///
/// The drawing of a line is written and flushed before the next one is read. A wrong line is reported in `errors` by its number, and ends
/// the drawing if the options say so. The call holds one line and its drawing in memory.
///
/// Unless it reports a failed read or write or refused memory, exactly the drawing of the log and the reports of its wrong lines were
/// written, and counts and fault are those of the log. If it reports one of these, fronts of both were written.
pub fn draw_log<R: BufRead, W: Write, E: Write>(
    alloc: Global,
    options: &Options,
    reader: &mut R,
    writer: &mut W,
    errors: &mut E,
) -> Drawn
    ensures { IfSome (R.remaining reader.old) (λ log.
        Ended result (W.contents writer.old) (W.contents writer.new) (E.contents errors.old) (E.contents errors.new) (outcome options.now log)) }
{
    let limits = Limits::of_log();
    let mut picture = Picture::new(options);
    let mut line = Vec::new(alloc);
    let mut out = Vec::new(alloc);
    let mut told = Vec::new(alloc);
    let mut number = 1;
    'lines: loop {
        match next_line(&limits, number, reader, &mut line) {
            Ok(true) => {}
            Ok(false) => return end_run(&picture, number, None, &mut out, writer),
            Err(cause) => return stop(&picture, number, cause, &mut out, writer),
        }
        out.clear();
        told.clear();
        let Ok(()) = picture.take_line(options, number, line.as_slice(), &mut out, &mut told) else {
            return failed(number, Cause::OutOfMemory, picture.counts);
        };
        let Ok(()) = tell_both(writer, errors, out.as_slice(), told.as_slice()) else {
            return failed(number, Cause::WriteFailed, picture.counts);
        };
        if picture.is_ended(options) {
            return end_run(&picture, number, None, &mut out, writer);
        }
        number += 1;
    }
}
