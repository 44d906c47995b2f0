//! The lines of an input, obeyed one by one.
ghost use Rattle.std.specs.Prelude.{◌≡◌, ◌<◌, ◌-◌, ◌^◌, true, Ok, Err, Some, List, ℕ, IfSome, ⊤};
ghost use Rattle.std.specs.Io.KnownBytes.{Keeps};
ghost use Rattle.line_faults.specs.declared.fault.Fault.{Fault};
ghost use Rattle.line_faults.specs.declared.fault.LineError.TheVariants as errors;
ghost use Rattle.line_runs.specs.Outcome.{Steps, Obeyed, or_refused, outcome, left};
ghost use Rattle.line_runs.specs.Ending.{Ended, Left, Kept, IsLastCause, status_of};
ghost use Rattle.line_runs.specs.declared.running.Told.TheVariants.{NoMemory};

use crate::limits::Limits;
use crate::taking::{Run, take_next};
use crate::telling::flush_told;
use line_faults::{Cause, LineError, ScriptFault};
use std::alloc::Global;
use std::io::{BufRead, Write};

/// How a run ended.
#[derive(Clone, Copy)]
pub struct Ran {
    /// Why it ended before the end of the input, if it did.
    pub fault: Option<ScriptFault>,
    /// Whether a line found no memory.
    pub memory_refused: bool,
}

/// The status of a program whose run ended so, with so many wrong lines that were passed over: 0 if it reached the end of its input and no line
/// was wrong, else 1.
pub fn status_of(fault: Option<ScriptFault>, wrong: u64) -> u8
    ensures { result ≡ status_of fault wrong }
{
    match fault {
        None => { if wrong == 0 { 0 } else { 1 } }
        Some(_) => 1,
    }
}

impl Ran {
    /// The status of a program that made this run: 0 if it reached the end of its input, else 1.
    pub fn status(&self) -> u8
        ensures { result ≡ status_of self.now.fault 0 }
    {
        status_of(self.fault, 0)
    }
}

/// How a line was obeyed.
#[derive(Clone, Copy)]
pub enum Told {
    /// The line's text is there.
    Answered,
    /// There was no memory for it.
    NoMemory,
}

impl Told {
    /// Whether this or an earlier line found no memory.
    pub(crate) fn or_refused(self, earlier: bool) -> bool
        ensures { result ≡ or_refused self earlier }
    {
        match self {
            Told::Answered => earlier,
            Told::NoMemory => true,
        }
    }
}

/// An obeyer of the lines of an input, one after another, with two outputs for each: a text, and a log.
pub trait Obeyer {
    // What its lines act on.
    ghost State: { Type 0 };

    ghost state: { Self → Self.State };

    // What a line does, and its output in the text; and in the log.
    ghost in_text: { Steps Self.State };

    ghost in_log: { Steps Self.State };

    // The output of the last line.
    ghost text_told: { Self → List ℕ };

    ghost log_told: { Self → List ℕ };

    // What is kept at a fault of a line, between the state before it and the state that it leaves.
    ghost kept: { Self.State → Self.State → Type 0 };

    // What holds if a line may find no memory, and the next one be obeyed.
    ghost may_lack: { Type 0 } = { ⊤ };

    /// Obeys a line. A wrong line is a fault; want of memory is the only other error.
    fn obey_line(&mut self, alloc: Global, line: &[u8]) -> Result<Told, LineError>
        ensures text { Obeyed result (state self.new) (text_told self.new) (in_text (state self.old) line.now) }
        ensures log { Obeyed result (state self.new) (log_told self.new) (in_log (state self.old) line.now) }
        ensures kept { (f : Fault) → result ≡ Err (errors.Fault f) → kept (state self.old) (state self.new) }
        ensures lacking { result ≡ Ok NoMemory → may_lack };

    /// The last line's output in the text.
    fn text(&self) -> &[u8]
        ensures { result.now ≡ text_told self.now };

    /// The last line's output in the log.
    fn log(&self) -> &[u8]
        ensures { result.now ≡ log_told self.now };
}

fn failed(line: u64, cause: Cause, memory_refused: bool) -> Ran
    ensures { result ≡ record { fault = Some (record { line = line; cause = cause }); memory_refused = memory_refused } }
{
    Ran {
        fault: Some(ScriptFault { line, cause }),
        memory_refused,
    }
}

/// Why the run ends. What was written before is flushed; a writer that fails then is why.
fn last_cause<W: Write>(cause: Cause, is_flushed: &mut bool, writer: &mut W) -> Cause
    ensures kept { Keeps (W.contents writer.old) (W.contents writer.new) }
    ensures cause { IsLastCause cause result }
    ensures flushed { is_flushed.old ≡ true → result ≡ cause }
{
    let Ok(()) = flush_told(is_flushed, writer) else {
        return Cause::WriteFailed;
    };
    cause
}

/// Reads the lines of an input to its end, obeys each, and writes its output, the log first, before the next one is obeyed. The log is flushed at
/// once. The text is flushed before more is written in the log, and before the reader is asked for more than it holds: at the latest when it holds
/// no further whole line, and at the end. It ends at the first fault.
///
/// Unless it reports a failed read or write or refused memory, exactly the text and the log of the input were written, and the fault is the
/// input's. If it reports a failed read or write, or memory that was refused outside a line and in none, fronts of both were written. After
/// a line that found no memory the run continues, and then nothing is promised of them. A run to the end of the input leaves its obeyer in
/// the state that the lines lead to; one that ends at a fault of the input leaves what is kept at a fault of the state before it. A line is looked
/// at in the reader's buffer; one that crosses the end of the buffer is copied, which takes memory for it.
pub fn run_lines<R: BufRead, T: Write, L: Write, O: Obeyer>(
    alloc: Global,
    limits: &Limits,
    obeyer: &mut O,
    reader: &mut R,
    text: &mut T,
    log: &mut L,
) -> Ran
    requires { limits.now.lines < 2 ^ 64 - 1 }
    ensures in_text { IfSome (R.remaining reader.old) (λ input.
        Ended result (T.contents text.old) (T.contents text.new) (outcome limits.now O.in_text (O.state obeyer.old) input)) }
    ensures in_log { IfSome (R.remaining reader.old) (λ input.
        Ended result (L.contents log.old) (L.contents log.new) (outcome limits.now O.in_log (O.state obeyer.old) input)) }
    ensures left { IfSome (R.remaining reader.old) (λ input.
        Left result (O.state obeyer.new) (left limits.now O.in_text (O.state obeyer.old) input)) }
    ensures kept { IfSome (R.remaining reader.old) (λ input.
        Kept O.kept result (O.state obeyer.new) (left limits.now O.in_text (O.state obeyer.old) input)) }
    ensures lacking { result.memory_refused ≡ true → O.may_lack }
{
    let mut run = Run {
        number: 1,
        memory_refused: false,
        is_flushed: true,
    };
    let mut line = Vec::new(alloc);
    'lines: loop {
        match take_next(
            alloc, limits, obeyer, &mut run, &mut line, reader, text, log,
        ) {
            Ok(true) => {}
            Ok(false) => {
                let Ok(()) = flush_told(&mut run.is_flushed, text) else {
                    return failed(run.number, Cause::WriteFailed, run.memory_refused);
                };
                return Ran {
                    fault: None,
                    memory_refused: run.memory_refused,
                };
            }
            Err(cause) => {
                let cause = last_cause(cause, &mut run.is_flushed, text);
                return failed(run.number, cause, run.memory_refused);
            }
        }
    }
}
