//! A script that is run on a sheet.
ghost use Rattle.std.specs.Prelude.{IfSome};
ghost use Rattle.line_runs.specs.Ending.{Ended};
ghost use Rattle.bus_script.specs.Script.{outcome};

use crate::obeying::obey_line;
use crate::sheet::Sheet;
use line_faults::LineError;
use line_runs::{Limits, Obeyer, Ran, Told, run_lines};
use segment_core::Segment;
use std::alloc::Global;
use std::io::{BufRead, Write};

/// The segment of a script, once it is made, and the telling of the last line.
#[derive(Drop)]
struct Script<S> {
    segment: Option<Segment>,
    sheet: S,
}

impl<S: Sheet> Obeyer for Script<S> {
    ghost use Rattle.std.specs.Prelude.{Option, ⊤};
    ghost use Rattle.segment_law.specs.Segment.{Segment};
    ghost use Rattle.bus_script.specs.Script.{told_in};

    ghost State = { Option Segment };

    ghost state = { λ s. s.segment };

    ghost in_text = { told_in S.in_text };

    ghost in_log = { told_in S.in_log };

    ghost text_told = { λ s. S.text_shown s.sheet };

    ghost log_told = { λ s. S.log_shown s.sheet };

    ghost kept = { λ _ _. ⊤ };

    #[tactic(auto, using(crate::proofs::Shown::was_told))]
    fn obey_line(&mut self, alloc: Global, line: &[u8]) -> Result<Told, LineError> {
        self.sheet.clear();
        obey_line(alloc, &mut self.segment, line, &mut self.sheet)
    }

    fn text(&self) -> &[u8] {
        self.sheet.text()
    }

    fn log(&self) -> &[u8] {
        self.sheet.log()
    }
}

/// Runs a script: reads its lines to the end of the input, obeys each, and writes what the sheet shows of it, its log first, before the next line
/// is obeyed. It ends at the first fault, at 1,000,001 lines at the latest.
pub fn run_on<R: BufRead, T: Write, L: Write, S: Sheet + Drop>(
    alloc: Global,
    sheet: S,
    reader: &mut R,
    text: &mut T,
    log: &mut L,
) -> Ran
    ensures in_text { IfSome (R.remaining reader.old) (λ script.
        Ended result (T.contents text.old) (T.contents text.new) (outcome S.in_text script)) }
    ensures in_log { IfSome (R.remaining reader.old) (λ script.
        Ended result (L.contents log.old) (L.contents log.new) (outcome S.in_log script)) }
{
    let limits = Limits::of_script();
    let mut script = Script {
        segment: None,
        sheet,
    };
    run_lines(alloc, &limits, &mut script, reader, text, log)
}
