//! The lines of a log, one after another.
ghost use Rattle.std.specs.Prelude.{◌≡◌, None};
ghost use Rattle.log_courses.specs.Course.{more};
ghost use Rattle.bus_decode.specs.Counts.{no_counts};
ghost use Rattle.bus_decode.specs.Listening.{first_listener};
ghost use Rattle.bus_decode.specs.Outcome.{error_of};

use crate::counts::Counts;
use crate::listener::Listener;
use crate::listening::{LineError, take_line};
use crate::options::Options;
use line_faults::{Fault, LineError as ScriptError};
use line_runs::{Obeyer, Told};
use log_text::Form;
use std::alloc::Global;

/// A log that is read, up to its next line.
#[derive(Drop)]
pub(crate) struct Run<'a> {
    pub(crate) options: &'a Options,
    pub(crate) listener: Listener,
    /// The form of its lines, if one had any.
    pub(crate) form: Option<Form>,
    pub(crate) counts: Counts,
    /// The output of the last line.
    pub(crate) told: Vec<u8>,
}

impl<'a> Run<'a> {
    /// No line was read. It takes no memory.
    pub(crate) fn new(alloc: Global, options: &'a Options) -> Run<'a>
        ensures options { result.options.now ≡ options.entry.now }
        ensures listener { result.listener ≡ first_listener options.entry.now.most }
        ensures form { result.form ≡ None }
        ensures counts { result.counts ≡ no_counts }
    {
        Run {
            options,
            listener: Listener::new(alloc, options.most),
            form: None,
            counts: Counts::none(),
            told: Vec::new(alloc),
        }
    }
}

/// The number of the line behind those that were counted. Lines count from 1.
pub(crate) fn number_behind(counts: &Counts) -> u64
    ensures { result ≡ more counts.now.lines }
{
    counts.lines.saturating_add(1)
}

/// Why a line ends the run.
fn error_of(error: LineError) -> ScriptError
    ensures { result ≡ error_of error }
{
    match error {
        LineError::OutOfMemory => ScriptError::OutOfMemory,
        LineError::NotLogLine => ScriptError::Fault(Fault::NotLogLine),
    }
}

impl<'a> Obeyer for Run<'a> {
    ghost use Rattle.std.specs.Prelude.{◌≡◌, []};
    ghost use Rattle.bus_decode.specs.Outcome.{Reading, told_by, logged_by};

    ghost State = { Reading };

    ghost state = { λ r. (r.options.now, ((r.listener, r.form), r.counts)) };

    ghost in_text = { told_by };

    ghost in_log = { logged_by };

    ghost text_told = { λ r. r.told.items };

    ghost log_told = { λ r. [] };

    // A line that ends the run isn't counted.
    ghost kept = { λ s t. t.1.1 ≡ s.1.1 };

    // At want of memory the run ends.
    ghost may_lack = { ⊥ };

    #[tactic(auto, using(crate::proofs::LinesTold::was_told, crate::proofs::LinesTold::was_logged))]
    fn obey_line(&mut self, alloc: Global, line: &[u8]) -> Result<Told, ScriptError> {
        let before = self.counts;
        self.told.clear();
        let taken = take_line(
            alloc,
            &mut self.listener,
            &mut self.form,
            &mut self.counts,
            self.options,
            number_behind(&before),
            line,
            &mut self.told,
        );
        match taken {
            Ok(()) => Ok(Told::Answered),
            Err(error) => {
                self.counts = before;
                Err(error_of(error))
            }
        }
    }

    fn text(&self) -> &[u8] {
        self.told.as_slice()
    }

    fn log(&self) -> &[u8] {
        b""
    }
}
