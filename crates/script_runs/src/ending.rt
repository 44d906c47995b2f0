//! How a run of a script by threads ended.
ghost use Rattle.std.specs.Prelude.{◌≡◌, Some, false};
ghost use Rattle.script_runs.specs.Ending.{live_fault_line, lost_fault, ended_by, failed_at, status_of};
ghost use Rattle.script_runs.specs.declared.ending.Lost.TheVariants.{OutOfMemory};

use line_faults::{Cause, ScriptFault};
use std::alloc::AllocError;
use std::fmt;

/// Why a run ended before its end.
#[derive(Clone, Copy)]
pub enum LiveFault {
    /// As a script ends; a fault behind its last line has line 0.
    Script(ScriptFault),
    /// What the threads hold at the end isn't of the segment that they shared.
    NotThisSegment,
}

/// How a run ended: before its end, by a fault; or else with all messages done, unless the turns ran out.
#[derive(Clone, Copy)]
pub struct LiveRan {
    pub fault: Option<LiveFault>,
    pub ran_out: bool,
}

impl LiveRan {
    /// The status of a program that made this run: 0 if all was done, 1 at a fault, 3 if the turns ran out.
    pub fn status(&self) -> u8
        ensures { result ≡ status_of self.now }
    {
        if self.fault.is_some() {
            return 1;
        }
        if self.ran_out {
            return 3;
        }
        0
    }
}

impl fmt::Display for LiveFault {
    ghost output = { λ f. Some (live_fault_line f) };

    fn fmt<W: fmt::Write>(&self, f: &mut fmt::Formatter<W>) -> fmt::Result {
        match self {
            LiveFault::Script(fault) => write!(f, "{fault}"),
            LiveFault::NotThisSegment => write!(f, "refused 30 NotThisSegment"),
        }
    }
}

/// Why there is no text of what the threads leave.
#[derive(Clone, Copy, Debug, PartialEq, Eq)]
pub enum Lost {
    /// Memory was refused.
    OutOfMemory,
    /// The segment that the threads leave isn't the one that was set up.
    NotThisSegment,
}

impl From<AllocError> for Lost {
    ghost from_gives = { λ _ e. e ≡ OutOfMemory };

    fn from(_: AllocError) -> Lost {
        Lost::OutOfMemory
    }
}

/// The text of a run of threads, and whether their turns ran out.
#[derive(Drop)]
pub struct Told {
    pub text: Vec<u8>,
    pub ran_out: bool,
}

/// A run that ended at this line.
pub(crate) fn failed(line: u64, cause: Cause) -> LiveRan
    ensures { result ≡ failed_at line cause }
{
    LiveRan {
        fault: Some(LiveFault::Script(ScriptFault { line, cause })),
        ran_out: false,
    }
}

/// A run whose threads leave no text.
pub(crate) fn lost_by(lost: Lost) -> LiveRan
    ensures { result ≡ ended_by (lost_fault lost) }
{
    match lost {
        Lost::OutOfMemory => failed(0, Cause::OutOfMemory),
        Lost::NotThisSegment => LiveRan {
            fault: Some(LiveFault::NotThisSegment),
            ran_out: false,
        },
    }
}
