//! What is written of a run by threads: the lines that are refused before they run, and then the text of what they leave.
ghost use Rattle.script_runs.specs.Ending.{IsRefusedTold, IsRunTold};

use crate::ending::{LiveRan, Lost, Told, failed, lost_by};
use line_faults::{Cause, ScriptFault};
use std::io::Write;
use text_lines::tell;

/// Writes the text of refused lines once a script is read. The run continues if that is written and the script has no fault;
/// else the end of the run is returned.
pub fn tell_refused<W: Write>(
    writer: &mut W,
    refused: &[u8],
    read: Result<(), ScriptFault>,
) -> Option<LiveRan>
    ensures { IsRefusedTold read (W.contents writer.old) (W.contents writer.new) refused.now result }
{
    let Ok(()) = tell(writer, refused) else {
        return Some(failed(0, Cause::WriteFailed));
    };
    match read {
        Ok(()) => None,
        Err(fault) => Some(failed(fault.line, fault.cause)),
    }
}

/// Writes the text of what the threads left, if there is one, and returns how the run ended.
pub fn tell_run<W: Write>(writer: &mut W, told: Result<Told, Lost>) -> LiveRan
    ensures { IsRunTold told (W.contents writer.old) (W.contents writer.new) result }
{
    let told = match told {
        Ok(told) => told,
        Err(lost) => return lost_by(lost),
    };
    let Ok(()) = tell(writer, told.text.as_slice()) else {
        return failed(0, Cause::WriteFailed);
    };
    LiveRan {
        fault: None,
        ran_out: told.ran_out,
    }
}
