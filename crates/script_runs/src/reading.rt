//! A script that is read whole.
ghost use Rattle.std.specs.Prelude.{◌≡◌, ℕ, Err, IfSome};
ghost use Rattle.line_runs.specs.Limits.{script_limits};
ghost use Rattle.script_runs.specs.Reading.{Grammar, planned_by, Done, IsRead, EachGrows, RoomAfter, RoomBefore};

use line_faults::{Cause, Fault, LineError, ScriptFault, cause_of};
use line_runs::{Limits, next_line};
use std::alloc::Global;
use std::io::BufRead;

/// What the lines of a script set up, one after another.
pub trait Planner {
    // What is set up.
    ghost State: { Type 0 };

    ghost state: { Self → Self.State };

    // What a line leaves of it, and what is wrong with a script that ends at it.
    ghost lines: { Grammar Self.State };

    // There is room for the lines from one of this number on.
    ghost has_room: { Self.State → ℕ → Type 0 };

    /// Does what a line asks for. The first fault is answered. Want of memory is the only other error. A line that isn't obeyed prints
    /// nothing.
    fn obey_line(&mut self, alloc: Global, line: &[u8]) -> Result<(), LineError>
        requires { has_room (state self.old) script_limits.lines }
        ensures { Done lines.text result (state self.old) (state self.new) (lines.step (state self.old) line.now) };

    /// What is wrong if the script ends here.
    fn wrong_end(&self) -> Option<Fault>
        ensures { result ≡ lines.ends (state self.now) };

    /// Each line only adds to the text of refused lines, and takes the room of one line.
    fn laws()
        ensures grows { EachGrows Self.State lines }
        ensures after { RoomAfter Self.State lines has_room }
        ensures before { RoomBefore Self.State has_room };
}

/// Reads a script to its end, or to its first fault, and does what its lines ask for. What is wrong at the end is the fault of the line
/// behind the last one.
pub fn read_script<R: BufRead, S: Planner>(
    alloc: Global,
    reader: &mut R,
    planner: &mut S,
) -> Result<(), ScriptFault>
    requires { S.has_room (S.state planner.old) 1 }
    ensures { IfSome (R.remaining reader.old) (λ script. IsRead S.lines.text result (S.state planner.new) (planned_by S.lines (S.state planner.old) script)) }
{
    S::laws();
    let limits = Limits::of_script();
    let mut line = Vec::new(alloc);
    let mut number = 1;
    'lines: loop {
        match next_line(&limits, number, reader, &mut line) {
            Ok(true) => {}
            Ok(false) => match planner.wrong_end() {
                None => return Ok(()),
                Some(fault) => return fault_at(number, Cause::Fault(fault)),
            },
            Err(cause) => return fault_at(number, cause),
        }
        match planner.obey_line(alloc, line.as_slice()) {
            Ok(()) => {}
            Err(error) => return fault_at(number, cause_of(error)),
        }
        number += 1;
    }
}

fn fault_at(line: u64, cause: Cause) -> Result<(), ScriptFault>
    ensures { result ≡ Err (record { line = line; cause = cause }) }
{
    Err(ScriptFault { line, cause })
}
