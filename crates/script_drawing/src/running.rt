//! A script, read, obeyed and drawn line by line.
ghost use Rattle.std.specs.Prelude.{IfSome};
ghost use Rattle.line_runs.specs.Ending.{Ended};
ghost use Rattle.bus_script.specs.Script.{outcome};
ghost use Rattle.script_drawing.specs.Drawing.{drawing_of};

use crate::drawing::Drawing;
use bus_script::{Ran, run_on};
use std::alloc::Global;
use std::io;
use std::io::{BufRead, Write};

/// Runs a script as `bus_script::run_script` does, and draws it, as the text of a sequence diagram in Mermaid: the stations as participants
/// once the segment is made, an arrow for each frame that is put, and a note for each event. Packets of one line that follow on one another
/// have one arrow. What a line draws is written before the next line is obeyed, and flushed before the reader is asked for more
/// than it holds; replies aren't drawn.
///
/// Unless the run reports a failed read or write or refused memory, exactly the drawing of the script was written, and the fault is the
/// script's. If it reports a failed read or write, or memory that was refused outside a call and in none, a front of that text was written.
/// A call that finds no memory draws nothing, the run continues, and then nothing is promised of the text.
pub fn draw_script<R: BufRead, W: Write>(alloc: Global, reader: &mut R, writer: &mut W) -> Ran
    ensures { IfSome (R.remaining reader.old) (λ script.
        Ended result (W.contents writer.old) (W.contents writer.new) (outcome drawing_of script)) }
{
    let mut nowhere = io::sink();
    run_on(alloc, Drawing::new(alloc), reader, writer, &mut nowhere)
}
