//! A node's input, read and obeyed line by line.
ghost use Rattle.std.specs.Prelude.{◌≡◌, IfSome};
ghost use Rattle.bus_node.specs.Outcome.{node_limits, outcome, left};
ghost use Rattle.line_runs.specs.Ending.{status_of};
ghost use Rattle.bus_node.specs.Ending.{Ended, Left};

use crate::line_counts::LineCounts;
use crate::node::Node;
use line_faults::ScriptFault;
use line_runs::{Limits, run_lines, status_of};
use std::alloc::Global;
use std::io;
use std::io::{BufRead, Write};

/// The most bytes that a line may have: a `send` of 117,440,505 bytes, the longest message, in pairs of digits, and 90 bytes for the words
/// before them.
const MAX_LINE: usize = 234_881_100;

/// How a run ended.
#[derive(Clone, Copy)]
pub struct Ran {
    /// Why it ended before the end of the input, if it did.
    pub fault: Option<ScriptFault>,
    /// Whether a line found no memory.
    pub memory_refused: bool,
    /// How many lines were read so far, and how many of them were wrong.
    pub counts: LineCounts,
}

impl Ran {
    /// The status of a program that made this run: 0 if it reached the end of its input and no line was wrong, else 1.
    pub fn status(&self) -> u8
        ensures { result ≡ status_of self.now.fault self.now.counts.wrong }
    {
        status_of(self.fault, self.counts.wrong)
    }
}

fn node_limits() -> Limits
    ensures { result ≡ node_limits }
{
    Limits {
        lines: u64::MAX - 1,
        bytes: MAX_LINE,
    }
}

/// Runs a node: reads lines to the end of the input, obeys each, and writes its output before the next line is obeyed. That is flushed before the
/// reader is asked for more than it holds, so nobody waits for an answer. A wrong line is reported by its number and passed over, unless the node
/// ends at one (`Node::end_at_wrong_line`). Numbers begin with 1 at each run. It ends at the first fault: such a line, one of more than 234,881,100
/// bytes, or a line above 2^64 - 2.
///
/// Unless it reports a failed read or write or refused memory, exactly the text of the input was written, and the fault is the input's; if
/// there is none, the node is the one that the input leaves, and all its lines are counted. If it reports a failed read or write, or memory
/// that was refused outside a line's calls and in none, a front of that text was written. A line that finds no memory prints `no memory`, the
/// run continues, and then nothing is promised of the text, the node and the counts.
#[tactic(auto, using(crate::proofs::Ends::counted))]
pub fn run_node<R: BufRead, W: Write>(
    alloc: Global,
    node: &mut Node,
    reader: &mut R,
    writer: &mut W,
) -> Ran
    ensures text { IfSome (R.remaining reader.old) (λ input.
        Ended result (W.contents writer.old) (W.contents writer.new) (outcome node.old input)) }
    ensures left { IfSome (R.remaining reader.old) (λ input. Left result node.new (left node.old input)) }
{
    let limits = node_limits();
    let mut nowhere = io::sink();
    node.begin_input();
    let ran = run_lines(alloc, &limits, node, reader, writer, &mut nowhere);
    Ran {
        fault: ran.fault,
        memory_refused: ran.memory_refused,
        counts: node.counts,
    }
}
