//! Wrong lines.
ghost use Rattle.std.specs.Prelude.{◌≡◌, true, OnOk};
ghost use Rattle.bus_node.specs.WrongLines.{wrong_told};

use crate::node::Node;
use line_faults::{Cause, Fault, ScriptFault};
use script_text::print_text;
use std::alloc::AllocError;

impl Node {
    /// Each run ends from now on at its first wrong line, which is its fault. Before this call wrong lines are reported
    /// and passed over.
    pub fn end_at_wrong_line(&mut self)
        ensures { self.new ≡ record self.old { strict = true } }
    {
        self.strict = true;
    }

    /// A wrong line is reported by its number and its first fault, and counted.
    pub(crate) fn tell_wrong(&mut self, fault: Fault) -> Result<(), AllocError>
        ensures { OnOk result (self.new ≡ wrong_told self.old fault) }
    {
        let told = ScriptFault {
            line: self.counts.lines,
            cause: Cause::Fault(fault),
        };
        self.counts.add_wrong();
        let told = format!(in self.alloc; "{told}")?;
        print_text(&mut self.text, told.as_str())
    }
}
