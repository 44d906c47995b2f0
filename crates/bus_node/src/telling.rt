//! The output of each line, which is the node's text.
use crate::node::Node;
use line_faults::LineError;
use line_runs::{Obeyer, Told};
use std::alloc::Global;

impl Obeyer for Node {
    ghost use Rattle.std.specs.Prelude.{[], ⊤};
    ghost use Rattle.bus_node.specs.Node.{Node};
    ghost use Rattle.bus_node.specs.Outcome.{told_by, logged_by};

    ghost State = { Node };

    ghost state = { λ n. n };

    ghost in_text = { told_by };

    ghost in_log = { logged_by };

    ghost text_told = { λ n. n.text };

    ghost log_told = { λ n. [] };

    ghost kept = { λ _ _. ⊤ };

    #[tactic(auto, using(crate::proofs::LinesTold::was_told, crate::proofs::LinesTold::was_logged))]
    fn obey_line(&mut self, alloc: Global, line: &[u8]) -> Result<Told, LineError> {
        self.act_on(alloc, line)
    }

    fn text(&self) -> &[u8] {
        self.told()
    }

    fn log(&self) -> &[u8] {
        b""
    }
}
