//! What the lines of a script set up, line by line.
use crate::obeying::obey_line;
use crate::setup::Setup;
use line_faults::{Fault, LineError};
use script_runs::Planner;
use std::alloc::Global;

impl Planner for Setup {
    ghost use Rattle.script_segments.specs.Plan.{Plan, plan_of, grammar, HasRoom};

    ghost State = { Plan };

    ghost state = { plan_of };

    ghost lines = { grammar };

    ghost has_room = { HasRoom };

    fn obey_line(&mut self, alloc: Global, line: &[u8]) -> Result<(), LineError> {
        obey_line(alloc, self, line)
    }

    /// Nothing is: a script may end behind each of its lines.
    fn wrong_end(&self) -> Option<Fault> {
        None
    }

    fn laws() {}
}
