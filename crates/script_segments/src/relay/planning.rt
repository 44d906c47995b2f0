//! What the lines of a script set up for two segments, line by line.
use crate::relay::gateway::Gateway;
use crate::relay::obeying::obey_line;
use line_faults::{Fault, LineError};
use script_runs::Planner;
use std::alloc::Global;

impl Planner for Gateway {
    ghost use Rattle.script_segments.specs.Gateway.{Plans, plans_of, grammar, HasRoom};

    ghost State = { Plans };

    ghost state = { plans_of };

    ghost lines = { grammar };

    ghost has_room = { HasRoom };

    fn obey_line(&mut self, alloc: Global, line: &[u8]) -> Result<(), LineError> {
        obey_line(alloc, self, line)
    }

    /// A script has two segments.
    fn wrong_end(&self) -> Option<Fault> {
        if self.has_first() && self.is_made() {
            return None;
        }
        Some(Fault::NoStations)
    }

    fn laws() {}
}
