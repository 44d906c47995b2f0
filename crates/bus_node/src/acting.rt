//! What a line does.
ghost use Rattle.std.specs.Prelude.{◌≡◌, Ok, OnOk};
ghost use Rattle.bus_node.specs.Acting.{time_in, acted, come_to, followed, obeyed, obey_line, Obeyed, IsUnmet};
ghost use Rattle.bus_node.specs.WrongLines.{wrong_seen};

use crate::interfaces::shown_on;
use crate::node::Node;
use line_faults::{Fault, LineError};
use line_runs::Told;
use node_lines::{NodeLine, read_node_line};
use script_text::print_text;
use std::alloc::{AllocError, Global};

/// The time that a line says, in microseconds.
fn time_in(line: &NodeLine) -> Option<u64>
    ensures { result ≡ time_in line.now }
{
    match line {
        NodeLine::Frame { time, .. } => *time,
        NodeLine::Now(time) => Some(*time),
        NodeLine::Passed => None,
        NodeLine::Command(_) => None,
    }
}

impl Node {
    fn act(&mut self, meant: NodeLine) -> Result<(), AllocError>
        ensures { OnOk result (self.new ≡ acted self.old meant) }
    {
        match meant {
            NodeLine::Passed => Ok(()),
            NodeLine::Now(_) => Ok(()),
            NodeLine::Frame { frame, .. } => self.hear(frame),
            NodeLine::Command(command) => self.command(command),
        }
    }

    // Prints the events that a line before found no memory to print, and advances the clock to the time of a line.
    fn come_to(&mut self, time: Option<u64>) -> Result<(), AllocError>
        ensures { OnOk result (self.new ≡ come_to self.old time) }
    {
        self.tell()?;
        self.pass_time(time)
    }

    // Advances the clock to the time of the line, acts on the line, and then does all that is due at that tick. A frame for which memory
    // was refused before the station took it is missed.
    #[tactic(auto, unfolding(crate::specs::Acting::followed))]
    fn follow(&mut self, meant: NodeLine) -> Result<(), AllocError>
        ensures { OnOk result (self.new ≡ followed self.old meant) }
    {
        match self.come_to(time_in(&meant)) {
            Ok(()) => {}
            Err(error) => {
                self.lose(&meant);
                return Err(error);
            }
        }
        self.act(meant)?;
        self.settle()
    }

    // If a line shows a frame of another node, it is missed.
    fn lose(&mut self, meant: &NodeLine) {
        if let NodeLine::Frame { frame, .. } = meant {
            if !self.is_own(frame) {
                let _told = self.miss();
            }
        }
    }

    // A line that shows a frame of another interface is passed over.
    #[tactic(auto, unfolding(crate::specs::Acting::obeyed))]
    fn obey(&mut self, meant: NodeLine) -> Result<(), AllocError>
        ensures { OnOk result (self.new ≡ obeyed self.old meant) }
    {
        let Some(iface) = shown_on(&meant) else {
            return self.follow(meant);
        };
        if self.is_other(&iface) {
            return self.pass_over(&iface);
        }
        self.join(iface);
        self.follow(meant)
    }

    // A line found no memory.
    fn tell_no_memory(&mut self) -> Result<Told, LineError>
        ensures { IsUnmet result }
    {
        print_text(&mut self.text, "no memory")?;
        Ok(Told::NoMemory)
    }

    // A line means something.
    fn obey_meant(&mut self, meant: NodeLine) -> Result<Told, LineError>
        ensures { Obeyed result self.new (Ok (obeyed self.old meant)) }
    {
        match self.obey(meant) {
            Ok(()) => Ok(Told::Answered),
            Err(_) => self.tell_no_memory(),
        }
    }

    // A line is wrong.
    fn pass_wrong(&mut self, fault: Fault) -> Result<Told, LineError>
        ensures { Obeyed result self.new (wrong_seen self.old fault) }
    {
        if self.strict {
            return Err(LineError::Fault(fault));
        }
        match self.tell_wrong(fault) {
            Ok(()) => Ok(Told::Answered),
            Err(_) => self.tell_no_memory(),
        }
    }

    /// Obeys a line. Its output is then the node's text.
    #[tactic(auto, unfolding(crate::specs::Acting::obey_line))]
    pub(crate) fn act_on(&mut self, alloc: Global, line: &[u8]) -> Result<Told, LineError>
        ensures { Obeyed result self.new (obey_line self.old line.now) }
    {
        self.begin_line();
        match read_node_line(alloc, line) {
            Ok(meant) => self.obey_meant(meant),
            Err(LineError::Fault(fault)) => self.pass_wrong(fault),
            Err(LineError::OutOfMemory) => self.tell_no_memory(),
        }
    }
}
