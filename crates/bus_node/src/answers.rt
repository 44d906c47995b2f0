//! The station's answers to calls, and their text.
ghost use Rattle.std.specs.Prelude.{◌≡◌, OnOk};
ghost use Rattle.bus_node.specs.Answers.{IsTold, IsReplied, IsRefused, replied};
ghost use Rattle.bus_node.specs.Node.{with_station};
ghost use Rattle.bus_node.specs.Stations.{missed};

use crate::node::Node;
use message_events::Events;
use one_station::{Missed, NodeError};
use script_text::print_reply;
use segment_core::Reply;
use std::alloc::AllocError;

impl Node {
    /// A call was made on the station or refused, unless it found no memory: the station's events are printed.
    pub(crate) fn tell_of(&mut self, made: Result<(), NodeError>) -> Result<(), AllocError>
        ensures { OnOk result (IsTold self.old made self.new) }
    {
        match made {
            Ok(()) => self.tell(),
            Err(NodeError::Refused(_)) => self.tell(),
            Err(NodeError::ClockPassed) => Err(AllocError),
            Err(NodeError::Starting(_)) => Err(AllocError),
            Err(NodeError::OutOfMemory) => Err(AllocError),
        }
    }

    /// Prints a reply, and then the station's events.
    pub(crate) fn reply(&mut self, reply: &Reply) -> Result<(), AllocError>
        ensures { OnOk result (self.new ≡ replied self.old reply.now) }
    {
        print_reply(&mut self.text, reply)?;
        self.tell()
    }

    /// A command made a call on the station, which refused it, unless that found no memory.
    pub(crate) fn refuse_by(&mut self, error: NodeError) -> Result<(), AllocError>
        ensures { OnOk result (IsRefused self.old error self.new) }
    {
        match error {
            NodeError::Refused(cause) => self.reply(&Reply::Refused(cause)),
            NodeError::ClockPassed => Err(AllocError),
            NodeError::Starting(_) => Err(AllocError),
            NodeError::OutOfMemory => Err(AllocError),
        }
    }

    /// A command made a call on the station, which did or refused it, unless that found no memory.
    pub(crate) fn reply_to(&mut self, made: Result<(), NodeError>) -> Result<(), AllocError>
        ensures { OnOk result (IsReplied self.old made self.new) }
    {
        match made {
            Ok(()) => {
                let done = Reply::Done(Events::none(self.alloc));
                self.reply(&done)
            }
            Err(error) => self.refuse_by(error),
        }
    }

    /// Frames were missed: what is under way ends. If that finds no memory, the station remembers it.
    pub(crate) fn miss(&mut self) -> Result<(), AllocError>
        ensures { OnOk result (self.new ≡ with_station self.old (missed self.old.station)) }
    {
        match self.station.missed() {
            Missed::Ended => self.tell(),
            Missed::Waits => Err(AllocError),
        }
    }
}
