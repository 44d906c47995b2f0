//! What the lines of a script set up.
ghost use Rattle.std.specs.Prelude.{◌≡◌, IfOk, map};
ghost use Rattle.script_segments.specs.Plan.{plan_of, first_plan, port_of, Done, refused_by};

use crate::uncut::Uncut;
use line_faults::LineError;
use live_segment::{Bytes, Inbox};
use pgn_ids::{Address, Pgn};
use port_table::PortId;
use script_text::print_refused;
use segment_law::Refusal;
use std::alloc::{AllocError, Global};

/// A message that the thread of a station is to submit.
#[derive(Debug, Drop)]
pub struct Message {
    pub from: Address,
    pub to: Address,
    pub pgn: Pgn,
    pub bytes: Bytes,
}

/// The segment, once there are stations, the inboxes of its ports, how many lines asked for a message, the messages, and the text
/// of what was refused.
#[derive(Drop)]
pub struct Setup {
    pub live: Option<Uncut>,
    pub inboxes: Vec<Inbox>,
    pub sends: u64,
    pub messages: Vec<Message>,
    pub refused: Vec<u8>,
}

impl Setup {
    /// Nothing yet.
    pub fn new(alloc: Global) -> Setup
        ensures { plan_of result ≡ first_plan }
    {
        Setup {
            live: None,
            inboxes: Vec::new(alloc),
            sends: 0,
            messages: Vec::new(alloc),
            refused: Vec::new(alloc),
        }
    }

    /// Prints that a line is refused.
    pub fn refuse(&mut self, alloc: Global, cause: Refusal) -> Result<(), LineError>
        ensures { Done result (plan_of self.old) (plan_of self.new) (refused_by (plan_of self.old) cause) }
    {
        let mut line = Vec::new(alloc);
        print_refused(&mut line, cause)?;
        self.refused.extend_from_slice(line.as_slice())?;
        Ok(())
    }
}

/// The ports of inboxes, in their order. It fails only if memory is refused.
pub fn ports_of(alloc: Global, inboxes: &[Inbox]) -> Result<Vec<PortId>, AllocError>
    ensures { IfOk result (λ ports. ports.items ≡ map port_of inboxes.now) }
{
    let mut ports = Vec::new(alloc);
    for inbox in inboxes {
        ports.push(inbox.port())?;
    }
    Ok(ports)
}
