//! What the text of a segment names.
ghost use Rattle.std.specs.Prelude.{IfOk};
ghost use Rattle.script_segments.specs.Plan.{plan_of};
ghost use Rattle.script_segments.specs.Names.{AreNamed};

use crate::setup::{Message, Setup, ports_of};
use pgn_ids::Address;
use port_table::PortId;
use std::alloc::{AllocError, Global};
use std::mem;

/// The stations of a segment, its ports, and the messages that are submitted on it.
#[derive(Drop)]
pub struct Names {
    pub stations: Vec<Address>,
    pub ports: Vec<PortId>,
    pub messages: Vec<Message>,
}

/// The names of what was set up, from which the messages are moved; none if there are no stations. It fails only if memory is
/// refused.
pub fn names_of(alloc: Global, setup: &mut Setup) -> Result<Option<Names>, AllocError>
    ensures { IfOk result (λ names. AreNamed (plan_of setup.old) names) }
{
    let Some(live) = &setup.live else {
        return Ok(None);
    };
    let stations = Vec::from_slice(alloc, live.addresses())?;
    let ports = ports_of(alloc, setup.inboxes.as_slice())?;
    let messages = mem::replace(&mut setup.messages, Vec::new(alloc));
    Ok(Some(Names {
        stations,
        ports,
        messages,
    }))
}
