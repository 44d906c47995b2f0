//! A node: one station, and its events.
ghost use Rattle.std.specs.Prelude.{◌≡◌, ◌<◌, ◌∷◌, ◌↔◌, [], false, IfOk, IfErr, OnOk, IsErrOf};
ghost use Rattle.segment_law.specs.Segment.{are_addresses};
ghost use Rattle.segment_law.specs.Calls.{called};
ghost use Rattle.segment_law.specs.Record.{StandsAt};
ghost use Rattle.segment_law.specs.declared.call.Call.TheVariants.{Inject};
ghost use Rattle.one_station.specs.Node.{new_node};
ghost use Rattle.one_station.specs.Answers.{IsAnswered, IsStopped};
ghost use Rattle.one_station.specs.Looks.{comes_on_bus};

use crate::error::NodeError;
use bus_frame::Frame;
use node_parts::Told;
use pgn_ids::Address;
use segment_core::{Call, Events, Made, NewRefused, Segment};
use std::alloc::Global;
use std::marker::Model;

/// One station on a bus that the program owns.
///
/// The program gives it each frame that it reads from the bus (`feed`) and the time (`clock`, `fire`), and puts each frame that
/// the node has for the bus (`front`, `sent`). An event, a message given at a port or the outcome of one that was sent, waits
/// until it is taken. If the program lost frames, it says so (`missed`). Nothing changes a node but the calls on it.
pub struct Node {
    pub(crate) alloc: Global,
    pub(crate) segment: Segment,
    pub(crate) address: Address,
    pub(crate) told: Told,
    /// Frames were missed, and what was under way has yet to end.
    pub(crate) has_missed: bool,
    /// The tick before which it sends no message.
    pub(crate) quiet_until: u64,
}

impl Model for Node {
    ghost use Rattle.one_station.specs.Node.{Node};
    ghost use Rattle.one_station.specs.NodeFields.{node_value, IsNodeInside};
    ghost use Rattle.one_station.specs.NodeCode.{node_code};

    ghost Value = { Node };

    ghost coded = { node_code };

    ghost view = { node_value };

    ghost invariant = { IsNodeInside };
}

impl Drop for Node {
    fn drop(self) {
        let Node {
            alloc: _,
            segment: _,
            address: _,
            told: _,
            has_missed: _,
            quiet_until: _,
        } = self;
    }
}

impl Node {
    /// A node with this address, 0 to 253 (SAE J1939-81): its clock is at tick 0, no port is open, and nothing was done yet.
    ///
    /// It may send at once. So it is for an address from which no program sent a message in the last 1,250 ms; else take `again`.
    ///
    /// Refused as `BadAddresses` exactly if the address is 254 or 255, and else as `OutOfMemory` if memory is refused.
    pub fn new(alloc: Global, address: Address) -> Result<Node, NewRefused>
        ensures ok { IfOk result (λ node. node ≡ new_node address) }
        ensures bad { IsErrOf result NewRefused.BadAddresses ↔ (are_addresses (address ∷ []) ≡ false) }
        ensures stands { IfOk result (λ node. StandsAt (address ∷ []) [] node.segment) }
    {
        let segment = Segment::new(alloc, &[address])?;
        let Ok(told) = Told::new(alloc) else {
            return Err(NewRefused::OutOfMemory);
        };
        Ok(Node {
            alloc,
            segment,
            address,
            told,
            has_missed: false,
            quiet_until: 0,
        })
    }

    /// Its address.
    pub fn address(&self) -> Address
        ensures { result ≡ self.now.address }
    {
        self.address
    }

    /// Makes a call of the segment that puts no frame on its bus, and keeps the events. Memory is taken only once the call isn't
    /// refused, and the place for the events before it is made.
    pub(crate) fn make(&mut self, call: Call) -> Result<(), NodeError>
        requires { comes_on_bus call ≡ false }
        ensures { IsAnswered self.old call self.new result }
    {
        make_room(&self.segment, &mut self.told, &call)?;
        let mut events = Events::none(self.alloc);
        match self.segment.apply_telling(call, &mut events) {
            Ok(Made::Refused(cause)) => Err(NodeError::Refused(cause)),
            Ok(Made::Done) => {
                self.told.keep(events);
                Ok(())
            }
            Ok(_) => Ok(()),
            Err(_) => Err(NodeError::OutOfMemory),
        }
    }
}

// Whether a call gives a message.
fn gives(segment: &Segment, call: &Call) -> bool {
    match call {
        Call::Take {
            station,
            room: true,
        } => !segment.wants(*station, false).0.is_empty(),
        _ => false,
    }
}

/// Makes a place for the events of a call, unless the call is refused.
#[inline(always)]
pub(crate) fn make_room(segment: &Segment, told: &mut Told, call: &Call) -> Result<(), NodeError>
    ensures events { told.new.events ≡ told.old.events }
    ensures room { OnOk result (0 < told.new.free) }
    ensures kept { 0 < told.old.free → 0 < told.new.free }
    ensures err { IfErr result (λ error. IsStopped (called segment.now call.now) error) }
{
    // Usually there is one, whatever the events are.
    if told.has_place_to_give() {
        return Ok(());
    }
    find_room(segment, told, call)
}

// `make_room`, if no place is free for a message that is given.
#[inline(never)]
fn find_room(segment: &Segment, told: &mut Told, call: &Call) -> Result<(), NodeError>
    ensures events { told.new.events ≡ told.old.events }
    ensures room { OnOk result (0 < told.new.free) }
    ensures kept { 0 < told.old.free → 0 < told.new.free }
    ensures err { IfErr result (λ error. IsStopped (called segment.now call.now) error) }
{
    if told.has_room() && !gives(segment, call) {
        return Ok(());
    }
    if let Some(cause) = segment.refusal(call) {
        return Err(NodeError::Refused(cause));
    }
    match told.reserve() {
        Ok(()) => Ok(()),
        Err(_) => Err(NodeError::OutOfMemory),
    }
}

/// Makes a place for the events of a frame that another node puts, unless there is one or the frame is refused.
pub(crate) fn make_one(segment: &Segment, told: &mut Told, frame: &Frame) -> Result<(), NodeError>
    ensures events { told.new.events ≡ told.old.events }
    ensures room { OnOk result (0 < told.new.free) }
    ensures err { IfErr result (λ error. IsStopped (called segment.now (Inject frame.now)) error) }
{
    if told.has_room() {
        return Ok(());
    }
    make_room(segment, told, &Call::Inject { frame: *frame })
}
