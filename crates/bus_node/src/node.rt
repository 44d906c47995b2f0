//! A node, and the calls on its station.
ghost use Rattle.std.specs.Prelude.{◌≡◌, ◌∷◌, ◌↔◌, [], false, IfOk, OnOk, IsErrOf};
ghost use Rattle.segment_law.specs.Segment.{are_addresses};
ghost use Rattle.bus_node.specs.Node.{new_node, again_node, node_with, events_told, HasToldFirst};
ghost use Rattle.bus_node.specs.Acting.{begun};
ghost use Rattle.bus_node.specs.Outcome.{at_first};

use crate::line_counts::LineCounts;
use log_text::Iface;
use message_events::Events;
use node_parts::{Echoes, Rests};
use pgn_ids::Address;
use script_text::print_events;
use segment_core::NewRefused;
use std::alloc::{AllocError, Global};
use std::marker::Model;

/// One station on a real bus, what it remembers of that bus, and the text of the line so far.
pub struct Node {
    pub(crate) alloc: Global,
    pub(crate) station: one_station::Node,
    /// The interface that the frames which it puts are shown on.
    pub(crate) iface: Iface,
    /// Whether that was named, or a frame of it was shown.
    pub(crate) knows_iface: bool,
    /// Whether a frame of another interface was reported.
    pub(crate) knows_other: bool,
    /// For how many ticks a destination rests after a connection to it failed.
    pub(crate) quiet: u64,
    pub(crate) rests: Rests,
    /// The tick from which the time counts.
    pub(crate) since: u64,
    /// The time of that tick, in microseconds; none if no time was seen yet.
    pub(crate) start: Option<u64>,
    /// The frames that it put and that the bus has yet to show.
    pub(crate) echoes: Echoes,
    /// Whether a wrong line ends the run; else it is reported and passed over.
    pub(crate) strict: bool,
    pub(crate) counts: LineCounts,
    pub(crate) text: Vec<u8>,
}

impl Model for Node {
    ghost use Rattle.bus_node.specs.Node.{Node};
    ghost use Rattle.bus_node.specs.NodeFields.{node_value};
    ghost use Rattle.bus_node.specs.NodeCode.{node_code};

    ghost Value = { Node };

    ghost coded = { node_code };

    ghost view = { node_value };
}

impl Drop for Node {
    fn drop(self) {
        let Node {
            alloc: _,
            station: _,
            iface: _,
            knows_iface: _,
            knows_other: _,
            quiet: _,
            rests: _,
            since: _,
            start: _,
            echoes: _,
            strict: _,
            counts: _,
            text: _,
        } = self;
    }
}

impl Node {
    /// A node with a station of this address, 0 to 253, on an interface: it takes frames of no other, and shows those that it puts there. Its clock
    /// is at tick 0, no port is open, and nothing was done yet. A wrong line is reported and passed over. After a connection to a destination failed,
    /// nothing of a message is sent to it for `quiet` ticks.
    ///
    /// Refused as `BadAddresses` exactly if the address is 254 or 255, and else as `OutOfMemory` if memory is refused.
    pub fn new(
        alloc: Global,
        address: Address,
        iface: Iface,
        quiet: u64,
    ) -> Result<Node, NewRefused>
        ensures ok { IfOk result (λ node. node ≡ new_node address iface quiet) }
        ensures bad { IsErrOf result NewRefused.BadAddresses ↔ (are_addresses (address ∷ []) ≡ false) }
    {
        let station = one_station::Node::new(alloc, address)?;
        Ok(Node::of_station(alloc, station, iface, quiet))
    }

    /// The same for a program that starts again at its address: no message is sent before tick 1250, so that nothing of what it sent earlier
    /// is under way then. Until then a `send` prints `starting 1250`.
    ///
    /// Refused as `BadAddresses` exactly if the address is 254 or 255, and else as `OutOfMemory` if memory is refused.
    pub fn again(
        alloc: Global,
        address: Address,
        iface: Iface,
        quiet: u64,
    ) -> Result<Node, NewRefused>
        ensures ok { IfOk result (λ node. node ≡ again_node address iface quiet) }
        ensures bad { IsErrOf result NewRefused.BadAddresses ↔ (are_addresses (address ∷ []) ≡ false) }
    {
        let station = one_station::Node::again(alloc, address, 0)?;
        Ok(Node::of_station(alloc, station, iface, quiet))
    }

    // A node with this station.
    fn of_station(alloc: Global, station: one_station::Node, iface: Iface, quiet: u64) -> Node
        ensures { result ≡ node_with station iface quiet }
    {
        Node {
            alloc,
            station,
            iface,
            knows_iface: true,
            knows_other: false,
            quiet,
            rests: Rests::none(),
            since: 0,
            start: None,
            echoes: Echoes::none(alloc),
            strict: false,
            counts: LineCounts::none(),
            text: Vec::new(alloc),
        }
    }

    /// An input begins.
    pub(crate) fn begin_input(&mut self)
        ensures { self.new ≡ at_first self.old }
    {
        self.counts = LineCounts::none();
    }

    /// A line was read, and the output of the one before was written.
    pub(crate) fn begin_line(&mut self)
        ensures { self.new ≡ begun self.old }
    {
        self.counts.add_line();
        self.text.clear();
    }

    /// The output of a line.
    pub(crate) fn told(&self) -> &[u8]
        ensures { result.now ≡ self.now.text }
    {
        self.text.as_slice()
    }

    // Prints the station's first event, and lets the destination rest if its connection failed. Returns whether there was an event.
    #[tactic(auto, using(crate::proofs::EventsTold::told_first, crate::proofs::EventsTold::fewer, crate::proofs::EventsTold::none_left))]
    fn tell_first(&mut self) -> Result<bool, AllocError>
        ensures { IfOk result (λ had_some. HasToldFirst had_some self.old self.new) }
    {
        let Some(event) = self.station.take_event() else {
            return Ok(false);
        };
        let now = self.station.now();
        self.rests.rest_by(now, self.quiet, &event);
        print_events(&mut self.text, &Events::of(self.alloc, Some(event)))?;
        Ok(true)
    }

    /// Prints all events of the station.
    pub(crate) fn tell(&mut self) -> Result<(), AllocError>
        ensures { OnOk result (self.new ≡ events_told self.old) }
    {
        'events: loop {
            if !self.tell_first()? {
                return Ok(());
            }
        }
    }
}
