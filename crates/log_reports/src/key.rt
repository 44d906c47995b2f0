//! Which message a report is of.
ghost use Rattle.std.specs.Prelude.{◌≡◌};
ghost use Rattle.log_reports.specs.Keys.{transport_of};

use log_fields::Iface;
use pgn_ids::Address;
use tp_wire::Kind;

/// A transport.
#[derive(Clone, Copy, PartialEq, Eq, Hash)]
pub enum Transport {
    /// The transport protocol (SAE J1939-21).
    Tp,
    /// The extended transport protocol (ISO 11783-3).
    Etp,
}

impl Transport {
    /// The transport of frames of a kind.
    pub fn of(kind: Kind) -> Transport
        ensures { result ≡ transport_of kind }
    {
        match kind {
            Kind::Tp => Transport::Tp,
            Kind::Etp => Transport::Etp,
        }
    }
}

/// The key of a message under way: on an interface, a node sends at most one at a time to each destination, 255 for a broadcast, by each
/// transport.
#[derive(Clone, Copy, PartialEq, Eq, Hash)]
pub struct Key {
    pub iface: Iface,
    /// The node that sends the message.
    pub from: Address,
    /// The node that it goes to, or 255.
    pub to: Address,
    pub transport: Transport,
}
