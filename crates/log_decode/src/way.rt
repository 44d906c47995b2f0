//! The way of a frame, and the keys of the messages that it may belong to.
ghost use Rattle.std.specs.Prelude.{◌≡◌};
ghost use Rattle.log_decode.specs.Ways.{key_of, key_back};

use log_fields::Iface;
use log_reports::{Key, Transport};
use pgn_ids::Address;
use tp_wire::Kind;

/// The interface on which a frame was seen, and the nodes between which it goes.
#[derive(Clone, Copy)]
pub(crate) struct Way {
    pub(crate) iface: Iface,
    pub(crate) from: Address,
    pub(crate) to: Address,
}

impl Way {
    /// The key of a message that goes as the frame does.
    pub(crate) fn key(self, kind: Kind) -> Key
        ensures { result ≡ key_of self kind }
    {
        Key {
            iface: self.iface,
            from: self.from,
            to: self.to,
            transport: Transport::of(kind),
        }
    }

    /// The key of a message that goes the other way.
    pub(crate) fn back(self, kind: Kind) -> Key
        ensures { result ≡ key_back self kind }
    {
        Key {
            iface: self.iface,
            from: self.to,
            to: self.from,
            transport: Transport::of(kind),
        }
    }
}
