//! The key of a row, in the order of the rows.
ghost use Rattle.std.specs.Prelude.{◌≡◌};
ghost use Rattle.log_courses.specs.Rows.{padded, name_of_iface, row_key};

use log_fields::Iface;
use log_reports::Key;
use pgn_ids::{Address, Pgn};

/// How many bytes of a name are kept: no name of an interface has as many.
const KEPT: usize = 16;

/// The name of an interface, in the order of its bytes.
#[derive(Clone, Copy, PartialEq, Eq, PartialOrd, Ord)]
pub(crate) struct Name {
    pub(crate) bytes: [u8; 16],
}

/// The key of a row: interfaces are ordered by their names, then PGNs, senders and destinations.
#[derive(Clone, Copy, PartialEq, Eq, PartialOrd, Ord)]
pub(crate) struct RowKey {
    pub(crate) name: Name,
    pub(crate) pgn: u32,
    pub(crate) from: Address,
    pub(crate) to: Address,
}

/// A reason for which messages of a row were aborted.
#[derive(Clone, Copy, PartialEq, Eq, PartialOrd, Ord)]
pub(crate) struct AbortKey {
    pub(crate) row: RowKey,
    pub(crate) reason: u8,
}

/// A name, with bytes 0 behind it.
fn padded(name: &[u8]) -> [u8; 16]
    ensures { result ≡ padded name.now }
{
    let len = name.len().min(KEPT);
    let mut bytes = [0; 16];
    bytes[..len].copy_from_slice(&name[..len]);
    bytes
}

impl Name {
    pub(crate) fn of(iface: Iface) -> Name
        ensures { result ≡ name_of_iface iface }
    {
        Name {
            bytes: padded(iface.name()),
        }
    }
}

impl RowKey {
    pub(crate) fn of(iface: Iface, pgn: Pgn, from: Address, to: Address) -> RowKey
        ensures { result ≡ row_key iface pgn from to }
    {
        RowKey {
            name: Name::of(iface),
            pgn: pgn.raw(),
            from,
            to,
        }
    }
}
