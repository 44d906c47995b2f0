//! Keys of sessions.
ghost use Rattle.std.specs.Prelude.{◌≡◌, ◌<◌};
ghost use Rattle.std.specs.Ordering.{is_lt};
ghost use Rattle.session_table.specs.Key.{is_above_key, key_cmp, key_number, kind_number, session_for};

use pgn_ids::Address;
use tp_wire::Kind;

/// The kinds of incoming session: a broadcast (BAM), a connection (TP), and an extended connection (ETP).
#[derive(Clone, Copy, Debug, PartialEq, Eq, PartialOrd, Ord, Hash)]
pub enum SessionKind {
    /// A broadcast message (BAM).
    Broadcast,
    /// A connection of the transport protocol.
    Tp,
    /// A connection of the extended transport protocol.
    Etp,
}

impl SessionKind {
    /// The kind of session for a connection of a transport.
    pub fn of(kind: Kind) -> SessionKind
        ensures { result ≡ session_for kind }
    {
        match kind {
            Kind::Tp => SessionKind::Tp,
            Kind::Etp => SessionKind::Etp,
        }
    }

    #[inline]
    fn number(self) -> usize
        ensures { result ≡ kind_number self }
    {
        match self {
            SessionKind::Broadcast => 0,
            SessionKind::Tp => 1,
            SessionKind::Etp => 2,
        }
    }
}

/// How many keys there can be: three kinds from each of 256 sources.
pub(crate) const KEY_NUMBERS: usize = 768;

/// What identifies a session of a station: a source sends at most one message of each kind at a time. Keys are
/// ordered by source, then by kind.
#[derive(Clone, Copy, Debug, PartialEq, Eq, PartialOrd, Ord, Hash)]
pub struct Key {
    /// The node that sends the message.
    pub source: Address,
    /// How it sends it.
    pub kind: SessionKind,
}

impl Key {
    /// Whether it is the lower of both: by source, then by kind.
    pub fn is_before(self, other: Key) -> bool
        ensures { result ≡ is_lt (key_cmp self other) }
    {
        self < other
    }

    /// Its number, which is no other key's.
    #[inline]
    pub(crate) fn number(self) -> usize
        ensures value { result ≡ key_number self }
        ensures within { result < KEY_NUMBERS }
    {
        3 * usize::from(self.source.0) + self.kind.number()
    }

    /// Whether it is above that key; true if there is none.
    pub fn is_above(self, low: Option<Key>) -> bool
        ensures { result ≡ is_above_key low self }
    {
        match low {
            None => true,
            Some(low) => low.is_before(self),
        }
    }
}
