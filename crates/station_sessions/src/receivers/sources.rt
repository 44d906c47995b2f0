//! The sources of the incoming sessions.
ghost use Rattle.std.specs.Prelude.{◌≡◌, ◌≤◌, IfSome, IfNone};
ghost use Rattle.station_sessions.specs.Sources.{HasNoneBetween, HasSomeOf, last_below};

use super::Receivers;
use pgn_ids::Address;
use session_table::{Key, SessionKind};

// The last key of the sources below this one.
fn below(from: u8) -> Option<Key>
    ensures { result ≡ last_below from }
{
    match from.checked_sub(1) {
        None => None,
        Some(source) => Some(Key {
            source: Address(source),
            kind: SessionKind::Etp,
        }),
    }
}

impl Receivers {
    /// The lowest source from this one on that has a session.
    pub fn next_source(&self, from: u8) -> Option<Address>
        ensures on { IfSome result (λ source. from ≤ source.0) }
        ensures has { IfSome result (λ source. HasSomeOf self.now source.0) }
        ensures next { IfSome result (λ source. HasNoneBetween self.now from source.0) }
        ensures none { IfNone result (HasNoneBetween self.now from 256) }
    {
        let key = self.table.next_key(below(from))?;
        Some(key.source)
    }
}
