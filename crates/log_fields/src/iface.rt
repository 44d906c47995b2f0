//! Names of interfaces.
ghost use Rattle.std.specs.Prelude.{◌≡◌, ◌<◌, [], ◌∷◌, MatchResult, Some, None, true, false};
ghost use Rattle.std.specs.Cmp.Rules.{hashing};
ghost use Rattle.std.proofs.Common.{rules};
ghost use Rattle.log_fields.specs.Iface.{is_printable, iface_of, name_of, bus0};

use crate::fields::place_of;
use std::hash::{Hash, Hasher};
use thiserror::Error;

/// The most bytes of a name, as Linux has them.
const MOST: usize = 15;

/// Not the name of an interface: empty, above 15 bytes, or with a byte that isn't printable ASCII or is a space.
#[derive(Clone, Copy, Debug, PartialEq, Eq, Error)]
#[error("an interface has a name of 1 to 15 printable characters")]
pub struct BadName;

/// An interface by its name, of 1 to 15 bytes, each of them printable ASCII and no space.
#[derive(Clone, Copy, Debug, PartialEq, Eq)]
pub struct Iface {
    kept: [u8; 16],
}

// All of its bytes are written at once, so that a map looks a name up by one multiplication.
impl Hash for Iface {
    ghost hash_input = { λ s. s.kept ∷ [] };

    ghost respects_eq = { Prim.search (hashing, rules) };

    fn hash<H: Hasher>(&self, state: &mut H) {
        state.write(&self.kept);
    }
}

/// Whether each byte is printable ASCII and no space.
fn is_printable(name: &[u8]) -> bool
    ensures { result ≡ is_printable name.now }
{
    for byte in name {
        if *byte < b'!' || *byte > b'~' {
            return false;
        }
    }
    true
}

impl Iface {
    /// The interface of this name. Refused exactly if it is no name of an interface.
    pub fn new(name: &[u8]) -> Result<Iface, BadName>
        ensures { MatchResult result (λ iface. iface_of name.now ≡ Some iface) (λ _. iface_of name.now ≡ None) }
    {
        if name.is_empty() || name.len() > MOST || !is_printable(name) {
            return Err(BadName);
        }
        let mut kept = [0; 16];
        kept[..name.len()].copy_from_slice(name);
        Ok(Iface { kept })
    }

    /// The interface `bus0`.
    pub fn bus0() -> Iface
        ensures { result ≡ bus0 }
    {
        Iface {
            kept: [b'b', b'u', b's', b'0', 0, 0, 0, 0, 0, 0, 0, 0, 0, 0, 0, 0],
        }
    }

    /// Its name.
    pub fn name(&self) -> &[u8]
        ensures { result.now ≡ name_of self.now }
    {
        let len = place_of(0, &self.kept).unwrap_or(MOST);
        &self.kept[..len]
    }
}
