//! The addresses that a segment's stations are to have.
ghost use Rattle.std.specs.Prelude.{◌≡◌, ◌++◌, ◌∷◌, [], OnOk};

use pgn_ids::Address;
use std::alloc::{AllocError, Global};
use std::marker::Model;

/// Addresses in the order of a line, which contracts see as a list.
#[derive(Debug, Drop)]
pub struct Addresses {
    kept: Vec<Address>,
}

impl Model for Addresses {
    ghost use Rattle.std.specs.Prelude.{List};
    ghost use Rattle.pgn_ids.specs.declared.address.Address.{Address};

    ghost Value = { List Address };

    ghost view = { λ a. a.kept.items };
}

impl Addresses {
    /// No address. It takes no memory.
    pub(crate) fn none(alloc: Global) -> Addresses
        ensures { result ≡ [] }
    {
        Addresses {
            kept: Vec::new(alloc),
        }
    }

    /// Puts one more address behind the others.
    pub(crate) fn push(&mut self, address: Address) -> Result<(), AllocError>
        ensures { OnOk result (self.new ≡ self.old ++ address ∷ []) }
    {
        self.kept.push(address)?;
        Ok(())
    }

    /// The addresses in place.
    pub fn as_slice(&self) -> &[Address]
        ensures { result.now ≡ self.now }
    {
        self.kept.as_slice()
    }
}
