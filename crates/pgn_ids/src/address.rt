//! Addresses (SAE J1939-81).
ghost use Rattle.std.specs.Prelude.{◌≡◌};
ghost use Rattle.pgn_ids.specs.Address.{is_one};

/// An address: 0 to 253 is that of one node, 254 the null address of a node that has none, 255 the global address of all.
#[derive(Clone, Copy, Debug, PartialEq, Eq, PartialOrd, Ord, Hash)]
pub struct Address(pub u8);

impl Address {
    /// The null address: of a node that has none.
    pub const NULL: Address = Address(254);

    /// The global address: to all nodes.
    pub const GLOBAL: Address = Address(255);

    /// Whether this is the address of one node, 0 to 253.
    pub fn is_one(self) -> bool
        ensures { result ≡ is_one self.0 }
    {
        self.0 < Address::NULL.0
    }
}
