//! The bytes of a packet.
ghost use Rattle.std.specs.Prelude.{◌≡◌, nat_eq};
ghost use Rattle.std.specs.Cmp.{partial_equiv_from_equiv};
ghost use Rattle.std.specs.Cmp.Lexicographic.{pointwise, nat_list_eq_equiv};

use std::marker::Model;

/// The seven bytes of a packet. They stay where they are, most often in the frame that brought them: they are copied once, to
/// the message.
#[derive(Debug, Drop)]
pub struct PacketBytes<'f> {
    seven: &'f [u8; 7],
}

impl<'f> Model for PacketBytes<'f> {
    ghost use Rattle.std.specs.Prelude.{ℕ, List};

    ghost Value = { List ℕ };

    ghost view = { λ p. p.seven.now };
}

impl<'f> PacketBytes<'f> {
    /// These bytes.
    #[inline(always)]
    pub fn new(seven: &'f [u8; 7]) -> PacketBytes<'f>
        ensures { result ≡ seven.now }
    {
        PacketBytes { seven }
    }

    /// The bytes, where they are.
    #[inline(always)]
    pub fn array(&self) -> &'f [u8; 7]
        ensures { result.now ≡ self.now }
    {
        self.seven
    }
}

impl<'f> PartialEq for PacketBytes<'f> {
    ghost eq = { pointwise nat_eq };

    ghost laws = { partial_equiv_from_equiv nat_list_eq_equiv };

    fn eq(&self, other: &PacketBytes<'f>) -> bool {
        self.seven == other.seven
    }
}

impl<'f> Eq for PacketBytes<'f> {
    ghost laws = { nat_list_eq_equiv };
}
