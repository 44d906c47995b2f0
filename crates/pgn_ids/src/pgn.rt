//! Parameter group numbers (SAE J1939-21).
ghost use Rattle.std.specs.Prelude.{◌≡◌, ℕ, ◌<◌, ◌≤◌, ◌^◌, true, false, MatchResult};
ghost use Rattle.pgn_ids.specs.Pgn.{is_pgn, is_pdu1, clean};
ghost use Rattle.pgn_ids.specs.Identifier.{raw_pgn};

use std::marker::Model;
use thiserror::Error;

/// One more than the largest value of 18 bits.
const PGN_END: u32 = 0x4_0000;

/// The first PDU format of PDU2, whose frames go to all.
const PDU2_START: u32 = 240;

/// Not a PGN: above 18 bits, or of PDU1 with a low byte other than 0.
#[derive(Clone, Copy, Debug, PartialEq, Eq, Error)]
#[error("a PGN has 18 bits, and in the PDU1 format a low byte of 0")]
pub struct BadPgn;

/// A parameter group number: 18 bits, with the low byte 0 if its format is PDU1.
#[derive(Clone, Copy, Debug, PartialEq, Eq)]
pub struct Pgn {
    raw: u32,
}

impl Model for Pgn {
    ghost use Rattle.std.specs.Prelude.{◌≡◌, ℕ, true};

    ghost Value = { ℕ };

    ghost use Rattle.pgn_ids.specs.Pgn.{is_pgn};

    ghost view = { λ p. p.raw };

    ghost invariant = { λ p. is_pgn p.raw ≡ true };

    ghost inverse = { λ n. record { raw = n } };
}

/// A PGN field of a frame as it was received: any value of 18 bits.
#[derive(Clone, Copy, Debug, PartialEq, Eq)]
pub struct WirePgn {
    raw: u32,
}

impl Model for WirePgn {
    ghost use Rattle.std.specs.Prelude.{ℕ, ◌<◌, ◌^◌};

    ghost Value = { ℕ };

    ghost view = { λ p. p.raw };

    ghost invariant = { λ p. p.raw < 2 ^ 18 };

    ghost inverse = { λ n. record { raw = n } };
}

fn is_pdu1_format(raw: u32) -> bool
    ensures { result ≡ is_pdu1 raw }
{
    raw / 256 % 256 < PDU2_START
}

impl Pgn {
    /// The PGN with this number. Refused exactly if it has more than 18 bits, or is PDU1 with a low byte other than 0.
    pub fn new(raw: u32) -> Result<Pgn, BadPgn>
        ensures { MatchResult result (λ p. (p ≡ raw) × (is_pgn raw ≡ true)) (λ _. is_pgn raw ≡ false) }
    {
        if raw >= PGN_END {
            return Err(BadPgn);
        }
        if is_pdu1_format(raw) && raw % 256 != 0 {
            return Err(BadPgn);
        }
        Ok(Pgn { raw })
    }

    /// Its number.
    pub fn raw(self) -> u32
        ensures value { result ≡ self }
        ensures in_range { is_pgn result ≡ true }
    {
        self.raw
    }

    /// Whether its format is PDU1, whose frames have a destination.
    pub fn is_pdu1(self) -> bool
        ensures { result ≡ is_pdu1 self }
    {
        is_pdu1_format(self.raw)
    }

    /// The PGN as a field of a frame.
    pub fn field(self) -> WirePgn
        ensures value { result ≡ self }
        ensures in_range { is_pgn result ≡ true }
    {
        WirePgn { raw: self.raw }
    }
}

impl WirePgn {
    /// The field with this value. Refused exactly if it has more than 18 bits.
    pub fn new(raw: u32) -> Result<WirePgn, BadPgn>
        ensures { MatchResult result (λ p. (p ≡ raw) × (raw < 2 ^ 18)) (λ _. 2 ^ 18 ≤ raw) }
    {
        if raw >= PGN_END {
            return Err(BadPgn);
        }
        Ok(WirePgn { raw })
    }

    /// The field of an identifier with this number: the 18 bits behind the source address.
    pub(crate) fn of_identifier(id: u32) -> WirePgn
        ensures { result ≡ raw_pgn id }
    {
        WirePgn {
            raw: id / 256 % PGN_END,
        }
    }

    /// Its value.
    pub fn raw(self) -> u32
        ensures value { result ≡ self }
        ensures in_range { result < 2 ^ 18 }
    {
        self.raw
    }

    /// The PGN that is meant: the low byte is cleared if the format is PDU1.
    pub fn clean(self) -> Pgn
        ensures { result ≡ clean self }
    {
        if is_pdu1_format(self.raw) {
            Pgn {
                raw: self.raw / 256 * 256,
            }
        } else {
            Pgn { raw: self.raw }
        }
    }
}
