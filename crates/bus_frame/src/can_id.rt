//! Identifiers and their parts (SAE J1939-21, the 29-bit identifier).
ghost use Rattle.std.specs.Prelude.{◌≡◌, ℕ, ◌<◌, ◌≤◌, ◌^◌, MatchResult};
ghost use Rattle.bus_frame.specs.Identifier.{id_value, id_parts, AreParts};
ghost use Rattle.bus_frame.specs.declared.can_id.IdParts.{IdParts};

use std::marker::Model;
use thiserror::Error;

/// One more than the largest identifier: it has 29 bits.
const ID_END: u32 = 0x2000_0000;

/// An identifier is above 29 bits.
#[derive(Clone, Copy, Debug, PartialEq, Eq, Error)]
#[error("an identifier has 29 bits")]
pub struct IdTooLarge;

/// An identifier of 29 bits, from 0 to `0x1FFF_FFFF`.
#[derive(Clone, Copy, Debug, PartialEq, Eq)]
pub struct CanId {
    raw: u32,
}

impl Model for CanId {
    ghost use Rattle.std.specs.Prelude.{ℕ, ◌<◌, ◌^◌};

    ghost Value = { ℕ };

    ghost view = { λ id. id.raw };

    ghost invariant = { λ id. id.raw < 2 ^ 29 };

    ghost inverse = { λ n. record { raw = n } };
}

/// The parts of an identifier, from its top: priority (0 to 7), extended data page and data page (0 or 1),
/// PDU format, PDU specific and source address.
#[derive(Clone, Copy, Debug, PartialEq, Eq)]
pub struct IdParts {
    pub priority: u8,
    pub edp: u8,
    pub dp: u8,
    pub pf: u8,
    pub ps: u8,
    pub sa: u8,
}

impl CanId {
    /// The identifier with this number. Refused exactly if the number has more than 29 bits.
    pub fn new(raw: u32) -> Result<CanId, IdTooLarge>
        ensures { MatchResult result (λ id. (id ≡ raw) × (raw < 2 ^ 29)) (λ _. 2 ^ 29 ≤ raw) }
    {
        if raw >= ID_END {
            return Err(IdTooLarge);
        }
        Ok(CanId { raw })
    }

    /// Its number.
    pub fn raw(self) -> u32
        ensures value { result ≡ self }
        ensures in_range { result < 2 ^ 29 }
    {
        self.raw
    }

    /// Its parts.
    pub fn parts(self) -> IdParts
        ensures value { result ≡ id_parts self }
        ensures in_range { AreParts result }
    {
        IdParts {
            priority: (self.raw / 0x400_0000) as u8,
            edp: (self.raw / 0x200_0000 % 2) as u8,
            dp: (self.raw / 0x100_0000 % 2) as u8,
            pf: (self.raw / 0x1_0000 % 256) as u8,
            ps: (self.raw / 0x100 % 256) as u8,
            sa: (self.raw % 256) as u8,
        }
    }

    /// The identifier with these parts, each in its range.
    pub fn from_parts(parts: IdParts) -> CanId
        requires priority { parts.priority < 8 }
        requires edp { parts.edp < 2 }
        requires dp { parts.dp < 2 }
        ensures { result ≡ id_value parts }
    {
        let pages = u32::from(parts.priority) * 4 + u32::from(parts.edp) * 2 + u32::from(parts.dp);
        let group = u32::from(parts.pf) * 256 + u32::from(parts.ps);
        CanId {
            raw: pages * 0x100_0000 + group * 256 + u32::from(parts.sa),
        }
    }
}

/// A law: the identifier with given parts has these parts.
pub fn identifiers_give_their_parts()
    ensures { (parts : IdParts) → AreParts parts → id_parts (id_value parts) ≡ parts }
{}

/// A law: the parts of an identifier are those of no other one.
pub fn parts_give_their_identifier()
    ensures { (id : ℕ) → id < 2 ^ 29 → id_value (id_parts id) ≡ id }
{}
