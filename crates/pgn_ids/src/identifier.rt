//! PGN and addresses of an identifier.
ghost use Rattle.std.specs.Prelude.{◌≡◌, ℕ, ◌/◌, ◌%◌, ◌<◌, true, false};
ghost use Rattle.pgn_ids.specs.Pgn.{is_pgn, is_pdu1};
ghost use Rattle.pgn_ids.specs.Identifier.{id_of, meaning_of};

use crate::address::Address;
use crate::pgn::{Pgn, WirePgn};
use bus_frame::{CanId, IdParts};

/// What an identifier says: priority (0 to 7), PGN, destination and source. A PDU2 PGN goes to all.
#[derive(Clone, Copy, Debug, PartialEq, Eq)]
pub struct IdMeaning {
    pub priority: u8,
    pub pgn: Pgn,
    pub to: Address,
    pub from: Address,
}

/// The identifier of a PGN from one address to another, with a priority of 0 to 7. A PDU2 frame goes to all.
pub fn id_of(priority: u8, pgn: Pgn, to: Address, from: Address) -> CanId
    requires priority { priority < 8 }
    requires to_all { is_pdu1 pgn ≡ false → to.0 ≡ 255 }
    ensures { result ≡ id_of priority pgn to.0 from.0 }
{
    let raw = pgn.raw();
    let ps = if pgn.is_pdu1() {
        to.0
    } else {
        (raw % 256) as u8
    };
    CanId::from_parts(IdParts {
        priority,
        edp: (raw / 0x2_0000) as u8,
        dp: (raw / 0x1_0000 % 2) as u8,
        pf: (raw / 256 % 256) as u8,
        ps,
        sa: from.0,
    })
}

/// What an identifier says.
pub fn read_id(id: CanId) -> IdMeaning
    ensures { result ≡ meaning_of id }
{
    let raw = id.raw();
    let pgn = WirePgn::of_identifier(raw).clean();
    let to = if pgn.is_pdu1() {
        Address((raw / 256 % 256) as u8)
    } else {
        Address::GLOBAL
    };
    IdMeaning {
        priority: (raw / 0x400_0000) as u8,
        pgn,
        to,
        from: Address((raw % 256) as u8),
    }
}

/// A law: an identifier gives its priority, PGN and addresses back.
pub fn identifiers_are_read_back()
    ensures { (priority pgn to from : ℕ) → priority < 8 → is_pgn pgn ≡ true → to < 256 → from < 256 → (is_pdu1 pgn ≡ false → to ≡ 255)
        → meaning_of (id_of priority pgn to from) ≡ record { priority = priority; pgn = pgn; to = record { 0 = to }; from = record { 0 = from } } }
{}
