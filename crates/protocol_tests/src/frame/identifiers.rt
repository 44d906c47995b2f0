use crate::checks::{got, holds, same};
use crate::means::pgn;
use bus_frame::CanId;
use pgn_ids::*;
use std::process::Abort;

// Numbers, and whether they are PGNs of the PDU1 format if they are PGNs.
const NUMBERS: [(u32, Option<bool>); 4] = [
    (0xEC21, None),
    (0x4_0000, None),
    (0xFECA, Some(false)),
    (0xEA00, Some(true)),
];

fn is_number((raw, is_pdu1): &(u32, Option<bool>)) -> bool {
    match Pgn::new(*raw) {
        Ok(pgn) => {
            pgn.raw() == *raw && Some(pgn.is_pdu1()) == *is_pdu1 && pgn.field().clean() == pgn
        }
        Err(BadPgn) => is_pdu1.is_none(),
    }
}

// Fields of a frame, and the PGN of each if it is one.
const FIELDS: [(u32, Option<u32>); 2] = [(0x4_0000, None), (0xEA35, Some(0xEA00))];

fn is_field((raw, clean): &(u32, Option<u32>)) -> bool {
    match WirePgn::new(*raw) {
        Ok(field) => field.raw() == *raw && Some(field.clean().raw()) == *clean,
        Err(BadPgn) => clean.is_none(),
    }
}

#[test]
fn numbers_and_fields(rt: HostRuntime) {
    for (place, row) in NUMBERS.iter().enumerate() {
        same(&rt, (place, is_number(row)), (place, true));
    }
    for (place, row) in FIELDS.iter().enumerate() {
        same(&rt, (place, is_field(row)), (place, true));
    }
}

// Identifiers of the standard's transport frames and of a PDU2 frame, priority, PGN, destination and source.
const IDENTIFIERS: [(u32, u8, u32, u8, u8); 5] = [
    (0x1CEC_3521, 7, 0xEC00, 0x35, 0x21),
    (0x1CEB_FF21, 7, 0xEB00, 0xFF, 0x21),
    (0x18EA_FFF9, 6, 0xEA00, 0xFF, 0xF9),
    (0x18FE_CA00, 6, 0xFECA, 0xFF, 0x00),
    (0x0CF0_0400, 3, 0xF004, 0xFF, 0x00),
];

fn is_read(rt: &impl Abort, (id, priority, number, to, from): &(u32, u8, u32, u8, u8)) -> bool {
    let meaning = IdMeaning {
        priority: *priority,
        pgn: pgn(rt, *number),
        to: Address(*to),
        from: Address(*from),
    };
    read_id(got(rt, CanId::new(*id))) == meaning
}

fn are_written(rt: &impl Abort) {
    let of_tp = got(rt, Pgn::new(0xEC00));
    let tp = id_of(7, of_tp, Address(0x35), Address(0x21));
    let diagnostics = id_of(6, pgn(rt, 0xFECA), Address::GLOBAL, Address(0));
    same(
        rt,
        [tp.raw(), diagnostics.raw()],
        [0x1CEC_3521, 0x18FE_CA00],
    );
}

#[test]
fn identifiers_by_pgn_and_addresses(rt: HostRuntime) {
    for (place, row) in IDENTIFIERS.iter().enumerate() {
        same(&rt, (place, is_read(&rt, row)), (place, true));
    }
    are_written(&rt);
    holds(&rt, Address(0).is_one() && Address(253).is_one());
    holds(&rt, !Address::NULL.is_one() && !Address::GLOBAL.is_one());
}
