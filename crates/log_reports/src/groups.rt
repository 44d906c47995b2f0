//! Which messages have a form, and what each means in words.
ghost use Rattle.std.specs.Prelude.{◌≡◌, IfOk};
ghost use Rattle.log_reports.specs.Groups.{is_faults, has_form, explained};

use crate::line::Line;
use crate::list::fault_list;
use crate::naming::Kind;
use crate::texts::{identification, software_identification};
use pgn_ids::Pgn;
use std::alloc::{AllocError, Global};

/// Active faults.
const DM1: u32 = 0xFECA;

/// Faults that were active.
const DM2: u32 = 0xFECB;

/// Identification of software.
const SOFTWARE: u32 = 0xFEDA;

/// Identification of a component.
const COMPONENT: u32 = 0xFEEB;

/// Identification of the vehicle.
const VEHICLE: u32 = 0xFEEC;

/// Identification of an ECU.
const ECU: u32 = 0xFDC5;

fn is_faults(pgn: u32) -> bool
    ensures { result ≡ is_faults pgn }
{
    pgn == DM1 || pgn == DM2
}

/// Whether messages of a PGN have a form.
pub fn has_form(pgn: Pgn) -> bool
    ensures { result ≡ has_form pgn }
{
    let pgn = pgn.raw();
    is_faults(pgn) || pgn == SOFTWARE || pgn == COMPONENT || pgn == VEHICLE || pgn == ECU
}

/// The lines of a message, none if its PGN has no form. It fails only if memory is refused.
#[tactic(auto, unfolding(crate::specs::Groups::explained))]
pub fn explain(alloc: Global, pgn: Pgn, bytes: &[u8]) -> Result<Vec<Line>, AllocError>
    ensures { IfOk result (λ lines. lines.items ≡ explained pgn bytes.now) }
{
    let pgn = pgn.raw();
    if is_faults(pgn) {
        return fault_list(alloc, bytes);
    }
    match pgn {
        SOFTWARE => software_identification(alloc, bytes),
        COMPONENT => identification(alloc, Kind::Component, bytes),
        VEHICLE => identification(alloc, Kind::Vehicle, bytes),
        ECU => identification(alloc, Kind::Ecu, bytes),
        _ => Ok(Vec::new(alloc)),
    }
}
