//! Messages and notes as they are written for C.
ghost use Rattle.std.specs.Prelude.{◌≡◌};
ghost use Rattle.c_parts.specs.Codes.{value_code};
ghost use Rattle.c_parts.specs.Calls.{IsWritten};
ghost use Rattle.fulwethi_service.specs.Codes.{not_made_code, note_code};
ghost use Rattle.fulwethi_service.specs.Shown.{shown_note, shown_delivery};
ghost use Rattle.fulwethi_service.specs.Clients.{IsNoteWritten};

use crate::codes::not_made_code;
use c_parts::{DONE, NO_MEMORY, NOTHING, outcome_number, outcome_reason};
use live_segment::{Delivery, NotMade, Note};
use std::alloc::AllocError;

/// The outcome of a client's message: that with this ticket, which had this number among all that its station sent to the destination.
/// `outcome` is 1 to 7, and `reason` that of an abort, else 0.
#[repr(C)]
#[derive(Drop)]
pub struct CNote {
    pub ticket: u64,
    pub number: u64,
    pub to: u32,
    pub outcome: u32,
    pub reason: u32,
    pub unused: u32,
}

/// A message received: its addresses, its PGN, and how many bytes it has.
#[repr(C)]
#[derive(Drop)]
pub struct CMessage {
    pub from: u32,
    pub to: u32,
    pub pgn: u32,
    pub unused: u32,
    pub len: u64,
}

pub(crate) fn show_delivery(delivery: &Delivery) -> CMessage
    ensures { result ≡ shown_delivery delivery.now }
{
    CMessage {
        from: delivery.from.0 as u32,
        to: delivery.to.0 as u32,
        pgn: delivery.pgn.raw(),
        unused: 0,
        len: delivery.bytes.len() as u64,
    }
}

fn show_note(note: &Note) -> CNote
    ensures { result ≡ shown_note note.now }
{
    CNote {
        ticket: note.ticket,
        number: note.number,
        to: note.to.0 as u32,
        outcome: outcome_number(&note.outcome),
        reason: outcome_reason(&note.outcome),
        unused: 0,
    }
}

pub(crate) fn write_ticket(answer: Result<u64, NotMade>, ticket: &mut u64) -> u32
    ensures code { result ≡ value_code not_made_code answer }
    ensures written { IsWritten (λ number. number) ticket.old ticket.new answer }
{
    match answer {
        Ok(number) => {
            *ticket = number;
            DONE
        }
        Err(cause) => not_made_code(cause),
    }
}

pub(crate) fn write_note(answer: Result<Option<Note>, AllocError>, note: &mut CNote) -> u32
    ensures code { result ≡ note_code answer }
    ensures written { IsNoteWritten note.old note.new answer }
{
    match answer {
        Ok(Some(read)) => {
            *note = show_note(&read);
            DONE
        }
        Ok(None) => NOTHING,
        Err(_) => NO_MEMORY,
    }
}
