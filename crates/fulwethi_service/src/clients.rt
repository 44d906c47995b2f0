//! Clients, each for one thread of an application at a time.
ghost use Rattle.std.specs.Prelude.{◌≡◌, IsSome};
ghost use Rattle.c_parts.specs.Codes.{value_code};
ghost use Rattle.c_parts.specs.Calls.{IsMadeOn, IsWritten};
ghost use Rattle.fulwethi_service.specs.Codes.{not_made_code, note_code};
ghost use Rattle.fulwethi_service.specs.Clients.{cause_of_refusal, OnClient, IsSubmitted, IsNoteRead, IsNoteWritten};

use crate::client_handle::ClientHandle;
use crate::desk::Desk;
use crate::shown::{CNote, write_note, write_ticket};
use live_segment::{Bytes, Client, NotMade, Note, Refusal, SubmitRefused};
use pgn_ids::{Address, Pgn};
use segment_rings::submit_refusal;
use std::alloc::{AllocError, Global};

/// Submits a message, and writes its ticket.
#[unsafe(no_mangle)]
pub extern "C" fn fulwethi_raw_client_submit(
    of: ClientHandle,
    alloc: Global,
    to: u8,
    pgn: u32,
    bytes: &[u8],
    ticket: &mut u64,
    out: &mut ClientHandle,
) -> u32
    requires { IsSome of.desk }
    ensures { IsMadeOn (value_code not_made_code) (λ before after answer. OnClient (IsSubmitted (record { 0 = to }) pgn bytes.now) before after answer × IsWritten (λ number. number) ticket.old ticket.new answer) of.desk out.new.desk result }
{
    let mut held = of.into_box();
    let code = write_ticket(submit(alloc, &mut held, Address(to), pgn, bytes), ticket);
    *out = ClientHandle::of_box(held);
    code
}

// A handle that attach made has a client; without one nothing is done.
fn submit(
    alloc: Global,
    desk: &mut Desk,
    to: Address,
    pgn: u32,
    bytes: &[u8],
) -> Result<u64, NotMade>
    ensures { OnClient (IsSubmitted to pgn bytes.now) desk.old desk.new result }
{
    let Some(client) = &mut desk.client else {
        return Err(NotMade::Refused(Refusal::NoSuchStation));
    };
    submit_by(alloc, client, to, pgn, bytes)
}

// Its bytes are copied only if nothing but a full ring or want of memory can prevent it.
fn submit_by(
    alloc: Global,
    client: &mut Client,
    to: Address,
    pgn: u32,
    bytes: &[u8],
) -> Result<u64, NotMade>
    ensures { IsSubmitted to pgn bytes.now client.old client.new result }
{
    if Pgn::new(pgn).is_err() {
        return Err(NotMade::Refused(Refusal::BadPgn));
    }
    if let Some(cause) = submit_refusal(client.station(), to, bytes.len()) {
        return Err(NotMade::Refused(cause));
    }
    let Ok(copy) = Vec::from_slice(alloc, bytes) else {
        return Err(NotMade::OutOfMemory);
    };
    match client.submit(to, pgn, Bytes::new(copy)) {
        Ok(ticket) => Ok(ticket),
        Err(refused) => Err(cause_of(refused)),
    }
}

fn cause_of(refused: SubmitRefused) -> NotMade
    ensures { result ≡ cause_of_refusal refused.refusal }
{
    match refused.refusal {
        Some(cause) => NotMade::Refused(cause),
        None => NotMade::OutOfMemory,
    }
}

/// Reads the next outcome of the client's messages.
#[unsafe(no_mangle)]
pub extern "C" fn fulwethi_raw_client_outcome(
    of: ClientHandle,
    note: &mut CNote,
    out: &mut ClientHandle,
) -> u32
    requires { IsSome of.desk }
    ensures { IsMadeOn note_code (λ before after answer. OnClient IsNoteRead before after answer × IsNoteWritten note.old note.new answer) of.desk out.new.desk result }
{
    let mut held = of.into_box();
    let code = write_note(outcome(&mut held), note);
    *out = ClientHandle::of_box(held);
    code
}

fn outcome(desk: &mut Desk) -> Result<Option<Note>, AllocError>
    ensures { OnClient IsNoteRead desk.old desk.new result }
{
    let Some(client) = &mut desk.client else {
        return Ok(None);
    };
    client.try_outcome()
}

/// Frees a client.
#[unsafe(no_mangle)]
pub extern "C" fn fulwethi_raw_client_free(of: ClientHandle)
    requires { IsSome of.desk }
{
    drop(of.into_box());
}
