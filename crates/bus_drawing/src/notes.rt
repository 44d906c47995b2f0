//! The notes of events.
ghost use Rattle.std.specs.Prelude.{◌≡◌, ◌++◌, OnOk, codes};
ghost use Rattle.frame_arrows.specs.Words.{name_of, length_words};
ghost use Rattle.bus_drawing.specs.Notes.{note_over, note_line, pgn_words, message_words, given_words, outcome_words, event_note, notes};

use frame_arrows::{put_length, put_name, put_pgn};
use message_events::{Bytes, Event, Events};
use pgn_ids::{Address, Pgn};
use port_table::PortId;
use script_text::{put_outcome, put_port};
use segment_core::EventList;
use std::alloc::AllocError;
use text_digits::{put_decimal, put_text};
use tp_wire::Outcome;

#[tactic(auto, unfolding(crate::specs::Notes::pgn_words))]
fn put_pgn_words(out: &mut Vec<u8>, pgn: Pgn) -> Result<(), AllocError>
    ensures { OnOk result (out.new.items ≡ out.old.items ++ pgn_words pgn) }
{
    put_text(out, ", PGN ")?;
    put_pgn(out, pgn)
}

fn put_message(out: &mut Vec<u8>, pgn: Pgn, bytes: &Bytes) -> Result<(), AllocError>
    ensures { OnOk result (out.new.items ≡ out.old.items ++ message_words pgn bytes.now) }
{
    put_pgn_words(out, pgn)?;
    put_length(out, bytes.len() as u64)
}

#[tactic(auto, unfolding(crate::specs::Notes::given_words))]
fn put_given(
    out: &mut Vec<u8>,
    port: PortId,
    from: Address,
    pgn: Pgn,
    bytes: &Bytes,
) -> Result<(), AllocError>
    ensures { OnOk result (out.new.items ≡ out.old.items ++ given_words port from pgn bytes.now) }
{
    put_text(out, "given ")?;
    put_port(out, port)?;
    put_text(out, " from ")?;
    put_name(out, from)?;
    put_message(out, pgn, bytes)
}

#[tactic(auto, unfolding(crate::specs::Notes::outcome_words))]
fn put_ended(
    out: &mut Vec<u8>,
    to: Address,
    number: u64,
    outcome: Outcome,
) -> Result<(), AllocError>
    ensures { OnOk result (out.new.items ≡ out.old.items ++ outcome_words to number outcome) }
{
    put_decimal(out, number)?;
    put_text(out, " to ")?;
    put_name(out, to)?;
    put_text(out, " ")?;
    put_outcome(out, outcome)
}

#[tactic(auto, unfolding(crate::specs::Notes::note_over))]
fn put_note_over(out: &mut Vec<u8>) -> Result<(), AllocError>
    ensures { OnOk result (out.new.items ≡ out.old.items ++ note_over) }
{
    put_text(out, "  Note over ")
}

/// The beginning of a note, up to its words.
fn put_place(out: &mut Vec<u8>, at: Address) -> Result<(), AllocError>
    ensures { OnOk result (out.new.items ≡ out.old.items ++ (note_over ++ name_of at ++ codes ": ")) }
{
    put_note_over(out)?;
    put_name(out, at)?;
    put_text(out, ": ")
}

fn draw_given(
    out: &mut Vec<u8>,
    port: PortId,
    from: Address,
    pgn: Pgn,
    bytes: &Bytes,
) -> Result<(), AllocError>
    ensures { OnOk result (out.new.items ≡ out.old.items ++ note_line port.station (given_words port from pgn bytes.now)) }
{
    put_place(out, port.station)?;
    put_given(out, port, from, pgn, bytes)?;
    put_text(out, "\n")
}

fn draw_outcome(
    out: &mut Vec<u8>,
    from: Address,
    to: Address,
    number: u64,
    outcome: Outcome,
) -> Result<(), AllocError>
    ensures { OnOk result (out.new.items ≡ out.old.items ++ note_line from (outcome_words to number outcome)) }
{
    put_place(out, from)?;
    put_ended(out, to, number, outcome)?;
    put_text(out, "\n")
}

/// The note of an event.
#[tactic(auto, unfolding(crate::specs::Notes::event_note))]
fn draw_event(out: &mut Vec<u8>, event: &Event) -> Result<(), AllocError>
    ensures { OnOk result (out.new.items ≡ out.old.items ++ event_note event.now) }
{
    match event {
        Event::Given {
            port,
            from,
            pgn,
            bytes,
            ..
        } => draw_given(out, *port, *from, *pgn, bytes),
        Event::Outcome {
            from,
            to,
            number,
            outcome,
        } => draw_outcome(out, *from, *to, *number, *outcome),
    }
}

/// The notes of the events of one call, in their order: what a port was given, at its station; an outcome, at the sender.
pub fn draw_told(out: &mut Vec<u8>, events: &Events) -> Result<(), AllocError>
    ensures { OnOk result (out.new.items ≡ out.old.items ++ notes events.now) }
{
    for event in events {
        draw_event(out, event)?;
    }
    Ok(())
}

/// The notes of the events of several calls, in their order.
pub fn draw_each_told(out: &mut Vec<u8>, events: &EventList) -> Result<(), AllocError>
    ensures { OnOk result (out.new.items ≡ out.old.items ++ notes events.now) }
{
    for part in events.parts() {
        draw_told(out, part)?;
    }
    Ok(())
}
