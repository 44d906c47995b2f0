//! The printed text of a log.
ghost use Rattle.std.specs.Prelude.{◌≡◌, ◌++◌, OnOk};
ghost use Rattle.log_lines.specs.Text.{place_text, way_text, message_text, given_line, aborted_line, lost_line, told_line, wrong_line, single_line};

use crate::parts::{Part, put_each};
use bus_frame::Frame;
use log_fields::Iface;
use log_reports::{Cause, Key, Told, cause_words};
use pgn_ids::{Address, Pgn, read_id};
use std::alloc::AllocError;

/// When something was seen, on which interface, what it is, between which addresses it went, and its PGN.
fn put_head<'a>(
    out: &mut Vec<u8>,
    now: u64,
    iface: &'a Iface,
    what: &'a str,
    from: Address,
    to: Address,
    pgn: Pgn,
) -> Result<(), AllocError>
    ensures { OnOk result (out.new.items ≡ out.old.items ++ (place_text now iface.now what.now ++ way_text from to pgn)) }
{
    let parts = [
        Part::Time(now),
        Part::Text(" "),
        Part::Bytes(iface.name()),
        Part::Text(what),
        Part::Address(from),
        Part::Text(" "),
        Part::Address(to),
        Part::Text(" "),
        Part::Pgn(pgn),
        Part::Text(" "),
    ];
    put_each(out, &parts)
}

fn put_message(out: &mut Vec<u8>, bytes: &[u8]) -> Result<(), AllocError>
    ensures { OnOk result (out.new.items ≡ out.old.items ++ message_text bytes.now) }
{
    let parts = [
        Part::Number(bytes.len() as u64),
        Part::Text(" "),
        Part::Hex(bytes),
        Part::Text("\n"),
    ];
    put_each(out, &parts)
}

fn put_given(
    out: &mut Vec<u8>,
    now: u64,
    key: &Key,
    pgn: Pgn,
    bytes: &[u8],
) -> Result<(), AllocError>
    ensures { OnOk result (out.new.items ≡ out.old.items ++ given_line now key.now pgn bytes.now) }
{
    put_head(out, now, &key.iface, " given ", key.from, key.to, pgn)?;
    put_message(out, bytes)
}

fn put_aborted(
    out: &mut Vec<u8>,
    now: u64,
    key: &Key,
    pgn: Pgn,
    reason: u8,
    who: Address,
) -> Result<(), AllocError>
    ensures { OnOk result (out.new.items ≡ out.old.items ++ aborted_line now key.now pgn reason who) }
{
    put_head(out, now, &key.iface, " aborted ", key.from, key.to, pgn)?;
    let parts = [
        Part::Number(u64::from(reason)),
        Part::Text(" "),
        Part::Address(who),
        Part::Text("\n"),
    ];
    put_each(out, &parts)
}

fn put_lost(
    out: &mut Vec<u8>,
    now: u64,
    key: &Key,
    pgn: Pgn,
    have: u32,
    size: u32,
    cause: Cause,
) -> Result<(), AllocError>
    ensures { OnOk result (out.new.items ≡ out.old.items ++ lost_line now key.now pgn have size cause) }
{
    put_head(out, now, &key.iface, " lost ", key.from, key.to, pgn)?;
    let parts = [
        Part::Number(u64::from(have)),
        Part::Text(" "),
        Part::Number(u64::from(size)),
        Part::Text(" "),
        Part::Text(cause_words(cause)),
        Part::Text("\n"),
    ];
    put_each(out, &parts)
}

/// The line of a report at a time, in microseconds.
#[tactic(auto, unfolding(crate::specs::Text::told_line))]
pub fn put_told(out: &mut Vec<u8>, now: u64, told: &Told) -> Result<(), AllocError>
    ensures { OnOk result (out.new.items ≡ out.old.items ++ told_line now told.now) }
{
    match told {
        Told::Given { key, pgn, bytes } => put_given(out, now, key, *pgn, bytes.as_slice()),
        Told::Aborted {
            key,
            pgn,
            reason,
            who,
        } => put_aborted(out, now, key, *pgn, *reason, *who),
        Told::Lost {
            key,
            pgn,
            have,
            size,
            cause,
        } => put_lost(out, now, key, *pgn, *have, *size, *cause),
    }
}

/// The line of a wrong line, by its number.
#[tactic(auto, unfolding(crate::specs::Text::wrong_line))]
pub fn put_wrong(out: &mut Vec<u8>, number: u64) -> Result<(), AllocError>
    ensures { OnOk result (out.new.items ≡ out.old.items ++ wrong_line number) }
{
    let parts = [
        Part::Text("line "),
        Part::Number(number),
        Part::Text(": not a log line\n"),
    ];
    put_each(out, &parts)
}

/// The line of a frame that carries nothing of a message, seen at a time in microseconds.
#[tactic(auto, unfolding(crate::specs::Text::single_line))]
pub fn put_single(
    out: &mut Vec<u8>,
    now: u64,
    iface: &Iface,
    frame: &Frame,
) -> Result<(), AllocError>
    ensures { OnOk result (out.new.items ≡ out.old.items ++ single_line now iface.now frame.now) }
{
    let meaning = read_id(frame.id());
    let (from, to, pgn) = (meaning.from, meaning.to, meaning.pgn);
    put_head(out, now, iface, " frame ", from, to, pgn)?;
    put_message(out, frame.bytes())
}
