//! The printed text of a log as JSON.
ghost use Rattle.std.specs.Prelude.{◌≡◌, ◌++◌, OnOk};
ghost use Rattle.log_lines.specs.Objects.{object_line};
ghost use Rattle.log_lines.specs.Json.{given_members, aborted_members, lost_members, frame_members, told_object, single_object, wrong_object};

use crate::members::Member;
use crate::parts::put_each;
use bus_frame::Frame;
use log_courses::Course;
use log_fields::Iface;
use log_reports::{Cause, Detail, Key, Line, Told};
use pgn_ids::{Address, Pgn, read_id};
use std::alloc::AllocError;

/// The line of a message that was given.
fn put_given<'a>(
    out: &mut Vec<u8>,
    detail: Detail,
    now: u64,
    course: &'a Course,
    explained: &'a [Line],
    key: &Key,
    pgn: Pgn,
    bytes: &'a [u8],
) -> Result<(), AllocError>
    ensures { OnOk result (out.new.items ≡ out.old.items ++ object_line (given_members detail now course.now explained.now key.now pgn bytes.now)) }
{
    let members = [
        Member::Number("{\"again\":", course.again),
        Member::Data(",\"data\":", bytes),
        Member::Explained(explained),
        Member::Place(",\"first\":", course.first),
        Member::Frames(detail, &course.marks),
        Member::Address(",\"from\":", key.from),
        Member::Interface(key.iface),
        Member::Place(",\"kind\":\"given\",\"last\":", course.last),
        Member::Length(bytes),
        Member::Pgn(pgn),
        Member::Number(",\"time\":", now),
        Member::Address(",\"to\":", key.to),
        Member::Text("}\n"),
    ];
    put_each(out, &members)
}

/// The line of a message that is lost.
fn put_lost(
    out: &mut Vec<u8>,
    detail: Detail,
    now: u64,
    course: &Course,
    key: &Key,
    pgn: Pgn,
    have: u32,
    size: u32,
    cause: Cause,
) -> Result<(), AllocError>
    ensures { OnOk result (out.new.items ≡ out.old.items ++ object_line (lost_members detail now course.now key.now pgn have size cause)) }
{
    let members = [
        Member::Number("{\"again\":", course.again),
        Member::Cause(cause),
        Member::Place(",\"first\":", course.first),
        Member::Frames(detail, &course.marks),
        Member::Address(",\"from\":", key.from),
        Member::Number(",\"have\":", have as u64),
        Member::Interface(key.iface),
        Member::Place(",\"kind\":\"lost\",\"last\":", course.last),
        Member::Number(",\"length\":", size as u64),
        Member::Pgn(pgn),
        Member::Number(",\"time\":", now),
        Member::Address(",\"to\":", key.to),
        Member::Text("}\n"),
    ];
    put_each(out, &members)
}

/// The line of a message that was aborted.
fn put_aborted(
    out: &mut Vec<u8>,
    detail: Detail,
    now: u64,
    course: &Course,
    key: &Key,
    pgn: Pgn,
    reason: u8,
    who: Address,
) -> Result<(), AllocError>
    ensures { OnOk result (out.new.items ≡ out.old.items ++ object_line (aborted_members detail now course.now key.now pgn reason who)) }
{
    let members = [
        Member::Number("{\"again\":", course.again),
        Member::Address(",\"by\":", who),
        Member::Place(",\"first\":", course.first),
        Member::Frames(detail, &course.marks),
        Member::Address(",\"from\":", key.from),
        Member::Interface(key.iface),
        Member::Place(",\"kind\":\"aborted\",\"last\":", course.last),
        Member::Pgn(pgn),
        Member::Number(",\"reason\":", reason as u64),
        Member::Number(",\"time\":", now),
        Member::Address(",\"to\":", key.to),
        Member::Text("}\n"),
    ];
    put_each(out, &members)
}

/// The line of a report at a time in microseconds, with its course, and with the course's frames if frames are listed. A message that was given
/// has these lines of its meaning, if there are any.
#[tactic(auto, unfolding(crate::specs::Json::told_object))]
pub fn put_told_object(
    out: &mut Vec<u8>,
    detail: Detail,
    now: u64,
    course: &Course,
    explained: &[Line],
    told: &Told,
) -> Result<(), AllocError>
    ensures { OnOk result (out.new.items ≡ out.old.items ++ told_object detail now course.now explained.now told.now) }
{
    match told {
        Told::Given { key, pgn, bytes } => {
            put_given(
                out,
                detail,
                now,
                course,
                explained,
                key,
                *pgn,
                bytes.as_slice(),
            )
        }
        Told::Aborted {
            key,
            pgn,
            reason,
            who,
        } => put_aborted(out, detail, now, course, key, *pgn, *reason, *who),
        Told::Lost {
            key,
            pgn,
            have,
            size,
            cause,
        } => put_lost(out, detail, now, course, key, *pgn, *have, *size, *cause),
    }
}

/// The line of a frame that carries nothing of a message.
fn put_frame<'a>(
    out: &mut Vec<u8>,
    now: u64,
    iface: Iface,
    explained: &'a [Line],
    from: Address,
    to: Address,
    pgn: Pgn,
    bytes: &'a [u8],
) -> Result<(), AllocError>
    ensures { OnOk result (out.new.items ≡ out.old.items ++ object_line (frame_members now iface explained.now from to pgn bytes.now)) }
{
    let members = [
        Member::Data("{\"data\":", bytes),
        Member::Explained(explained),
        Member::Address(",\"from\":", from),
        Member::Interface(iface),
        Member::Text(",\"kind\":\"frame\""),
        Member::Length(bytes),
        Member::Pgn(pgn),
        Member::Number(",\"time\":", now),
        Member::Address(",\"to\":", to),
        Member::Text("}\n"),
    ];
    put_each(out, &members)
}

/// The line of a frame that carries nothing of a message, seen at a time in microseconds, with these lines that say what it means, if there are
/// any.
#[tactic(auto, unfolding(crate::specs::Json::single_object))]
pub fn put_single_object(
    out: &mut Vec<u8>,
    now: u64,
    iface: Iface,
    explained: &[Line],
    frame: &Frame,
) -> Result<(), AllocError>
    ensures { OnOk result (out.new.items ≡ out.old.items ++ single_object now iface explained.now frame.now) }
{
    let meaning = read_id(frame.id());
    let (from, to, pgn) = (meaning.from, meaning.to, meaning.pgn);
    put_frame(out, now, iface, explained, from, to, pgn, frame.bytes())
}

/// The line of a wrong line, by its number.
pub fn put_wrong_object(out: &mut Vec<u8>, number: u64) -> Result<(), AllocError>
    ensures { OnOk result (out.new.items ≡ out.old.items ++ wrong_object number) }
{
    let members = [
        Member::Number("{\"kind\":\"wrong line\",\"line\":", number),
        Member::Text("}\n"),
    ];
    put_each(out, &members)
}
