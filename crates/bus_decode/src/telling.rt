//! The printed text of the reports, as the options say.
ghost use Rattle.std.specs.Prelude.{◌≡◌, ◌++◌, IfOk, OnOk};
ghost use Rattle.log_lines.specs.Explained.{words_lines};
ghost use Rattle.log_lines.specs.Text.{told_line};
ghost use Rattle.bus_decode.specs.Followed.{after_each, left_followed, heard_followed};
ghost use Rattle.bus_decode.specs.Telling.{in_words, words_told, message_text, shown_text, followed_text, plain_line, plain_text, told_text, summary_text, frame_text, single_text, wrong_text};

use crate::followed::{Followed, sum_up};
use crate::options::Options;
use bus_frame::Frame;
use log_courses::{Course, Summary};
use log_lines::{
    put_explained, put_marks, put_row_objects, put_single, put_single_object, put_table, put_told,
    put_told_object, put_wrong, put_wrong_object,
};
use log_reports::{Line, Place, Told, explain};
use log_text::Iface;
use pgn_ids::{Pgn, read_id};
use std::alloc::{AllocError, Global};

/// The lines of a message in words, if these are asked for.
fn in_words(
    alloc: Global,
    options: &Options,
    pgn: Pgn,
    bytes: &[u8],
) -> Result<Vec<Line>, AllocError>
    ensures { IfOk result (λ lines. lines.items ≡ in_words options.now pgn bytes.now) }
{
    if options.explain {
        return explain(alloc, pgn, bytes);
    }
    Ok(Vec::new(alloc))
}

/// The lines of a report in words: only a message that was given has some.
fn words_told(alloc: Global, options: &Options, told: &Told) -> Result<Vec<Line>, AllocError>
    ensures { IfOk result (λ lines. lines.items ≡ words_told options.now told.now) }
{
    match told {
        Told::Given { pgn, bytes, .. } => in_words(alloc, options, *pgn, bytes.as_slice()),
        Told::Aborted { .. } => Ok(Vec::new(alloc)),
        Told::Lost { .. } => Ok(Vec::new(alloc)),
    }
}

/// The line of a message and what it means in words.
fn put_lines(out: &mut Vec<u8>, now: u64, told: &Told, words: &[Line]) -> Result<(), AllocError>
    ensures { OnOk result (out.new.items ≡ out.old.items ++ (told_line now told.now ++ words_lines words.now)) }
{
    put_told(out, now, told)?;
    put_explained(out, words)
}

/// Puts the report on a message at a time.
#[tactic(auto, unfolding(crate::specs::Telling::message_text))]
fn put_message(
    alloc: Global,
    out: &mut Vec<u8>,
    now: u64,
    options: &Options,
    course: &Course,
    told: &Told,
) -> Result<(), AllocError>
    ensures { OnOk result (out.new.items ≡ out.old.items ++ message_text options.now now course.now told.now) }
{
    let words = words_told(alloc, options, told)?;
    if options.json {
        return put_told_object(out, options.detail(), now, course, words.as_slice(), told);
    }
    put_lines(out, now, told, words.as_slice())?;
    put_marks(out, course.marks.as_slice())
}

/// Puts the report on a message, if it is shown.
fn put_shown(
    alloc: Global,
    out: &mut Vec<u8>,
    now: u64,
    options: &Options,
    course: &Course,
    told: &Told,
) -> Result<(), AllocError>
    ensures { OnOk result (out.new.items ≡ out.old.items ++ shown_text options.now now course.now told.now) }
{
    if options.shows(told) {
        return put_message(alloc, out, now, options, course, told);
    }
    Ok(())
}

/// Puts the reports at a frame, each with its course, which is taken out.
fn put_followed(
    alloc: Global,
    out: &mut Vec<u8>,
    place: Place,
    options: &Options,
    told: &[Told],
    followed: &mut Followed,
) -> Result<(), AllocError>
    ensures text { OnOk result (out.new.items ≡ out.old.items ++ followed_text place options.now told.now followed.old) }
    ensures followed { OnOk result (followed.new ≡ after_each options.now place told.now followed.old) }
{
    for one in told {
        let course = followed.courses.end(alloc, options.detail(), place, one)?;
        sum_up(&mut followed.summary, options, &course, one)?;
        put_shown(alloc, out, place.time, options, &course, one)?;
    }
    Ok(())
}

/// Puts the lines of a message without its course, if it is shown.
fn put_line(
    alloc: Global,
    out: &mut Vec<u8>,
    now: u64,
    options: &Options,
    told: &Told,
) -> Result<(), AllocError>
    ensures { OnOk result (out.new.items ≡ out.old.items ++ plain_line now options.now told.now) }
{
    if options.shows(told) {
        let words = words_told(alloc, options, told)?;
        return put_lines(out, now, told, words.as_slice());
    }
    Ok(())
}

/// Puts the reports at a time, if no course is followed.
fn put_plain(
    alloc: Global,
    out: &mut Vec<u8>,
    now: u64,
    options: &Options,
    told: &[Told],
) -> Result<(), AllocError>
    ensures { OnOk result (out.new.items ≡ out.old.items ++ plain_text now options.now told.now) }
{
    for one in told {
        put_line(alloc, out, now, options, one)?;
    }
    Ok(())
}

/// Puts the reports at the end of the log. If courses are followed, those of the reports are taken out.
#[tactic(auto, unfolding(crate::specs::Telling::told_text, crate::specs::Followed::left_followed))]
pub(crate) fn tell(
    alloc: Global,
    out: &mut Vec<u8>,
    place: Place,
    options: &Options,
    told: &[Told],
    followed: &mut Followed,
) -> Result<(), AllocError>
    ensures text { OnOk result (out.new.items ≡ out.old.items ++ told_text place options.now told.now followed.old) }
    ensures followed { OnOk result (followed.new ≡ left_followed options.now place told.now followed.old) }
{
    if options.follows() {
        return put_followed(alloc, out, place, options, told, followed);
    }
    put_plain(alloc, out, place.time, options, told)
}

/// Puts the reports at a frame. If courses are followed, those of the messages that continue have one frame more.
#[tactic(auto, unfolding(crate::specs::Telling::told_text, crate::specs::Followed::heard_followed))]
pub(crate) fn tell_frame(
    alloc: Global,
    out: &mut Vec<u8>,
    place: Place,
    options: &Options,
    iface: Iface,
    frame: &Frame,
    told: &[Told],
    followed: &mut Followed,
) -> Result<(), AllocError>
    ensures text { OnOk result (out.new.items ≡ out.old.items ++ told_text place options.now told.now followed.old) }
    ensures followed { OnOk result (followed.new ≡ heard_followed options.now iface frame.now place told.now followed.old) }
{
    if !options.follows() {
        return put_plain(alloc, out, place.time, options, told);
    }
    put_followed(alloc, out, place, options, told, followed)?;
    followed.hear(alloc, options, iface, frame, place, told)
}

/// Puts the summary of a log that has ended, if it is asked for.
#[tactic(auto, unfolding(crate::specs::Telling::summary_text))]
pub(crate) fn tell_summary(
    alloc: Global,
    out: &mut Vec<u8>,
    options: &Options,
    summary: &Summary,
) -> Result<(), AllocError>
    ensures { OnOk result (out.new.items ≡ out.old.items ++ summary_text options.now summary.now) }
{
    if !options.summary {
        return Ok(());
    }
    if options.json {
        put_row_objects(alloc, out, summary)
    } else {
        put_table(alloc, out, summary)
    }
}

/// A frame that carries nothing of a message, with what its bytes mean in words.
fn put_frame(
    out: &mut Vec<u8>,
    now: u64,
    iface: &Iface,
    options: &Options,
    words: &[Line],
    frame: &Frame,
) -> Result<(), AllocError>
    ensures { OnOk result (out.new.items ≡ out.old.items ++ frame_text now iface.now options.now frame.now words.now) }
{
    if options.json {
        return put_single_object(out, now, *iface, words, frame);
    }
    put_single(out, now, iface, frame)?;
    put_explained(out, words)
}

/// Puts a frame with the words of its PGN.
fn put_in_words(
    alloc: Global,
    out: &mut Vec<u8>,
    now: u64,
    iface: &Iface,
    options: &Options,
    pgn: Pgn,
    frame: &Frame,
) -> Result<(), AllocError>
    ensures { OnOk result (out.new.items ≡ out.old.items ++ frame_text now iface.now options.now frame.now (in_words options.now pgn frame.now.bytes)) }
{
    let words = in_words(alloc, options, pgn, frame.bytes())?;
    put_frame(out, now, iface, options, words.as_slice(), frame)
}

/// Puts a frame that carries nothing of a message, if it is asked for.
#[tactic(auto, unfolding(crate::specs::Telling::single_text))]
pub(crate) fn tell_single(
    alloc: Global,
    out: &mut Vec<u8>,
    now: u64,
    iface: &Iface,
    options: &Options,
    frame: &Frame,
) -> Result<(), AllocError>
    ensures { OnOk result (out.new.items ≡ out.old.items ++ single_text now iface.now options.now frame.now) }
{
    let meaning = read_id(frame.id());
    if options.ask_for_single(meaning.pgn)
        && options.ask_for(meaning.from, meaning.to, meaning.pgn)
    {
        return put_in_words(alloc, out, now, iface, options, meaning.pgn, frame);
    }
    Ok(())
}

/// A wrong line, by its number.
#[tactic(auto, unfolding(crate::specs::Telling::wrong_text))]
pub(crate) fn tell_wrong(
    out: &mut Vec<u8>,
    options: &Options,
    number: u64,
) -> Result<(), AllocError>
    ensures { OnOk result (out.new.items ≡ out.old.items ++ wrong_text options.now number) }
{
    if options.json {
        put_wrong_object(out, number)
    } else {
        put_wrong(out, number)
    }
}
