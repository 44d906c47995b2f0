//! A line of a log, and its output.
ghost use Rattle.std.specs.Prelude.{◌≡◌, ◌++◌, OnOk};
ghost use Rattle.bus_decode.specs.Listening.{is_asking, single, frame_seen, shown_seen, form_with, seen_as, line_seen, Seen, Read, ended_counts, ended_text};
ghost use Rattle.bus_decode.specs.declared.listening.LineError.TheVariants.{OutOfMemory};

use crate::counts::Counts;
use crate::listener::Listener;
use crate::options::Options;
use crate::telling::{tell, tell_frame, tell_single, tell_summary, tell_wrong};
use bus_frame::Frame;
use log_reports::Place;
use log_text::{Form, Iface, LogLine, form_of, read_line_as};
use pgn_ids::read_id;
use std::alloc::{AllocError, Global};
use tp_wire::constants::{ACKNOWLEDGEMENT, REQUEST};
use tp_wire::is_transport;

/// Why a line has no output.
#[derive(Clone, Copy)]
pub(crate) enum LineError {
    /// Memory was refused.
    OutOfMemory,
    /// It isn't a line of a log.
    NotLogLine,
}

impl From<AllocError> for LineError {
    ghost from_gives = { λ _ e. e ≡ OutOfMemory };

    fn from(_: AllocError) -> LineError {
        LineError::OutOfMemory
    }
}

/// Whether a frame is a Request or an Acknowledgement.
fn is_asking(frame: &Frame) -> bool
    ensures { result ≡ is_asking frame.now }
{
    let pgn = read_id(frame.id()).pgn.raw();
    pgn == REQUEST || pgn == ACKNOWLEDGEMENT
}

/// The line of a frame, if it carries nothing of a message, and is asked for.
fn put_other(
    alloc: Global,
    out: &mut Vec<u8>,
    now: u64,
    iface: &Iface,
    options: &Options,
    frame: &Frame,
) -> Result<(), AllocError>
    ensures { OnOk result (out.new.items ≡ out.old.items ++ single now iface.now options.now frame.now) }
{
    if !options.shows_singles() || (is_transport(frame) && !is_asking(frame)) {
        return Ok(());
    }
    tell_single(alloc, out, now, iface, options, frame)
}

/// A frame is seen at a time on an interface.
fn take_frame(
    alloc: Global,
    listener: &mut Listener,
    counts: &mut Counts,
    options: &Options,
    time: u64,
    iface: Iface,
    frame: &Frame,
    out: &mut Vec<u8>,
) -> Result<(), AllocError>
    ensures { OnOk result (Seen (listener.new, counts.new) out.old.items out.new.items (frame_seen options.now (listener.old, counts.old) time iface frame.now)) }
{
    counts.add_frame(frame, time < listener.decoder.time_on(iface));
    let mut told = Vec::new(alloc);
    let seen = listener.decoder.take(alloc, time, iface, frame, &mut told)?;
    counts.add_stray(listener.awaited.left(seen, iface, frame)?);
    listener.awaited.add_each(told.as_slice())?;
    counts.add_each(options, told.as_slice());
    let now = listener.decoder.time();
    let place = Place {
        number: counts.frames,
        time: now,
    };
    tell_frame(
        alloc,
        out,
        place,
        options,
        iface,
        frame,
        told.as_slice(),
        &mut listener.followed,
    )?;
    put_other(alloc, out, now, &iface, options, frame)
}

/// A line shows a frame, or is passed over.
#[tactic(auto, unfolding(crate::specs::Listening::shown_seen))]
fn take_shown(
    alloc: Global,
    listener: &mut Listener,
    counts: &mut Counts,
    options: &Options,
    shown: LogLine,
    out: &mut Vec<u8>,
) -> Result<(), AllocError>
    ensures { OnOk result (Seen (listener.new, counts.new) out.old.items out.new.items (shown_seen options.now (listener.old, counts.old) shown)) }
{
    match shown {
        LogLine::Passed => {
            counts.add_passed();
            Ok(())
        }
        LogLine::Frame { time, iface, frame } => {
            let time = time.unwrap_or(listener.decoder.time_on(iface));
            take_frame(alloc, listener, counts, options, time, iface, &frame, out)
        }
    }
}

/// The form of a log's lines: that of its first line that has one.
fn form_with(form: Option<Form>, line: &[u8]) -> Option<Form>
    ensures { result ≡ form_with form line.now }
{
    match form {
        None => form_of(line),
        Some(form) => Some(form),
    }
}

/// A line of a log of this form is read, by its number.
#[tactic(auto, unfolding(crate::specs::Listening::seen_as))]
fn take_line_as(
    alloc: Global,
    listener: &mut Listener,
    form: Option<Form>,
    counts: &mut Counts,
    options: &Options,
    number: u64,
    line: &[u8],
    out: &mut Vec<u8>,
) -> Result<(), LineError>
    ensures { Read result ((listener.new, form), counts.new) out.old.items out.new.items (seen_as options.now form (listener.old, counts.old) number line.now) }
{
    match read_line_as(form, line) {
        Ok(shown) => {
            take_shown(alloc, listener, counts, options, shown, out)?;
            Ok(())
        }
        Err(_) => {
            if options.strict {
                return Err(LineError::NotLogLine);
            }
            counts.add_wrong();
            tell_wrong(out, options, number)?;
            Ok(())
        }
    }
}

/// Reads a line with its number. Its output is put behind what `out` holds.
pub(crate) fn take_line(
    alloc: Global,
    listener: &mut Listener,
    form: &mut Option<Form>,
    counts: &mut Counts,
    options: &Options,
    number: u64,
    line: &[u8],
    out: &mut Vec<u8>,
) -> Result<(), LineError>
    ensures { Read result ((listener.new, form.new), counts.new) out.old.items out.new.items (line_seen options.now ((listener.old, form.old), counts.old) number line.now) }
{
    let known = form_with(*form, line);
    *form = known;
    counts.add_line();
    take_line_as(alloc, listener, known, counts, options, number, line, out)
}

/// The log ends. The output of that is put behind what `out` holds.
pub(crate) fn take_end(
    alloc: Global,
    listener: &mut Listener,
    counts: &mut Counts,
    options: &Options,
    out: &mut Vec<u8>,
) -> Result<(), AllocError>
    ensures counts { OnOk result (counts.new ≡ ended_counts options.now (listener.old, counts.old)) }
    ensures text { OnOk result (out.new.items ≡ out.old.items ++ ended_text options.now (listener.old, counts.old)) }
{
    let place = Place {
        number: counts.frames,
        time: listener.decoder.time(),
    };
    let mut told = Vec::new(alloc);
    listener.decoder.finish(&mut told)?;
    counts.add_each(options, told.as_slice());
    let told = told.as_slice();
    tell(alloc, out, place, options, told, &mut listener.followed)?;
    tell_summary(alloc, out, options, &listener.followed.summary)
}
