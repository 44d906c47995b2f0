//! What a line of a log draws.
ghost use Rattle.std.specs.Prelude.{◌≡◌, ◌++◌, OnOk};
ghost use Rattle.log_drawing.specs.Picture.{between_texts, wrong_line, participants, beginning, first_picture, same_iface, is_elsewhere, is_ended, with_frame, frame_seen, shown_seen, form_with, seen_as, line_seen};

use crate::counts::{Counts, more};
use crate::options::{Options, Pair};
use crate::packets::{Packets, draw_at};
use bus_frame::Frame;
use frame_arrows::{draw_heading, draw_participants};
use log_text::{Form, Iface, LogLine, form_of, read_line_as};
use std::alloc::AllocError;
use text_digits::{put_decimal, put_text};

/// How far a drawing is.
#[derive(Clone, Copy)]
pub(crate) struct Picture {
    /// The form of the log's lines: that of its first line that has one.
    pub(crate) form: Option<Form>,
    /// The interface whose frames are drawn, if it is known.
    pub(crate) iface: Option<Iface>,
    /// The packets that aren't drawn yet.
    pub(crate) packets: Option<Packets>,
    /// What was counted.
    pub(crate) counts: Counts,
}

/// A number between texts.
#[tactic(auto, unfolding(crate::specs::Picture::between_texts))]
fn put_between(out: &mut Vec<u8>, before: &str, number: u64, behind: &str) -> Result<(), AllocError>
    ensures { OnOk result (out.new.items ≡ out.old.items ++ between_texts before.now number behind.now) }
{
    put_text(out, before)?;
    put_decimal(out, number)?;
    put_text(out, behind)
}

/// Reports a wrong line, by its number.
fn put_wrong(told: &mut Vec<u8>, number: u64) -> Result<(), AllocError>
    ensures { OnOk result (told.new.items ≡ told.old.items ++ wrong_line number) }
{
    put_between(told, "line ", number, ": not a log line\n")
}

fn draw_pair(out: &mut Vec<u8>, pair: Option<Pair>) -> Result<(), AllocError>
    ensures { OnOk result (out.new.items ≡ out.old.items ++ participants pair) }
{
    match pair {
        None => Ok(()),
        Some(pair) => draw_participants(out, [pair.first, pair.second].as_slice()),
    }
}

/// The beginning of the drawing, in front of the first frame.
fn draw_beginning(out: &mut Vec<u8>, options: &Options, drawn: u64) -> Result<(), AllocError>
    ensures { OnOk result (out.new.items ≡ out.old.items ++ beginning options.now drawn) }
{
    if drawn != 0 {
        return Ok(());
    }
    draw_heading(out)?;
    draw_pair(out, options.pair)
}

/// The form of a log's lines: that of its first line that has one.
fn form_with(form: Option<Form>, line: &[u8]) -> Option<Form>
    ensures { result ≡ form_with form line.now }
{
    match form {
        None => form_of(line),
        Some(form) => Some(form),
    }
}

impl Picture {
    /// A picture without a frame.
    pub(crate) fn new(options: &Options) -> Picture
        ensures { result ≡ first_picture options.now }
    {
        Picture {
            form: None,
            iface: options.iface,
            packets: None,
            counts: Counts::none(),
        }
    }

    /// Whether an interface isn't the one whose frames are drawn, which is known.
    fn is_elsewhere(&self, iface: &Iface) -> bool
        ensures { result ≡ is_elsewhere self.now iface.now }
    {
        match &self.iface {
            None => false,
            Some(known) => iface.name() != known.name(),
        }
    }

    /// Whether the drawing ends here, since a line was wrong.
    pub(crate) fn is_ended(&self, options: &Options) -> bool
        ensures { result ≡ is_ended options.now self.now }
    {
        options.strict && self.counts.wrong != 0
    }

    /// Draws a frame that is asked for, unless it was seen on another interface.
    fn draw_frame(
        &mut self,
        options: &Options,
        time: Option<u64>,
        iface: Iface,
        frame: &Frame,
        out: &mut Vec<u8>,
    ) -> Result<(), AllocError>
        ensures left { OnOk result (self.new ≡ (with_frame options.now self.old time iface frame.now).0) }
        ensures text { OnOk result (out.new.items ≡ out.old.items ++ (with_frame options.now self.old time iface frame.now).1) }
    {
        if self.is_elsewhere(&iface) {
            self.counts.elsewhere = more(self.counts.elsewhere);
            return Ok(());
        }
        draw_beginning(out, options, self.counts.drawn)?;
        let packets = draw_at(out, self.packets, time, frame)?;
        self.iface = Some(iface);
        self.packets = packets;
        self.counts.drawn = more(self.counts.drawn);
        Ok(())
    }

    /// A line shows a frame, or is passed over.
    #[tactic(auto, unfolding(crate::specs::Picture::shown_seen))]
    fn take_shown(
        &mut self,
        options: &Options,
        shown: LogLine,
        out: &mut Vec<u8>,
    ) -> Result<(), AllocError>
        ensures left { OnOk result (self.new ≡ (shown_seen options.now self.old shown).0) }
        ensures text { OnOk result (out.new.items ≡ out.old.items ++ (shown_seen options.now self.old shown).1) }
    {
        match shown {
            LogLine::Passed => {
                self.counts.passed = more(self.counts.passed);
                Ok(())
            }
            LogLine::Frame { time, iface, frame } => {
                self.counts.frames = more(self.counts.frames);
                if !options.want(time, &frame) {
                    return Ok(());
                }
                self.draw_frame(options, time, iface, &frame, out)
            }
        }
    }

    /// Reads a line with its number. Its drawing is put behind what `out` holds, and the report that it is wrong behind
    /// what `told` holds.
    #[tactic(auto, unfolding(crate::specs::Picture::line_seen))]
    pub(crate) fn take_line(
        &mut self,
        options: &Options,
        number: u64,
        line: &[u8],
        out: &mut Vec<u8>,
        told: &mut Vec<u8>,
    ) -> Result<(), AllocError>
        ensures left { OnOk result (self.new ≡ (line_seen options.now self.old number line.now).left) }
        ensures text { OnOk result (out.new.items ≡ out.old.items ++ (line_seen options.now self.old number line.now).text) }
        ensures errors { OnOk result (told.new.items ≡ told.old.items ++ (line_seen options.now self.old number line.now).errors) }
    {
        self.form = form_with(self.form, line);
        self.counts.lines = more(self.counts.lines);
        match read_line_as(self.form, line) {
            Ok(shown) => self.take_shown(options, shown, out),
            Err(_) => {
                self.counts.wrong = more(self.counts.wrong);
                put_wrong(told, number)
            }
        }
    }
}
