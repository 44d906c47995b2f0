//! What was counted of a log.
ghost use Rattle.std.specs.Prelude.{◌≡◌, Some};
ghost use Rattle.std.specs.Fmt.{DisplaysOnOk};
ghost use Rattle.log_courses.specs.Course.{more};
ghost use Rattle.bus_decode.specs.Counts.{no_counts, with_told, with_asked, with_each, with_frame, with_strays, lines_text, frames_text, messages_text, rest_text, counts_text};

use crate::options::Options;
use crate::strays::{Strays, put_number};
use bus_frame::Frame;
use log_reports::{Stray, Told};
use std::fmt;
use tp_wire::{is_transport, read};

/// What was counted of a log. A number that would pass 2^64 - 1 stays there.
#[derive(Clone, Copy, PartialEq, Eq)]
pub struct Counts {
    /// Lines that were read.
    pub lines: u64,
    /// Lines of them that were passed over.
    pub passed: u64,
    /// Lines of them that were wrong.
    pub wrong: u64,
    /// Data frames with a 29-bit identifier.
    pub frames: u64,
    /// Frames of them whose time is before that of the one before on their interface.
    pub earlier: u64,
    /// Frames of them whose PGN is one of a transport, of Request or of Acknowledgement.
    pub transport: u64,
    /// Frames of those that mean nothing.
    pub malformed: u64,
    /// Frames of a transport that belong to no message.
    pub strays: Strays,
    /// Messages that were given.
    pub messages: u64,
    /// Messages that were aborted.
    pub aborted: u64,
    /// Messages that were lost.
    pub lost: u64,
}

/// One more, up to the last value.
pub(crate) fn more(n: u64) -> u64
    ensures { result ≡ more n }
{
    n.saturating_add(1)
}

impl Counts {
    /// Nothing was counted.
    pub fn none() -> Counts
        ensures { result ≡ no_counts }
    {
        Counts {
            lines: 0,
            passed: 0,
            wrong: 0,
            frames: 0,
            earlier: 0,
            transport: 0,
            malformed: 0,
            strays: Strays::none(),
            messages: 0,
            aborted: 0,
            lost: 0,
        }
    }

    /// A line was read.
    pub fn add_line(&mut self)
        ensures { self.new ≡ record self.old { lines = more self.old.lines } }
    {
        self.lines = more(self.lines);
    }

    /// A line was passed over.
    pub fn add_passed(&mut self)
        ensures { self.new ≡ record self.old { passed = more self.old.passed } }
    {
        self.passed = more(self.passed);
    }

    /// A line was wrong.
    pub fn add_wrong(&mut self)
        ensures { self.new ≡ record self.old { wrong = more self.old.wrong } }
    {
        self.wrong = more(self.wrong);
    }

    /// A frame was seen, with a time before that of the one before or not.
    pub fn add_frame(&mut self, frame: &Frame, is_earlier: bool)
        ensures { self.new ≡ with_frame frame.now is_earlier self.old }
    {
        self.frames = more(self.frames);
        if is_earlier {
            self.earlier = more(self.earlier);
        }
        if is_transport(frame) {
            self.transport = more(self.transport);
            if read(frame).is_none() {
                self.malformed = more(self.malformed);
            }
        }
    }

    /// Counts a frame by its kind, if it belongs to no message.
    pub fn add_stray(&mut self, stray: Option<Stray>)
        ensures { self.new ≡ with_strays stray self.old }
    {
        self.strays.add(stray);
    }

    /// Counts a report.
    fn add_told(&mut self, told: &Told)
        ensures { self.new ≡ with_told told.now self.old }
    {
        match told {
            Told::Given { .. } => self.messages = more(self.messages),
            Told::Aborted { .. } => self.aborted = more(self.aborted),
            Told::Lost { .. } => self.lost = more(self.lost),
        }
    }

    /// Counts a report, if it was asked for.
    fn add_asked(&mut self, options: &Options, told: &Told)
        ensures { self.new ≡ with_asked options.now self.old told.now }
    {
        if options.ask_for_told(told) {
            self.add_told(told);
        }
    }

    /// Counts the reports.
    pub fn add_each(&mut self, options: &Options, told: &[Told])
        ensures { self.new ≡ with_each options.now self.old told.now }
    {
        for one in told {
            self.add_asked(options, one);
        }
    }
}

/// What was read.
fn put_lines<W: fmt::Write>(counts: &Counts, f: &mut fmt::Formatter<W>) -> fmt::Result
    ensures { DisplaysOnOk W.write_str_gives f.old result (Some (lines_text counts.now)) f.new }
{
    put_number(f, "lines ", counts.lines)?;
    put_number(f, " passed ", counts.passed)?;
    put_number(f, " frames ", counts.frames)
}

/// The counts of frames: those of a transport, and the late ones.
fn put_frames<W: fmt::Write>(counts: &Counts, f: &mut fmt::Formatter<W>) -> fmt::Result
    ensures { DisplaysOnOk W.write_str_gives f.old result (Some (frames_text counts.now)) f.new }
{
    put_number(f, " earlier ", counts.earlier)?;
    put_number(f, " transport ", counts.transport)?;
    put_number(f, " malformed ", counts.malformed)
}

/// The counts of messages, by how they ended.
fn put_messages<W: fmt::Write>(counts: &Counts, f: &mut fmt::Formatter<W>) -> fmt::Result
    ensures { DisplaysOnOk W.write_str_gives f.old result (Some (messages_text counts.now)) f.new }
{
    put_number(f, " messages ", counts.messages)?;
    put_number(f, " aborted ", counts.aborted)?;
    put_number(f, " lost ", counts.lost)
}

/// Puts the words for a log in which lines were wrong, or none shows a frame.
fn put_rest<W: fmt::Write>(counts: &Counts, f: &mut fmt::Formatter<W>) -> fmt::Result
    ensures { DisplaysOnOk W.write_str_gives f.old result (Some (rest_text counts.now)) f.new }
{
    if counts.wrong != 0 {
        return put_number(f, " wrong ", counts.wrong);
    }
    if counts.lines != 0 && counts.passed == counts.lines {
        return write!(f, ": every line was passed over");
    }
    Ok(())
}

impl fmt::Display for Counts {
    ghost output = { λ c. Some (counts_text c) };

    fn fmt<W: fmt::Write>(&self, f: &mut fmt::Formatter<W>) -> fmt::Result {
        put_lines(self, f)?;
        put_frames(self, f)?;
        put_messages(self, f)?;
        put_rest(self, f)
    }
}
