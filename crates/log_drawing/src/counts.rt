//! What was counted of a log that is drawn.
ghost use Rattle.std.specs.Prelude.{◌≡◌, Some};
ghost use Rattle.std.specs.Fmt.{DisplaysOnOk};
ghost use Rattle.log_drawing.specs.Counts.{no_counts, more, lines_text, frames_text, rest_text, counts_text};

use std::fmt;

/// What was counted of a log. A number that would pass 2^64 - 1 stays there.
#[derive(Clone, Copy)]
pub struct Counts {
    /// Lines that were read.
    pub lines: u64,
    /// Lines of them that were passed over.
    pub passed: u64,
    /// Lines of them that were wrong.
    pub wrong: u64,
    /// Data frames with a 29-bit identifier.
    pub frames: u64,
    /// Frames of them that were drawn.
    pub drawn: u64,
    /// Frames of them that were asked for, but were seen on another interface than the one drawn.
    pub elsewhere: u64,
}

/// One more, up to the last value.
pub(crate) fn more(n: u64) -> u64
    ensures { result ≡ more n }
{
    n.saturating_add(1)
}

impl Counts {
    /// Nothing was counted.
    pub fn none() -> Counts
        ensures { result ≡ no_counts }
    {
        Counts {
            lines: 0,
            passed: 0,
            wrong: 0,
            frames: 0,
            drawn: 0,
            elsewhere: 0,
        }
    }
}

/// What was read.
fn put_lines<W: fmt::Write>(counts: &Counts, f: &mut fmt::Formatter<W>) -> fmt::Result
    ensures { DisplaysOnOk W.write_str_gives f.old result (Some (lines_text counts.now)) f.new }
{
    let (lines, passed, wrong) = (counts.lines, counts.passed, counts.wrong);
    write!(f, "lines {lines} passed {passed} wrong {wrong}")
}

/// What was drawn of it.
fn put_frames<W: fmt::Write>(counts: &Counts, f: &mut fmt::Formatter<W>) -> fmt::Result
    ensures { DisplaysOnOk W.write_str_gives f.old result (Some (frames_text counts.now)) f.new }
{
    let (frames, drawn) = (counts.frames, counts.drawn);
    write!(f, " frames {frames} drawn {drawn}")
}

/// The counts of frames that were asked for and not drawn, and a hint if nothing was drawn.
fn put_rest<W: fmt::Write>(counts: &Counts, f: &mut fmt::Formatter<W>) -> fmt::Result
    ensures { DisplaysOnOk W.write_str_gives f.old result (Some (rest_text counts.now)) f.new }
{
    let elsewhere = counts.elsewhere;
    if counts.drawn == 0 {
        return write!(f, " elsewhere {elsewhere}: no frame is drawn");
    }
    write!(f, " elsewhere {elsewhere}")
}

impl fmt::Display for Counts {
    ghost output = { λ c. Some (counts_text c) };

    fn fmt<W: fmt::Write>(&self, f: &mut fmt::Formatter<W>) -> fmt::Result {
        put_lines(self, f)?;
        put_frames(self, f)?;
        put_rest(self, f)
    }
}
