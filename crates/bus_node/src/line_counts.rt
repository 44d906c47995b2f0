//! How many lines were read, and how many of them were wrong.
ghost use Rattle.std.specs.Prelude.{◌≡◌, Some};
ghost use Rattle.bus_node.specs.LineCounts.{no_lines, with_line, with_wrong, line_counts_text};

use std::fmt;

/// How many lines of an input were read, and how many of them were wrong and passed over.
#[derive(Clone, Copy, Debug, PartialEq, Eq)]
pub struct LineCounts {
    pub lines: u64,
    pub wrong: u64,
}

impl LineCounts {
    /// None was read.
    pub(crate) fn none() -> LineCounts
        ensures { result ≡ no_lines }
    {
        LineCounts { lines: 0, wrong: 0 }
    }

    /// Counts one more line that was read.
    pub(crate) fn add_line(&mut self)
        ensures { self.new ≡ with_line self.old }
    {
        self.lines = self.lines.saturating_add(1);
    }

    /// Counts the line as wrong.
    pub(crate) fn add_wrong(&mut self)
        ensures { self.new ≡ with_wrong self.old }
    {
        self.wrong = self.wrong.saturating_add(1);
    }
}

impl fmt::Display for LineCounts {
    ghost output = { λ c. Some (line_counts_text c) };

    fn fmt<W: fmt::Write>(&self, f: &mut fmt::Formatter<W>) -> fmt::Result {
        let (lines, wrong) = (self.lines, self.wrong);
        write!(f, "lines {lines} wrong {wrong}")
    }
}
