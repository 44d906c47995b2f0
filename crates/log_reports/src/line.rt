//! A line of words.
ghost use Rattle.std.specs.Prelude.{◌≡◌, IfOk};
ghost use Rattle.log_reports.specs.Lines.{wrong_length};

use std::alloc::{AllocError, Global};
use std::marker::Model;
use text_digits::{put_decimal, put_text};

/// A line of words, which contracts see as a list of bytes: it has neither an indent nor a line feed.
pub struct Line {
    text: Vec<u8>,
}

impl Model for Line {
    ghost use Rattle.std.specs.Prelude.{List, ℕ};

    ghost Value = { List ℕ };

    ghost view = { λ l. l.text.items };
}

impl Drop for Line {
    fn drop(self) {
        let Line { text: _ } = self;
    }
}

impl Line {
    /// A line of this text. It takes no memory.
    pub fn new(text: Vec<u8>) -> Line
        ensures { result ≡ text.items }
    {
        Line { text }
    }

    /// Its text in place.
    pub fn as_slice(&self) -> &[u8]
        ensures { result.now ≡ self.now }
    {
        self.text.as_slice()
    }
}

/// A line of these words.
pub(crate) fn plain_line(alloc: Global, words: &str) -> Result<Line, AllocError>
    ensures { IfOk result (λ l. l ≡ words.now) }
{
    let mut text = Vec::new(alloc);
    put_text(&mut text, words)?;
    Ok(Line::new(text))
}

/// The line of a message whose length, in bytes, isn't one of its form.
pub(crate) fn wrong_length(alloc: Global, length: usize) -> Result<Line, AllocError>
    ensures { IfOk result (λ l. l ≡ wrong_length length) }
{
    let mut text = Vec::new(alloc);
    put_text(&mut text, "wrong length: ")?;
    put_decimal(&mut text, length as u64)?;
    Ok(Line::new(text))
}
