//! Lines of a reader, one held at a time.
ghost use Rattle.std.specs.Prelude.{◌≡◌, ◌≤◌, length, IfOk};
ghost use Rattle.text_lines.specs.declared.lines.ReadError.TheVariants.{OutOfMemory};
ghost use Rattle.text_lines.specs.Known.{TakesPart, Known};
ghost use Rattle.text_lines.specs.Lines.{before_feed, held_line, ReadsLineUpTo};

use memchr::memchr;
use std::alloc::AllocError;
use std::io::{BufRead, ErrorKind};

/// Why no line was read.
#[derive(Clone, Copy, Debug, PartialEq, Eq)]
pub enum ReadError {
    /// The reader failed.
    Failed,
    /// The line found no memory.
    OutOfMemory,
}

/// What was read.
#[derive(Clone, Copy, Debug, PartialEq, Eq)]
pub enum LineRead {
    /// No line was left.
    End,
    /// A line.
    Line,
    /// More bytes than a line may have.
    TooLong,
}

impl From<AllocError> for ReadError {
    ghost from_gives = { λ _ e. e ≡ OutOfMemory };

    fn from(_: AllocError) -> ReadError {
        ReadError::OutOfMemory
    }
}

/// What was taken of a reader.
#[derive(Clone, Copy, PartialEq, Eq)]
pub(crate) enum Part {
    /// Bytes of a line that continues.
    More,
    /// The rest of a line, and its line feed.
    Feed,
    /// Nothing, at the end.
    End,
    /// More bytes than the line may have.
    TooLong,
}

/// How many bytes precede the first line feed.
#[inline]
fn before_feed(bytes: &[u8]) -> usize
    ensures value { result ≡ before_feed bytes.now }
    ensures within { result ≤ length bytes.now }
{
    match memchr(b'\n', bytes) {
        Some(at) => at,
        None => bytes.len(),
    }
}

/// How many bytes the next line has, if the whole line and its line feed are in what a reader holds. The line has up to `most` bytes; if
/// there is no such line, the next one continues behind these bytes, is longer, or isn't there.
///
/// So a line is looked at in the reader's buffer, and copied only if it crosses the end of the buffer: look at what `fill_buf` shows, and
/// consume the line with its line feed.
#[inline]
pub fn held_line(most: usize, held: &[u8]) -> Option<usize>
    ensures { result ≡ held_line most held.now }
{
    let len = before_feed(held);
    if len < held.len() && len <= most {
        Some(len)
    } else {
        None
    }
}

/// Takes what the reader holds of a line, and puts it behind what the line has.
fn take_part<R: BufRead>(most: usize, reader: &mut R, line: &mut Vec<u8>) -> Result<Part, ReadError>
    requires { length line.old.items ≤ most }
    ensures short { length line.new.items ≤ most }
    ensures takes { IfOk result (λ part. TakesPart most part (R.remaining reader.old) (R.remaining reader.new) line.old.items line.new.items) }
{
    let held = match reader.fill_buf() {
        Ok(held) => held,
        Err(e) => {
            return if e.kind() == ErrorKind::Interrupted {
                Ok(Part::More)
            } else {
                Err(ReadError::Failed)
            };
        }
    };
    let count = held.len();
    if count == 0 {
        return Ok(Part::End);
    }
    let len = before_feed(held);
    if len > most - line.len() {
        reader.consume(len);
        return Ok(Part::TooLong);
    }
    line.extend_from_slice(&held[..len])?;
    if len == count {
        reader.consume(len);
        return Ok(Part::More);
    }
    reader.consume(len + 1);
    Ok(Part::Feed)
}

/// The most bytes that a line of a script or of a log may have.
pub const MAX_LINE: usize = 8192;

/// Reads the next line into `line`, without its line feed: it may have up to `most` bytes.
pub fn read_line_up_to<R: BufRead>(
    most: usize,
    reader: &mut R,
    line: &mut Vec<u8>,
) -> Result<LineRead, ReadError>
    ensures short { length line.new.items ≤ most }
    ensures reads { IfOk result (λ read. Known (R.remaining reader.old) (R.remaining reader.new) (λ all rest.
        ReadsLineUpTo most read line.new.items all rest)) }
{
    line.clear();
    for _ in 0..u64::MAX {
        match take_part(most, reader, line)? {
            Part::More => {}
            Part::Feed => return Ok(LineRead::Line),
            Part::TooLong => return Ok(LineRead::TooLong),
            Part::End => {
                if line.is_empty() {
                    return Ok(LineRead::End);
                }
                return Ok(LineRead::Line);
            }
        }
    }
    Err(ReadError::Failed)
}
