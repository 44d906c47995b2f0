//! What a line of a log shows.
ghost use Rattle.std.specs.Prelude.{◌≡◌, ◌^◌, nat_le, true, false, MatchResult, Some, None, IfSome, IfNone};
ghost use Rattle.log_text.specs.Line.{is_mark, is_ended, is_other, long_frame, frame_line, behind_time, timed_line, log_line};

use crate::digits::frame;
use crate::screen::screen_frame;
use bus_frame::{CanId, Frame};
use log_fields::{Iface, cut_at, next_word, time_of};
use text_digits::read_numeral;
use thiserror::Error;

/// What a line of a log shows.
#[derive(Clone, Copy, Debug)]
pub enum LogLine {
    /// A data frame with a 29-bit identifier, seen on an interface, at so many microseconds if the line says when.
    Frame {
        time: Option<u64>,
        iface: Iface,
        frame: Frame,
    },
    /// Nothing of it: a line that shows no frame, or one with an 11-bit identifier, a remote, an error or a CAN FD frame.
    Passed,
}

/// The line begins as one of a log, but continues differently.
#[derive(Clone, Copy, Debug, Error)]
#[error("not a log line")]
pub struct NotLogLine;

/// The identifier with a number, if it has one: above the largest, candump shows error frames.
#[inline(always)]
pub(crate) fn id_of(number: u64) -> Option<CanId>
    ensures found { IfSome result (λ id. (id ≡ number) × (nat_le (2 ^ 29) number ≡ false)) }
    ensures none { IfNone result (nat_le (2 ^ 29) number ≡ true) }
{
    if number > u64::from(u32::MAX) {
        return None;
    }
    CanId::new(number as u32).ok()
}

/// Whether a word behind a frame says that it was received or sent, or there is none.
fn is_mark(word: &[u8]) -> bool
    ensures { result ≡ is_mark word.now }
{
    match word {
        [] => true,
        [b'R'] => true,
        [b'T'] => true,
        _ => false,
    }
}

/// Whether nothing but such a word follows.
pub(crate) fn is_ended(text: &[u8]) -> bool
    ensures { result ≡ is_ended text.now }
{
    let (mark, rest) = next_word(text);
    let (more, _) = next_word(rest);
    is_mark(mark) && more.is_empty()
}

/// Whether the data are those of a remote frame or of a CAN FD frame.
fn is_other(shown: &[u8]) -> bool
    ensures { result ≡ is_other shown.now }
{
    let [byte, ..] = shown else {
        return false;
    };
    *byte == b'R' || *byte == b'#'
}

/// A frame of eight digits of identifier. The bit above the identifier marks an error frame.
#[tactic(auto, unfolding(crate::specs::Line::long_frame))]
fn long_frame(time: u64, iface: Iface, id: &[u8], shown: &[u8]) -> Option<LogLine>
    ensures { result ≡ long_frame time iface id.now shown.now }
{
    let number = read_numeral(16, id)?;
    if is_other(shown) {
        return Some(LogLine::Passed);
    }
    let Some(id) = id_of(number) else {
        return Some(LogLine::Passed);
    };
    let frame = frame(id, shown)?;
    Some(LogLine::Frame {
        time: Some(time),
        iface,
        frame,
    })
}

/// What the word of a frame shows.
#[tactic(auto, unfolding(crate::specs::Line::frame_line))]
pub(crate) fn frame_line(time: u64, iface: Iface, word: &[u8]) -> Option<LogLine>
    ensures { result ≡ frame_line time iface word.now }
{
    let (id, shown) = cut_at(b'#', word)?;
    match id.len() {
        3 => {
            let _number = read_numeral(16, id)?;
            Some(LogLine::Passed)
        }
        8 => long_frame(time, iface, id, shown),
        _ => None,
    }
}

/// What a line shows behind its time.
#[tactic(auto, unfolding(crate::specs::Line::behind_time))]
fn behind_time(time: u64, text: &[u8]) -> Option<LogLine>
    ensures { result ≡ behind_time time text.now }
{
    let (name, text) = next_word(text);
    let (word, text) = next_word(text);
    let iface = Iface::new(name).ok()?;
    if !is_ended(text) {
        return None;
    }
    frame_line(time, iface, word)
}

/// What a line shows behind the mark that begins its time.
#[tactic(auto, unfolding(crate::specs::Line::timed_line))]
fn timed_line(text: &[u8]) -> Option<LogLine>
    ensures { result ≡ timed_line text.now }
{
    let (stamp, text) = cut_at(b')', text)?;
    let (seconds, micros) = cut_at(b'.', stamp)?;
    let time = time_of(seconds, micros)?;
    behind_time(time, text)
}

/// The meaning of a line, without its line feed. Any number of spaces may be in the place of one.
///
/// A line that begins with a bracket is refused unless it continues as a log line: the time has six digits behind its point and is below 2^64
/// microseconds. Then follow a name of 1 to 15 characters, and the frame in one word, of 8 or 3 digits of identifier and at most eight pairs
/// of digits of data; then `R` or `T`, or nothing. Any other line is passed over, unless it shows a frame in the form that candump shows on a
/// screen: a name, 8 digits of identifier, a number up to 8 in square brackets, and so many pairs of digits.
#[tactic(auto, unfolding(crate::specs::Line::log_line))]
pub fn read_log_line(line: &[u8]) -> Result<LogLine, NotLogLine>
    ensures { MatchResult result (λ shown. log_line line.now ≡ Some shown) (λ _. log_line line.now ≡ None) }
{
    let [b'(', text @ ..] = line else {
        return Ok(screen_frame(line).unwrap_or(LogLine::Passed));
    };
    match timed_line(text) {
        Some(shown) => Ok(shown),
        None => Err(NotLogLine),
    }
}
