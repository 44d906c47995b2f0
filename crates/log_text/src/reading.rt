//! What a line shows in a log whose lines have a form.
ghost use Rattle.std.specs.Prelude.{◌≡◌, MatchResult, Some, None, if◌then◌else◌};
ghost use Rattle.text_digits.specs.Numerals.{is_between};
ghost use Rattle.log_text.specs.Line.{behind_time};
ghost use Rattle.log_text.specs.Reading.{before_return, trimmed, begins_timed, is_bracket, is_id, begins_shown, form_of, micros_of, stamp_of, before_quote, is_long_count, is_remote, long_shown, shown_line, stamped_line, timed_as, untimed_as, line_as};

use crate::line::{LogLine, NotLogLine, frame_line, id_of, is_ended};
use crate::screen::{bytes, count};
use crate::usual::{usual_behind, usual_stamp};
use bus_frame::{CanId, Frame};
use log_fields::{Iface, SECOND, cut_at, next_word, spaces_in};
use text_digits::read_numeral;

/// The form of a log's lines.
#[derive(Clone, Copy, Debug)]
pub enum Form {
    /// Each begins with a time in round brackets, as candump writes them for a file, and on a screen if it is asked for times.
    Timed,
    /// Each begins with an interface, as candump shows them on a screen.
    Untimed,
}

/// The line without a carriage return at its end.
pub fn before_return(line: &[u8]) -> &[u8]
    ensures { result.now ≡ before_return line.now }
{
    let Some((last, _)) = line.split_last() else {
        return line;
    };
    // Most lines end otherwise, and no other byte of them is looked at here.
    if *last != b'\r' {
        return line;
    }
    match cut_at(b'\r', line) {
        Some((front, rest)) if rest.is_empty() => front,
        _ => line,
    }
}

/// The line without a carriage return at its end and blanks at its front.
fn trimmed(line: &[u8]) -> &[u8]
    ensures { result.now ≡ trimmed line.now }
{
    let bare = before_return(line);
    &bare[spaces_in(bare)..]
}

fn is_digit(byte: u8) -> bool
    ensures { result ≡ is_between 48 57 byte }
{
    byte >= b'0' && byte <= b'9'
}

fn begins_timed(text: &[u8]) -> bool
    ensures { result ≡ begins_timed text.now }
{
    match text {
        [open, digit, ..] => *open == b'(' && is_digit(*digit),
        _ => false,
    }
}

fn is_bracket(word: &[u8]) -> bool
    ensures { result ≡ is_bracket word.now }
{
    match word {
        [byte, ..] => *byte == b'[',
        [] => false,
    }
}

fn is_id(word: &[u8]) -> bool
    ensures { result ≡ is_id word.now }
{
    (word.len() == 8 || word.len() == 3) && read_numeral(16, word).is_some()
}

/// Whether the text begins as a frame on a screen: with the name of an interface, the digits of an identifier, and a square bracket.
fn begins_shown(text: &[u8]) -> bool
    ensures { result ≡ begins_shown text.now }
{
    let (name, text) = next_word(text);
    let (digits, text) = next_word(text);
    let (brackets, _) = next_word(text);
    Iface::new(name).is_ok() && is_id(digits) && is_bracket(brackets)
}

/// The form of a line, if it has one: it begins with a bracket and a digit, or as a frame on a screen.
pub fn form_of(line: &[u8]) -> Option<Form>
    ensures { result ≡ form_of line.now }
{
    let text = trimmed(line);
    if begins_timed(text) {
        Some(Form::Timed)
    } else if begins_shown(text) {
        Some(Form::Untimed)
    } else {
        None
    }
}

/// The microseconds that six or nine digits write.
#[tactic(auto, unfolding(crate::specs::Reading::micros_of))]
fn micros(digits: &[u8]) -> Option<u64>
    ensures { result ≡ micros_of digits.now }
{
    let number = read_numeral(10, digits)?;
    if digits.len() == 6 {
        return Some(number);
    }
    if digits.len() == 9 {
        return Some(number / 1_000);
    }
    None
}

/// A time, below 2 ^ 64 microseconds.
#[tactic(auto, unfolding(crate::specs::Reading::stamp_of))]
pub(crate) fn stamp(seconds: &[u8], fraction: &[u8]) -> Option<u64>
    ensures { result ≡ stamp_of seconds.now fraction.now }
{
    if seconds.is_empty() {
        return None;
    }
    let seconds = read_numeral(10, seconds)?;
    let micros = micros(fraction)?;
    seconds.checked_mul(SECOND)?.checked_add(micros)
}

/// The data without its bytes as text, which follow in quotes.
fn before_quote(text: &[u8]) -> &[u8]
    ensures { result.now ≡ before_quote text.now }
{
    match cut_at(b'\'', text) {
        Some((front, _)) => front,
        None => text,
    }
}

/// Whether the number of bytes is that of a CAN FD frame, which candump shows with two digits.
fn is_long_count(word: &[u8]) -> bool
    ensures { result ≡ is_long_count word.now }
{
    match word {
        [open, tens, ones, close] => {
            *open == b'[' && *close == b']' && is_digit(*tens) && is_digit(*ones)
        }
        _ => false,
    }
}

/// Whether the data are the words of a remote frame.
fn is_remote(word: &[u8]) -> bool
    ensures { result ≡ is_remote word.now }
{
    match word {
        [byte, ..] => *byte == b'r',
        [] => false,
    }
}

/// The text behind an identifier of eight digits. The bit above the identifier marks an error frame.
#[tactic(auto, unfolding(crate::specs::Reading::long_shown))]
fn long_shown(time: Option<u64>, iface: Iface, id: u64, text: &[u8]) -> Option<LogLine>
    ensures { result ≡ long_shown time iface id text.now }
{
    let (brackets, text) = next_word(text);
    let Some(id) = id_of(id) else {
        return Some(LogLine::Passed);
    };
    if is_long_count(brackets) {
        return Some(LogLine::Passed);
    }
    let count = count(brackets)?;
    let (first, _) = next_word(text);
    if is_remote(first) {
        return Some(LogLine::Passed);
    }
    let frame = bytes(id, count, before_quote(text))?;
    Some(LogLine::Frame { time, iface, frame })
}

/// A frame as on a screen.
#[tactic(auto, unfolding(crate::specs::Reading::shown_line))]
fn shown_line(time: Option<u64>, text: &[u8]) -> Option<LogLine>
    ensures { result ≡ shown_line time text.now }
{
    let (name, text) = next_word(text);
    let (digits, text) = next_word(text);
    let iface = Iface::new(name).ok()?;
    let id = read_numeral(16, digits)?;
    if digits.len() == 3 {
        return Some(LogLine::Passed);
    }
    long_shown(time, iface, id, text)
}

/// The text behind a time: a frame in either form. If a word isn't an identifier alone, the form isn't that of a screen.
#[tactic(auto, unfolding(crate::specs::Line::behind_time))]
fn behind_stamp(time: u64, text: &[u8]) -> Option<LogLine>
    ensures { result ≡ (if begins_shown text.now then shown_line (Some time) text.now else behind_time time text.now) }
{
    if let Some(shown) = usual_behind(time, text) {
        return Some(shown);
    }
    let (name, behind) = next_word(text);
    let (word, rest) = next_word(behind);
    if is_id(word) && begins_shown(text) {
        return shown_line(Some(time), text);
    }
    let iface = Iface::new(name).ok()?;
    if !is_ended(rest) {
        return None;
    }
    frame_line(time, iface, word)
}

/// The text behind the bracket of a time: the time, and a frame in either form.
#[tactic(auto, unfolding(crate::specs::Reading::stamped_line))]
fn stamped_line(text: &[u8]) -> Option<LogLine>
    ensures { result ≡ stamped_line text.now }
{
    if let Some((time, rest)) = usual_stamp(text) {
        return behind_stamp(time, rest);
    }
    let (word, rest) = cut_at(b')', text)?;
    let (seconds, fraction) = cut_at(b'.', word)?;
    let time = stamp(seconds, fraction)?;
    behind_stamp(time, rest)
}

fn timed_as(text: &[u8]) -> Option<LogLine>
    ensures { result ≡ timed_as text.now }
{
    match text {
        [b'(', rest @ ..] => stamped_line(rest),
        _ => Some(LogLine::Passed),
    }
}

fn untimed_as(text: &[u8]) -> Option<LogLine>
    ensures { result ≡ untimed_as text.now }
{
    if begins_shown(text) {
        shown_line(None, text)
    } else {
        Some(LogLine::Passed)
    }
}

/// The meaning of a line, without its line feed, in a log of this form: that of its first line that has one.
///
/// Blanks at its front and a carriage return at its end are ignored. A line is refused if it begins as a frame of the log's form, with a
/// round bracket or as on a screen, but continues differently. Behind a time of six or nine digits of fraction, below 2^64 microseconds,
/// there must be `IFACE ID#HEX` as `read_log_line` reads it, or `IFACE ID [N] B0 B1 ..`, which a screen shows. Any other line is passed
/// over.
#[tactic(auto, unfolding(crate::specs::Reading::line_as))]
pub fn read_line_as(form: Option<Form>, line: &[u8]) -> Result<LogLine, NotLogLine>
    ensures { MatchResult result (λ shown. line_as form line.now ≡ Some shown) (λ _. line_as form line.now ≡ None) }
{
    let shown = match form {
        None => Some(LogLine::Passed),
        Some(Form::Timed) => timed_as(trimmed(line)),
        Some(Form::Untimed) => untimed_as(trimmed(line)),
    };
    match shown {
        Some(shown) => Ok(shown),
        None => Err(NotLogLine),
    }
}
