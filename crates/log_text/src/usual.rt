//! The parts of a line as `candump -L` writes them, so that most lines are read in one pass. If a part is different,
//! the readers here return none and decide nothing.
ghost use Rattle.std.specs.Prelude.{◌≡◌, ◌∷◌, IfSome, Some, true, false, if◌then◌else◌};
ghost use Rattle.log_fields.specs.Fields.{next_word};
ghost use Rattle.log_text.specs.Line.{is_ended, frame_line, behind_time};
ghost use Rattle.log_text.specs.Reading.{is_id, begins_shown, shown_line, stamped_line};

use crate::digits::frame;
use crate::line::{LogLine, id_of};
use crate::reading::stamp;
use log_fields::{Iface, MICROS, next_word};
use text_digits::read_numeral;

/// How many digits the seconds have, from 2001 to 2286.
const SECONDS: usize = 10;

/// How many digits an identifier has.
const DIGITS: usize = 8;

/// The text behind a byte of this value.
#[inline(always)]
fn behind(wanted: u8, text: &[u8]) -> Option<&[u8]>
    ensures { IfSome result (λ rest. text.now ≡ wanted ∷ rest.now) }
{
    match text {
        [first, rest @ ..] if *first == wanted => Some(rest),
        _ => None,
    }
}

/// The time in front of a bracket, and the text behind it.
#[inline(always)]
pub(crate) fn usual_stamp(text: &[u8]) -> Option<(u64, &[u8])>
    ensures { IfSome result (λ p. stamped_line text.now ≡ (if begins_shown p.1.now then shown_line (Some p.0) p.1.now else behind_time p.0 p.1.now)) }
{
    let (seconds, rest) = text.split_at_checked(SECONDS)?;
    let (micros, rest) = behind(b'.', rest)?.split_at_checked(MICROS)?;
    let rest = behind(b')', rest)?;
    Some((stamp(seconds, micros)?, rest))
}

/// The frame of the last word of a line.
#[inline(always)]
fn usual_frame(time: u64, iface: Iface, text: &[u8]) -> Option<LogLine>
    ensures { IfSome result (λ shown. (is_id (next_word text.now).0 ≡ false) × (is_ended (next_word text.now).1 ≡ true)
        × (frame_line time iface (next_word text.now).0 ≡ Some shown)) }
{
    let (digits, rest) = behind(b' ', text)?.split_at_checked(DIGITS)?;
    let shown = behind(b'#', rest)?;
    let number = read_numeral(16, digits)?;
    let id = id_of(number)?;
    let frame = frame(id, shown)?;
    Some(LogLine::Frame {
        time: Some(time),
        iface,
        frame,
    })
}

/// What a line shows behind its time, if it ends with the word of a frame.
#[inline(always)]
pub(crate) fn usual_behind(time: u64, text: &[u8]) -> Option<LogLine>
    ensures { IfSome result (λ shown. (if begins_shown text.now then shown_line (Some time) text.now else behind_time time text.now) ≡ Some shown) }
{
    let (name, behind) = next_word(text);
    let iface = Iface::new(name).ok()?;
    usual_frame(time, iface, behind)
}
