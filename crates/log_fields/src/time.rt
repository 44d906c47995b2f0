//! Times of frames.
ghost use Rattle.std.specs.Prelude.{◌≡◌, ◌++◌, OnOk};
ghost use Rattle.log_fields.specs.Time.{time_of, time_word, time_text};

use crate::fields::cut_at;
use std::alloc::AllocError;
use text_digits::{put_digits, read_numeral};

/// How many microseconds a second has.
pub const SECOND: u64 = 1_000_000;

/// How many microseconds a tick of a station's clock has.
pub const TICK: u64 = 1_000;

/// By how many microseconds at most the time of a late frame is before that of the newest one. If a time is more before it, the clock of
/// the log was set back.
pub const LATE: u64 = SECOND;

/// How many digits the microseconds have.
pub const MICROS: usize = 6;

/// From here on seconds have more than ten digits.
const TEN_DIGITS: u64 = 10_000_000_000;

/// A time in microseconds, of the digits of its seconds and of its microseconds. None if one of them isn't digits, the microseconds aren't
/// six of them, or the time isn't below 2^64 microseconds.
#[tactic(auto, unfolding(crate::specs::Time::time_of))]
pub fn time_of(seconds: &[u8], micros: &[u8]) -> Option<u64>
    ensures { result ≡ time_of seconds.now micros.now }
{
    if seconds.is_empty() || micros.len() != MICROS {
        return None;
    }
    let seconds = read_numeral(10, seconds)?;
    let micros = read_numeral(10, micros)?;
    seconds.checked_mul(SECOND)?.checked_add(micros)
}

/// A time in microseconds, from a word `SECONDS.MICROS`. None if one part isn't digits, the microseconds aren't six of them, or the time
/// isn't below 2^64 microseconds.
#[tactic(auto, unfolding(crate::specs::Time::time_word))]
pub fn read_time(word: &[u8]) -> Option<u64>
    ensures { result ≡ time_word word.now }
{
    let (seconds, micros) = cut_at(b'.', word)?;
    time_of(seconds, micros)
}

/// Puts a time of so many microseconds in round brackets behind what `out` holds: the seconds in ten digits, or in fourteen from 10^10 on,
/// a point, and six digits. It fails only if memory is refused.
#[tactic(auto, unfolding(crate::specs::Time::time_text))]
pub fn put_time(out: &mut Vec<u8>, time: u64) -> Result<(), AllocError>
    ensures { OnOk result (out.new.items ≡ out.old.items ++ time_text time) }
{
    let seconds = time / SECOND;
    let width = if seconds < TEN_DIGITS { 10 } else { 14 };
    out.push(b'(')?;
    put_digits(out, 10, width, seconds)?;
    out.push(b'.')?;
    put_digits(out, 10, 6, time % SECOND)?;
    out.push(b')')?;
    Ok(())
}
