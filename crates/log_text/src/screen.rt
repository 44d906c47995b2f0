//! The form that candump shows on a screen, `IFACE  ID  [N]  B0 B1 ..`, which has no time.
ghost use Rattle.std.specs.Prelude.{◌≡◌, ◌≤◌, option_map, IfSome};
ghost use Rattle.log_text.specs.Screen.{count_of, byte_of, bytes_in, screen_frame};

use crate::line::{LogLine, id_of};
use bus_frame::{CanId, Frame};
use log_fields::{Iface, next_word};
use text_digits::{read_numeral, read_pair};

/// How many bytes there are to be: a digit up to 8 in square brackets.
pub(crate) fn count(word: &[u8]) -> Option<usize>
    ensures value { result ≡ count_of word.now }
    ensures most { IfSome result (λ n. n ≤ 8) }
{
    let [open, digit, close] = word else {
        return None;
    };
    if *open != b'[' || *close != b']' || *digit < b'0' || *digit > b'8' {
        return None;
    }
    Some(usize::from(*digit - b'0'))
}

/// A byte of two hexadecimal digits.
fn byte(word: &[u8]) -> Option<u8>
    ensures { result ≡ byte_of word.now }
{
    let [first, second] = word else {
        return None;
    };
    read_pair(*first, *second)
}

/// The frame with this identifier whose bytes, so many, are words of two digits, with nothing behind them.
pub(crate) fn bytes(id: CanId, count: usize, text: &[u8]) -> Option<Frame>
    requires { count ≤ 8 }
    ensures { result ≡ option_map (λ bytes. record { id = id; bytes = bytes }) (bytes_in count text.now) }
{
    let mut kept = [0; 8];
    let mut rest = text;
    for at in 0..count {
        let (word, after) = next_word(rest);
        kept[at] = byte(word)?;
        rest = after;
    }
    let (more, _) = next_word(rest);
    if !more.is_empty() {
        return None;
    }
    Frame::new(id, &kept[..count]).ok()
}

/// The frame of a line on a screen, if it shows one with an identifier of eight digits, below 2^29.
#[tactic(auto, unfolding(crate::specs::Screen::screen_frame))]
pub(crate) fn screen_frame(line: &[u8]) -> Option<LogLine>
    ensures { result ≡ screen_frame line.now }
{
    let (name, text) = next_word(line);
    let (digits, text) = next_word(text);
    let (brackets, text) = next_word(text);
    let iface = Iface::new(name).ok()?;
    if digits.len() != 8 {
        return None;
    }
    let number = read_numeral(16, digits)?;
    let id = id_of(number)?;
    let count = count(brackets)?;
    let frame = bytes(id, count, text)?;
    Some(LogLine::Frame {
        time: None,
        iface,
        frame,
    })
}
