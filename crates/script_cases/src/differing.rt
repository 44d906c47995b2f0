//! The first line in which two texts differ.
use std::io;

/// The number of the first line in which two texts differ.
fn differing_line(printed: &[u8], text: &[u8]) -> u64 {
    let mut line = 1u64;
    let mut at = 0usize;
    for byte in printed {
        if text.get(at) != Some(byte) {
            return line;
        }
        if *byte == b'\n' {
            line = line.saturating_add(1);
        }
        at = at.saturating_add(1);
    }
    line
}

/// A line of a text, empty if it has no such line.
fn line_of(text: &str, number: u64) -> &str {
    let mut at = 1u64;
    for line in text.split('\n') {
        if at == number {
            return line;
        }
        at = at.saturating_add(1);
    }
    ""
}

/// Reports on standard error in which line what was printed differs from its text.
pub(crate) fn tell_difference(
    rt: &impl Eprint,
    name: &str,
    printed: &[u8],
    text: &str,
) -> io::Result<()> {
    let Ok(printed) = str::from_utf8(printed) else {
        return eprintln!(rt; "{name}: what it prints isn't UTF-8");
    };
    let number = differing_line(printed.as_bytes(), text.as_bytes());
    let line = line_of(printed, number);
    let other = line_of(text, number);
    eprintln!(rt; "{name}: line {number} is {line:?}, and not {other:?}")
}
