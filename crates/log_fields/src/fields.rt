//! Fields of a line: the text between marks and spaces.
ghost use Rattle.std.specs.Prelude.{◌≡◌, ◌<◌, ◌≤◌, length, IfSome, option_map};
ghost use Rattle.log_fields.specs.Fields.{place_of, cut_at, spaces_in, next_word};

/// The place of the first byte of this value, from 0.
pub(crate) fn place_of(wanted: u8, text: &[u8]) -> Option<usize>
    ensures value { result ≡ place_of wanted text.now }
    ensures within { IfSome result (λ at. at < length text.now) }
{
    for (at, byte) in text.iter().enumerate() {
        if *byte == wanted {
            return Some(at);
        }
    }
    None
}

/// The text before and behind the first byte of this value.
pub fn cut_at(wanted: u8, text: &[u8]) -> Option<(&[u8], &[u8])>
    ensures { option_map (λ p. (p.0.now, p.1.now)) result ≡ cut_at wanted text.now }
{
    let at = place_of(wanted, text)?;
    Some((&text[..at], &text[at + 1..]))
}

/// How many spaces are at the front.
pub fn spaces_in(text: &[u8]) -> usize
    ensures value { result ≡ spaces_in text.now }
    ensures within { result ≤ length text.now }
{
    for (at, byte) in text.iter().enumerate() {
        if *byte != b' ' {
            return at;
        }
    }
    text.len()
}

/// The first word, which is empty if there is none, and the text behind it.
pub fn next_word(text: &[u8]) -> (&[u8], &[u8])
    ensures { (result.0.now, result.1.now) ≡ next_word text.now }
{
    let text = &text[spaces_in(text)..];
    let len = place_of(b' ', text).unwrap_or(text.len());
    text.split_at(len)
}
