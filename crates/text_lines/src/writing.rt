//! Writing bytes to a writer.
ghost use Rattle.std.specs.Prelude.{◌≡◌, ◌<◌, [], take, length, MatchResult, IfErr, IsOk};
ghost use Rattle.std.specs.Io.KnownBytes.{Appends};
ghost use Rattle.text_lines.specs.Known.{IsFront};

use std::io;
use std::io::Write;

/// Writes all the bytes. If that fails, it returns how many of them were written, which aren't all.
pub fn put_all<W: Write>(writer: &mut W, bytes: &[u8]) -> Result<(), usize>
    ensures written { MatchResult result (λ _. Appends (W.contents writer.old) (W.contents writer.new) bytes.now)
        (λ n. Appends (W.contents writer.old) (W.contents writer.new) (take n bytes.now)) }
    ensures short { IfErr result (λ n. n < length bytes.now) }
{
    let mut put = 0;
    for _ in 0..u64::MAX {
        if put >= bytes.len() {
            return Ok(());
        }
        match writer.write(&bytes[put..]) {
            Ok(0) => return Err(put),
            Ok(n) => put += n,
            Err(e) => {
                if e.kind() != io::ErrorKind::Interrupted {
                    return Err(put);
                }
            }
        }
    }
    if put >= bytes.len() {
        return Ok(());
    }
    Err(put)
}

/// Writes a text at once and flushes it, so that its reader has it before anything else is done. If that fails, a front of the
/// text was written. A text without a byte never fails.
#[tactic(auto, using(crate::proofs::Known::front_of_part, crate::proofs::Known::front_of_all, crate::proofs::Known::appends_keeps))]
pub fn tell<W: Write>(writer: &mut W, text: &[u8]) -> Result<(), ()>
    ensures told { MatchResult result (λ _. Appends (W.contents writer.old) (W.contents writer.new) text.now)
        (λ _. IsFront (W.contents writer.old) (W.contents writer.new) text.now) }
    ensures empty { text.now ≡ [] → IsOk result }
{
    if text.is_empty() {
        return Ok(());
    }
    let Ok(()) = put_all(writer, text) else {
        return Err(());
    };
    let Ok(()) = writer.flush() else {
        return Err(());
    };
    Ok(())
}
