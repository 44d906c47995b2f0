//! The output of a line: its log is flushed at once, its text before the reader is asked for more than it holds.
ghost use Rattle.std.specs.Prelude.{◌≡◌, true, IsOk, OnOk, MatchResult};
ghost use Rattle.std.specs.Io.KnownBytes.{Appends, Keeps};
ghost use Rattle.text_lines.specs.Known.{IsFront};

use crate::running::Obeyer;
use std::io::Write;
use text_lines::{put_all, tell};

/// Flushes what was written, unless all of it is flushed.
pub(crate) fn flush_told<W: Write>(is_flushed: &mut bool, writer: &mut W) -> Result<(), ()>
    ensures kept { Keeps (W.contents writer.old) (W.contents writer.new) }
    ensures flushed { OnOk result (is_flushed.new ≡ true) }
    ensures none { is_flushed.old ≡ true → IsOk result }
{
    if *is_flushed {
        return Ok(());
    }
    let Ok(()) = writer.flush() else {
        return Err(());
    };
    *is_flushed = true;
    Ok(())
}

/// Writes and flushes the output of a line in the log, if it has any, behind the text so far: who reads both sees them in this order. If that
/// fails, a front of it was written.
#[tactic(auto, using(crate::proofs::Written::appends_nothing, text_lines::proofs::Known::front_none))]
fn tell_log<T: Write, L: Write>(
    text: &mut T,
    log: &mut L,
    told: &[u8],
    is_flushed: &mut bool,
) -> Result<(), ()>
    ensures in_text { Keeps (T.contents text.old) (T.contents text.new) }
    ensures in_log { MatchResult result (λ _. Appends (L.contents log.old) (L.contents log.new) told.now)
        (λ _. IsFront (L.contents log.old) (L.contents log.new) told.now) }
{
    if told.is_empty() {
        return Ok(());
    }
    let Ok(()) = flush_told(is_flushed, text) else {
        return Err(());
    };
    tell(log, told)
}

/// Writes the output of the last line, its log first. If that fails, a front of each was written.
#[tactic(auto, using(crate::proofs::Written::front_all, crate::proofs::Written::keeps_front, crate::proofs::Written::keeps_appends, crate::proofs::Written::part_front))]
pub(crate) fn tell_both<T: Write, L: Write, O: Obeyer>(
    text: &mut T,
    log: &mut L,
    obeyer: &O,
    is_flushed: &mut bool,
) -> Result<(), ()>
    ensures in_text { MatchResult result (λ _. Appends (T.contents text.old) (T.contents text.new) (O.text_told obeyer.now))
        (λ _. IsFront (T.contents text.old) (T.contents text.new) (O.text_told obeyer.now)) }
    ensures in_log { MatchResult result (λ _. Appends (L.contents log.old) (L.contents log.new) (O.log_told obeyer.now))
        (λ _. IsFront (L.contents log.old) (L.contents log.new) (O.log_told obeyer.now)) }
{
    let Ok(()) = tell_log(text, log, obeyer.log(), is_flushed) else {
        return Err(());
    };
    let told = obeyer.text();
    *is_flushed = *is_flushed && told.is_empty();
    let Ok(()) = put_all(text, told) else {
        return Err(());
    };
    Ok(())
}
