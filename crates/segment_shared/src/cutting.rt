//! Workers hand out the calls that are stored, before no more can be.
ghost use Rattle.std.specs.Prelude.{◌≡◌, ◌≤◌, IfOk, IfErr, OnErr, MatchOption};
ghost use Rattle.live_segment.specs.LiveView.{stored_calls};
ghost use Rattle.live_segment.specs.Rejoining.{CutAs, IsCutCause};
ghost use Rattle.segment_shared.specs.Cutting.{is_cut_due};

use live_segment::{Live, MOST_CALLS, NotMade, Piece};

/// A keeper of the pieces of a record: it keeps them, writes them to a file, or drops them.
pub trait PieceKeeper {
    /// Takes a piece. The segment's lock is free at that time, so another worker may hand in a later piece: each has its number. The worker makes
    /// no turn until this returns.
    fn keep(&self, piece: Piece);
}

/// When a record is cut, and the keeper of its pieces.
#[derive(Drop)]
pub struct Cutting<'a, K> {
    pub keeper: &'a K,
    /// How many calls the record has at least when it is cut: 1 to 1,000,000; a value below is taken as 1, one above as 1,000,000.
    pub at: usize,
}

// Whether a record of so many calls is cut.
fn is_due(calls: usize, at: usize) -> bool
    ensures { result ≡ is_cut_due calls at }
{
    calls > 0 && (calls >= at || calls >= MOST_CALLS)
}

/// Cuts the record if it has so many calls. A cut that is refused, or finds no memory, changes nothing.
pub(crate) fn cut_at(live: &mut Live, at: usize) -> Result<Option<Piece>, NotMade>
    ensures done { IfOk result (λ r. MatchOption r (live.new ≡ live.old) (λ p. CutAs live.old live.new p)) }
    ensures refused { IfErr result (λ e. IsCutCause live.old e) }
    ensures err { OnErr result (live.new ≡ live.old) }
{
    if !is_due(live.calls().len(), at) {
        return Ok(None);
    }
    let piece = live.cut()?;
    Ok(Some(piece))
}
