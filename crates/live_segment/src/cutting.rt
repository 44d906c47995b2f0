//! A segment hands out the calls that are stored, and continues.
ghost use Rattle.std.specs.Prelude.{◌≡◌, length, IfOk, IfErr, OnErr, IsTrue, ◌↔◌};
ghost use Rattle.live_record.specs.Record.{trail};
ghost use Rattle.live_record.specs.Past.{joined};
ghost use Rattle.live_segment.specs.Rejoining.{CutAs, IsCutCause};

use crate::live::Live;
use crate::refused::NotMade;
use live_calls::Segment;
use live_record::Piece;
use segment_law::Refusal;

impl Live {
    /// Hands out all calls that are stored, and stores the next ones from the start. The segment, its clients and its ports are not
    /// affected: all that is given, noted and owed later is the same as without the cut.
    ///
    /// The segment no longer keeps what a client is known to have read, or an inbox to have received, nor do these once they are
    /// called next; a client then no longer keeps what was accepted either. What may be unread stays.
    ///
    /// Refused as `TraceFull` exactly if the piece's number, or the number of all calls that can have been made by the next cut, would
    /// pass the last value of u64, and else as `OutOfMemory` if memory for the image is refused. These change nothing.
    pub fn cut(&mut self) -> Result<Piece, NotMade>
        ensures cut { IfOk result (λ p. CutAs self.old self.new p) }
        ensures refused { IfErr result (λ e. IsCutCause self.old e) }
        ensures err { OnErr result (self.new ≡ self.old) }
    {
        if self.calls.is_past_counts() {
            return Err(NotMade::Refused(Refusal::TraceFull));
        }
        let image = self.segment.image()?;
        self.seats.cut_seats();
        self.doors.cut_doors();
        self.image = Some(image);
        Ok(self.calls.cut(self.alloc))
    }

    /// How many pieces were cut.
    pub fn cuts(&self) -> u64
        ensures { result ≡ length self.now.pieces }
    {
        self.calls.cuts()
    }

    // Whether a segment after so many pieces is as the segment was at the last cut.
    pub(crate) fn is_at_cut(&self, segment: &Segment, pieces: &[Piece]) -> bool
        requires stands { segment.now ≡ (trail self.now.addresses (joined pieces.now)).state }
        requires count { length pieces.now ≡ length self.now.pieces }
        ensures { IsTrue result ↔ ((trail self.now.addresses (joined pieces.now)).state ≡ (trail self.now.addresses (joined self.now.pieces)).state) }
    {
        match &self.image {
            Some(image) => image.is_of(segment),
            None => true,
        }
    }
}
