//! Sheets, on which the tellings of a script's lines are shown.
ghost use Rattle.std.specs.Prelude.{◌≡◌, ◌++◌, [], List, ℕ, Some, OnOk};
ghost use Rattle.bus_script.specs.Telling.{Telling, reply_alone, made_of, refused_by, counted, without_memory};
ghost use Rattle.bus_script.specs.Draining.{telling_done};
ghost use Rattle.bus_script.specs.Script.{Obeyed, told_of, drove};

use bus_frame::Frame;
use line_faults::LineError;
use line_runs::Told;
use pgn_ids::Address;
use segment_core::{Counts, Refusal, Reply, Segment};
use segment_drain::Drained;
use std::alloc::AllocError;

/// A text and a log, which hold the telling of a line, or parts of it.
pub trait Sheet {
    // What the text has of it, and what the log has.
    ghost in_text: { Telling → List ℕ };

    ghost in_log: { Telling → List ℕ };

    // The text and the log so far.
    ghost text_shown: { Self → List ℕ };

    ghost log_shown: { Self → List ℕ };

    fn text(&self) -> &[u8]
        ensures { result.now ≡ text_shown self.now };

    fn log(&self) -> &[u8]
        ensures { result.now ≡ log_shown self.now };

    /// Empties the text and the log.
    fn clear(&mut self)
        ensures text { text_shown self.new ≡ [] }
        ensures log { log_shown self.new ≡ [] };

    /// The segment was made of these stations.
    fn show_made(&mut self, stations: &[Address]) -> Result<(), AllocError>
        ensures text { OnOk result (text_shown self.new ≡ text_shown self.old ++ in_text (made_of stations.now)) }
        ensures log { OnOk result (log_shown self.new ≡ log_shown self.old ++ in_log (made_of stations.now)) };

    /// Something is refused.
    fn show_refused(&mut self, cause: Refusal) -> Result<(), AllocError>
        ensures text { OnOk result (text_shown self.new ≡ text_shown self.old ++ in_text (refused_by cause)) }
        ensures log { OnOk result (log_shown self.new ≡ log_shown self.old ++ in_log (refused_by cause)) };

    /// What the segment counted.
    fn show_counts(&mut self, counts: Counts) -> Result<(), AllocError>
        ensures text { OnOk result (text_shown self.new ≡ text_shown self.old ++ in_text (counted counts)) }
        ensures log { OnOk result (log_shown self.new ≡ log_shown self.old ++ in_log (counted counts)) };

    /// The reply to a call that was made at this tick and puts this frame if it is done.
    fn show_reply(&mut self, now: u64, put: Option<Frame>, reply: Reply) -> Result<(), AllocError>
        ensures text { OnOk result (text_shown self.new ≡ text_shown self.old ++ in_text (told_of now put reply)) }
        ensures log { OnOk result (log_shown self.new ≡ log_shown self.old ++ in_log (told_of now put reply)) };

    /// A call found no memory.
    fn show_no_memory(&mut self) -> Result<(), AllocError>
        ensures text { OnOk result (text_shown self.new ≡ text_shown self.old ++ in_text without_memory) }
        ensures log { OnOk result (log_shown self.new ≡ log_shown self.old ++ in_log without_memory) };

    /// Drives a lane, and shows what that does.
    fn drive(
        &mut self,
        segment: &mut Segment,
        from: Address,
        to: Address,
        turns: u64,
    ) -> Result<Told, LineError>
        ensures text { Obeyed in_text result (Some segment.new) (text_shown self.old) (text_shown self.new) (drove segment.old from to turns) }
        ensures log { Obeyed in_log result (Some segment.new) (log_shown self.old) (log_shown self.new) (drove segment.old from to turns) };

    /// What a drain did.
    fn show_drained(&mut self, done: &Drained) -> Result<(), AllocError>
        ensures text { OnOk result (text_shown self.new ≡ text_shown self.old ++ in_text (telling_done done.now)) }
        ensures log { OnOk result (log_shown self.new ≡ log_shown self.old ++ in_log (telling_done done.now)) };

    // An empty telling shows nothing.
    ghost blank_text: { in_text (reply_alone []) ≡ [] };

    ghost blank_log: { in_log (reply_alone []) ≡ [] };
}
