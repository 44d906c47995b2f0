//! The telling of a line, in two parts: the frames that are put as a log, and all the rest.
ghost use Rattle.std.specs.Prelude.{◌≡◌, ◌++◌, OnOk};
ghost use Rattle.segment_law.specs.Calls.{events_of};
ghost use Rattle.script_text.specs.Replies.{event_lines};
ghost use Rattle.bus_script.specs.Telling.{log_at};
ghost use Rattle.bus_script.specs.Script.{frames_put};

use crate::draining::print_drained;
use crate::driven::print_parts;
use crate::driving::drive_logged;
use crate::logging::{log_optional, print_timed};
use crate::sheet::Sheet;
use bus_frame::Frame;
use line_faults::LineError;
use line_runs::Told;
use pgn_ids::Address;
use script_text::{print_counts, print_events, print_refused, print_reply, print_text};
use segment_core::{Counts, Refusal, Reply, Segment};
use segment_drain::Drained;
use std::alloc::{AllocError, Global};

/// A text and a log.
#[derive(Drop)]
pub(crate) struct Parted {
    /// The replies and the events.
    pub(crate) text: Vec<u8>,
    /// The frames that are put.
    pub(crate) log: Vec<u8>,
    /// The events of a drive while its line, which goes above them, isn't known.
    pub(crate) below: Vec<u8>,
}

impl Parted {
    /// Empty ones. They take no memory.
    pub(crate) fn new(alloc: Global) -> Parted {
        Parted {
            text: Vec::new(alloc),
            log: Vec::new(alloc),
            below: Vec::new(alloc),
        }
    }

    // The frame and the events of a call that was done.
    fn show_below(&mut self, now: u64, put: Option<Frame>, reply: Reply) -> Result<(), AllocError>
        ensures text { OnOk result (self.new.text.items ≡ self.old.text.items ++ event_lines (events_of reply)) }
        ensures log { OnOk result (self.new.log.items ≡ self.old.log.items ++ log_at now (frames_put put reply)) }
    {
        match reply {
            Reply::Opened(_) => Ok(()),
            Reply::Sent(_) => Ok(()),
            Reply::Refused(_) => Ok(()),
            Reply::Done(events) => {
                log_optional(&mut self.log, now, put)?;
                print_events(&mut self.text, &events)
            }
        }
    }
}

impl Sheet for Parted {
    ghost use Rattle.std.specs.Prelude.{refl};
    ghost use Rattle.bus_script.specs.Telling.{without_frames, frames_alone};

    ghost in_text = { without_frames };

    ghost in_log = { frames_alone };

    ghost text_shown = { λ s. s.text.items };

    ghost log_shown = { λ s. s.log.items };

    fn text(&self) -> &[u8] {
        self.text.as_slice()
    }

    fn log(&self) -> &[u8] {
        self.log.as_slice()
    }

    fn clear(&mut self) {
        self.text.clear();
        self.log.clear();
    }

    fn show_made(&mut self, _stations: &[Address]) -> Result<(), AllocError> {
        print_text(&mut self.text, "done")
    }

    fn show_refused(&mut self, cause: Refusal) -> Result<(), AllocError> {
        print_refused(&mut self.text, cause)
    }

    fn show_counts(&mut self, counts: Counts) -> Result<(), AllocError> {
        print_counts(&mut self.text, counts)
    }

    #[tactic(auto, using(crate::proofs::Logs::same_time))]
    fn show_reply(&mut self, now: u64, put: Option<Frame>, reply: Reply) -> Result<(), AllocError> {
        print_reply(&mut self.text, &reply)?;
        self.show_below(now, put, reply)
    }

    fn show_no_memory(&mut self) -> Result<(), AllocError> {
        print_text(&mut self.text, "no memory")
    }

    fn drive(
        &mut self,
        segment: &mut Segment,
        from: Address,
        to: Address,
        turns: u64,
    ) -> Result<Told, LineError> {
        drive_logged(segment, from, to, turns, self)
    }

    fn show_drained(&mut self, done: &Drained) -> Result<(), AllocError> {
        print_drained(&mut self.text, done.turns, done.end)?;
        print_timed(&mut self.log, done.times.as_slice(), done.frames.as_slice())?;
        print_parts(&mut self.text, done.parts.as_slice())
    }

    ghost blank_text = { refl };

    ghost blank_log = { refl };
}
