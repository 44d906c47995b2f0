//! The whole telling of a line, in one text.
ghost use Rattle.std.specs.Prelude.{◌≡◌, ◌++◌, OnOk, option_to_list};
ghost use Rattle.segment_law.specs.Calls.{events_of};
ghost use Rattle.script_text.specs.Replies.{put_lines, event_lines};
ghost use Rattle.bus_script.specs.Script.{frames_put};

use crate::draining::print_drained;
use crate::driven::{print_driven, print_parts};
use crate::driving::told_at;
use crate::sheet::Sheet;
use bus_frame::Frame;
use line_faults::LineError;
use line_runs::Told;
use pgn_ids::Address;
use script_text::{
    print_counts, print_events, print_frames, print_put, print_refused, print_reply, print_text,
};
use segment_core::{Counts, Refusal, Reply, Segment};
use segment_drain::Drained;
use std::alloc::{AllocError, Global};

/// A text with the replies, the frames that are put, and the events.
#[derive(Drop)]
pub(crate) struct Whole {
    text: Vec<u8>,
}

impl Whole {
    /// An empty one. It takes no memory.
    pub(crate) fn new(alloc: Global) -> Whole {
        Whole {
            text: Vec::new(alloc),
        }
    }
}

fn print_optional(text: &mut Vec<u8>, put: Option<Frame>) -> Result<(), AllocError>
    ensures { OnOk result (text.new.items ≡ text.old.items ++ put_lines (option_to_list put)) }
{
    match put {
        Some(frame) => print_put(text, &frame),
        None => Ok(()),
    }
}

/// The lines below the reply of a call that was done: the frame that it put, and its events.
fn print_below(text: &mut Vec<u8>, put: Option<Frame>, reply: Reply) -> Result<(), AllocError>
    ensures { OnOk result (text.new.items ≡ text.old.items ++ (put_lines (frames_put put reply) ++ event_lines (events_of reply))) }
{
    match reply {
        Reply::Opened(_) => Ok(()),
        Reply::Sent(_) => Ok(()),
        Reply::Refused(_) => Ok(()),
        Reply::Done(events) => {
            print_optional(text, put)?;
            print_events(text, &events)
        }
    }
}

impl Sheet for Whole {
    ghost use Rattle.std.specs.Prelude.{[], refl};
    ghost use Rattle.bus_script.specs.Telling.{whole, nothing};

    ghost in_text = { whole };

    ghost in_log = { nothing };

    ghost text_shown = { λ s. s.text.items };

    ghost log_shown = { λ s. [] };

    fn text(&self) -> &[u8] {
        self.text.as_slice()
    }

    fn log(&self) -> &[u8] {
        b""
    }

    fn clear(&mut self) {
        self.text.clear();
    }

    fn show_made(&mut self, _stations: &[Address]) -> Result<(), AllocError> {
        print_text(&mut self.text, "done")
    }

    fn show_refused(&mut self, cause: Refusal) -> Result<(), AllocError> {
        print_refused(&mut self.text, cause)
    }

    fn show_counts(&mut self, counts: Counts) -> Result<(), AllocError> {
        print_counts(&mut self.text, counts)
    }

    fn show_reply(
        &mut self,
        _now: u64,
        put: Option<Frame>,
        reply: Reply,
    ) -> Result<(), AllocError> {
        print_reply(&mut self.text, &reply)?;
        print_below(&mut self.text, put, reply)
    }

    fn show_no_memory(&mut self) -> Result<(), AllocError> {
        print_text(&mut self.text, "no memory")
    }

    fn drive(
        &mut self,
        segment: &mut Segment,
        from: Address,
        to: Address,
        turns: u64,
    ) -> Result<Told, LineError> {
        let driven = segment.drive(from, to, turns);
        let told = told_at(driven.end);
        print_driven(&mut self.text, driven)?;
        Ok(told)
    }

    fn show_drained(&mut self, done: &Drained) -> Result<(), AllocError> {
        print_drained(&mut self.text, done.turns, done.end)?;
        print_frames(&mut self.text, done.frames.as_slice())?;
        print_parts(&mut self.text, done.parts.as_slice())
    }

    ghost blank_text = { refl };

    ghost blank_log = { refl };
}
