//! The drawing of a line's telling.
ghost use Rattle.std.specs.Prelude.{◌≡◌, ◌++◌, OnOk, option_to_list};
ghost use Rattle.drive_course.specs.Joined.{joined};
ghost use Rattle.bus_drawing.specs.Notes.{notes};
ghost use Rattle.frame_arrows.specs.Runs.{arrows};

use bus_drawing::{draw_each_told, draw_told};
use bus_frame::Frame;
use bus_script::{Sheet, Told};
use frame_arrows::{draw_frames, draw_opening};
use line_faults::LineError;
use pgn_ids::Address;
use segment_core::{Counts, DriveEnd, Events, Refusal, Reply, Segment};
use segment_drain::Drained;
use std::alloc::{AllocError, Global};

/// The stations, the frames that are put, and the events. Replies aren't drawn.
#[derive(Drop)]
pub(crate) struct Drawing {
    text: Vec<u8>,
}

impl Drawing {
    /// An empty one. It takes no memory.
    pub(crate) fn new(alloc: Global) -> Drawing {
        Drawing {
            text: Vec::new(alloc),
        }
    }
}

fn draw_put(out: &mut Vec<u8>, put: Option<Frame>) -> Result<(), AllocError>
    ensures { OnOk result (out.new.items ≡ out.old.items ++ arrows (option_to_list put)) }
{
    match put {
        Some(frame) => draw_frames(out, [frame].as_slice()),
        None => Ok(()),
    }
}

/// The notes of the events of several calls, in their order: one part for each call that had some.
fn draw_parts(out: &mut Vec<u8>, parts: &[Events]) -> Result<(), AllocError>
    ensures { OnOk result (out.new.items ≡ out.old.items ++ notes (joined parts.now)) }
{
    for part in parts {
        draw_told(out, part)?;
    }
    Ok(())
}

impl Sheet for Drawing {
    ghost use Rattle.std.specs.Prelude.{[], refl};
    ghost use Rattle.bus_script.specs.Telling.{nothing};
    ghost use Rattle.script_drawing.specs.Drawing.{drawing_of};

    ghost in_text = { drawing_of };

    ghost in_log = { nothing };

    ghost text_shown = { λ s. s.text.items };

    ghost log_shown = { λ s. [] };

    fn text(&self) -> &[u8] {
        self.text.as_slice()
    }

    fn log(&self) -> &[u8] {
        b""
    }

    fn clear(&mut self) {
        self.text.clear();
    }

    fn show_made(&mut self, stations: &[Address]) -> Result<(), AllocError> {
        draw_opening(&mut self.text, stations)
    }

    fn show_refused(&mut self, _cause: Refusal) -> Result<(), AllocError> {
        Ok(())
    }

    fn show_counts(&mut self, _counts: Counts) -> Result<(), AllocError> {
        Ok(())
    }

    fn show_reply(
        &mut self,
        _now: u64,
        put: Option<Frame>,
        reply: Reply,
    ) -> Result<(), AllocError> {
        match reply {
            Reply::Opened(_) => Ok(()),
            Reply::Sent(_) => Ok(()),
            Reply::Refused(_) => Ok(()),
            Reply::Done(events) => {
                draw_put(&mut self.text, put)?;
                draw_told(&mut self.text, &events)
            }
        }
    }

    fn show_no_memory(&mut self) -> Result<(), AllocError> {
        Ok(())
    }

    fn drive(
        &mut self,
        segment: &mut Segment,
        from: Address,
        to: Address,
        turns: u64,
    ) -> Result<Told, LineError> {
        let driven = segment.drive(from, to, turns);
        if driven.end == DriveEnd::OutOfMemory {
            return Ok(Told::NoMemory);
        }
        draw_frames(&mut self.text, driven.frames.as_slice())?;
        draw_each_told(&mut self.text, &driven.events)?;
        Ok(Told::Answered)
    }

    fn show_drained(&mut self, done: &Drained) -> Result<(), AllocError> {
        draw_frames(&mut self.text, done.frames.as_slice())?;
        draw_parts(&mut self.text, done.parts.as_slice())
    }

    ghost blank_text = { refl };

    ghost blank_log = { refl };
}
