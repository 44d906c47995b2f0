//! Arrows of frames, one for packets that follow on one another.
ghost use Rattle.std.specs.Prelude.{◌≡◌, ◌++◌, OnOk, IfOk};
ghost use Rattle.frame_arrows.specs.Words.{arrow_line};
ghost use Rattle.frame_arrows.specs.Runs.{run_of, run_arrow, goes_on, longer, open_after, drawn_at, arrows};

use crate::words::{draw_frame, put_ends, put_packets};
use bus_frame::Frame;
use pgn_ids::Address;
use std::alloc::AllocError;
use text_digits::put_text;
use tp_wire::{Wire, read};

/// Packets from one source to one destination whose sequence numbers follow on one another.
#[derive(Clone, Copy, Debug, PartialEq, Eq)]
pub struct Run {
    /// The source.
    pub from: Address,
    /// The destination, 255 for all.
    pub to: Address,
    /// The first sequence number, from 1.
    pub first: u8,
    /// The last one.
    pub last: u8,
}

/// The run of the one packet that a frame is, if it is one.
#[tactic(auto, unfolding(crate::specs::Runs::run_of))]
pub fn run_of(frame: &Frame) -> Option<Run>
    ensures { result ≡ run_of frame.now }
{
    let Some((wire, from, to)) = read(frame) else {
        return None;
    };
    match &wire {
        Wire::Packet { sequence, .. } => Some(Run {
            from,
            to,
            first: *sequence,
            last: *sequence,
        }),
        Wire::Cm(_) => None,
        Wire::Request { .. } => None,
        Wire::Ack { .. } => None,
    }
}

#[tactic(auto, unfolding(crate::specs::Runs::arrow_of_run, crate::specs::Words::arrow_line))]
fn draw_run(out: &mut Vec<u8>, run: Option<Run>) -> Result<(), AllocError>
    ensures { OnOk result (out.new.items ≡ out.old.items ++ run_arrow run) }
{
    let Some(run) = run else {
        return Ok(());
    };
    put_ends(out, run.from, run.to)?;
    put_packets(out, run.first, run.last)?;
    put_text(out, "\n")
}

/// Whether a packet continues a run, if one is open.
pub fn goes_on(run: Option<Run>, packet: Run) -> bool
    ensures { result ≡ goes_on run packet }
{
    let Some(run) = run else {
        return false;
    };
    run.from.0 == packet.from.0
        && run.to.0 == packet.to.0
        && u16::from(run.last) + 1 == u16::from(packet.first)
}

/// A run with one packet more; if none is open, the packet alone.
pub fn longer(run: Option<Run>, packet: Run) -> Run
    ensures { result ≡ longer run packet }
{
    match run {
        None => packet,
        Some(run) => Run {
            from: packet.from,
            to: packet.to,
            first: run.first,
            last: packet.last,
        },
    }
}

/// The text drawn at a frame behind an open run, and the run that is open behind the frame.
#[tactic(auto, unfolding(crate::specs::Runs::drawn_at, crate::specs::Runs::open_after))]
fn draw_at(out: &mut Vec<u8>, run: Option<Run>, frame: &Frame) -> Result<Option<Run>, AllocError>
    ensures drawn { OnOk result (out.new.items ≡ out.old.items ++ drawn_at run frame.now) }
    ensures run { IfOk result (λ behind. behind ≡ open_after run frame.now) }
{
    let Some(packet) = run_of(frame) else {
        draw_run(out, run)?;
        draw_frame(out, frame)?;
        return Ok(None);
    };
    if goes_on(run, packet) {
        return Ok(Some(longer(run, packet)));
    }
    draw_run(out, run)?;
    Ok(Some(packet))
}

/// The arrows of frames, in their order: packets from one source to one destination whose sequence numbers follow on one another have one
/// arrow, each other frame has its own.
pub fn draw_frames(out: &mut Vec<u8>, frames: &[Frame]) -> Result<(), AllocError>
    ensures { OnOk result (out.new.items ≡ out.old.items ++ arrows frames.now) }
{
    let mut run = None;
    for frame in frames {
        run = draw_at(out, run, frame)?;
    }
    draw_run(out, run)
}
