//! The beginning of a drawing.
ghost use Rattle.std.specs.Prelude.{◌≡◌, ◌++◌, OnOk, flat_map};
ghost use Rattle.frame_arrows.specs.Opening.{participant_line, heading, opening};

use crate::words::put_name;
use pgn_ids::Address;
use std::alloc::AllocError;
use text_digits::put_text;

#[tactic(auto, unfolding(crate::specs::Opening::participant_line))]
fn draw_participant(out: &mut Vec<u8>, station: Address) -> Result<(), AllocError>
    ensures { OnOk result (out.new.items ≡ out.old.items ++ participant_line station) }
{
    put_text(out, "  participant ")?;
    put_name(out, station)?;
    put_text(out, "\n")
}

/// Participants, in this order.
pub fn draw_participants(out: &mut Vec<u8>, stations: &[Address]) -> Result<(), AllocError>
    ensures { OnOk result (out.new.items ≡ out.old.items ++ flat_map participant_line stations.now) }
{
    for station in stations {
        draw_participant(out, *station)?;
    }
    Ok(())
}

/// The line that says which kind of drawing it is.
#[tactic(auto, unfolding(crate::specs::Opening::heading))]
pub fn draw_heading(out: &mut Vec<u8>) -> Result<(), AllocError>
    ensures { OnOk result (out.new.items ≡ out.old.items ++ heading) }
{
    put_text(out, "sequenceDiagram\n")
}

/// The beginning of a drawing: its kind, and its stations as participants in this order. Nothing if there is no
/// station.
pub fn draw_opening(out: &mut Vec<u8>, stations: &[Address]) -> Result<(), AllocError>
    ensures { OnOk result (out.new.items ≡ out.old.items ++ opening stations.now) }
{
    if stations.is_empty() {
        return Ok(());
    }
    draw_heading(out)?;
    draw_participants(out, stations)
}
