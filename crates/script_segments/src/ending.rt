//! The text that is printed once the threads have ended.
ghost use Rattle.std.specs.Prelude.{◌≡◌, ◌++◌, OnOk, IfOk, IfErr};
ghost use Rattle.script_runs.specs.declared.ending.Lost.TheVariants.{NotThisSegment};
ghost use Rattle.live_record.specs.Record.{trail};
ghost use Rattle.script_segments.specs.Ending.{Came, end_text};
ghost use Rattle.script_segments.specs.Known.{AreKnown, IsThisSegment};
ghost use Rattle.script_segments.specs.Noted.{HasRunOut};

use crate::setup::Message;
use crate::text::{are_same, has_run_out, print_clients, print_ports};
use live_segment::Live;
use pgn_ids::Address;
use port_table::PortId;
use script_runs::{Lost, Told};
use script_text::print_text;
use std::alloc::Global;

// The ports with what they were given, the outcomes, and whether the turns ran out.
#[tactic(auto, unfolding(crate::specs::Ending::end_text))]
fn print_end(
    out: &mut Vec<u8>,
    live: &Live,
    stations: &[Address],
    ports: &[PortId],
    ran_out: bool,
) -> Result<(), Lost>
    ensures text { OnOk result (out.new.items ≡ out.old.items ++ end_text stations.now ports.now ran_out (trail live.now.addresses live.now.calls)) }
    ensures known { OnOk result (AreKnown stations.now ports.now live.now) }
    ensures unknown { IfErr result (λ lost. lost ≡ NotThisSegment → AreKnown stations.now ports.now live.now → ⊥) }
{
    print_ports(out, live, ports)?;
    print_clients(out, live, stations)?;
    if ran_out {
        print_text(out, "turns ran out")?;
    }
    Ok(())
}

/// The text of what the threads left, which must be a segment of these stations that has these ports and a client of each
/// station. The turns ran out unless each message has its outcome and the bus was drained.
///
/// `NotThisSegment` exactly if it is another segment, or one that was cut; `OutOfMemory` if memory was refused.
pub fn text_of(
    alloc: Global,
    live: &Live,
    stations: &[Address],
    ports: &[PortId],
    messages: &[Message],
    drained: bool,
) -> Result<Told, Lost>
    ensures came { IfOk result (λ told. Came stations.now ports.now messages.now told.ran_out told.text.items live.now) }
    ensures ran_out { IfOk result (λ told. HasRunOut told.ran_out stations.now messages.now drained live.now) }
    ensures known { OnOk result (IsThisSegment stations.now ports.now live.now) }
    ensures unknown { IfErr result (λ lost. lost ≡ NotThisSegment → IsThisSegment stations.now ports.now live.now → ⊥) }
{
    if !are_same(live.addresses(), stations) {
        return Err(Lost::NotThisSegment);
    }
    let ran_out = has_run_out(live, stations, messages, drained);
    let mut text = Vec::new(alloc);
    print_end(&mut text, live, stations, ports, ran_out)?;
    live.laws();
    Ok(Told { text, ran_out })
}
