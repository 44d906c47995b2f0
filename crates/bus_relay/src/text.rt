//! The text that is printed once the threads have ended.
ghost use Rattle.std.specs.Prelude.{◌≡◌, ◌++◌, true, false, Option, OnOk, IfOk};
ghost use Rattle.live_record.specs.Record.{trail};
ghost use Rattle.script_segments.specs.Noted.{all_noted};
ghost use Rattle.script_segments.specs.Texts.{below, clients_at};
ghost use Rattle.bus_relay.specs.Carriages.{Carries, CarriesWhole};
ghost use Rattle.bus_relay.specs.Ending.{Came, end_text};
ghost use Rattle.script_segments.specs.declared.relay.gateway.Passage.{Passage};

use pgn_ids::Address;
use port_table::PortId;
use script_runs::{Lost, Told};
use script_segments::{Message, are_same, has_run_out, print_clients, print_ports};
use script_text::{print_relayed, print_text};
use segment_threads::Live;
use std::alloc::Global;

/// How many messages a relay received, submitted and left.
#[derive(Clone, Copy, Debug, PartialEq, Eq)]
pub struct Carriage {
    pub pulled: u64,
    pub pushed: u64,
    pub left: u64,
}

/// What a relay did, and whether that is all that it was to do.
#[derive(Clone, Copy, PartialEq, Eq)]
pub(crate) struct Settled {
    pub(crate) carriage: Carriage,
    pub(crate) is_done: bool,
}

// The outcomes of the first segment, and then those of the second.
fn print_outcomes(
    out: &mut Vec<u8>,
    near: &Live,
    near_stations: &[Address],
    far: &Live,
    far_stations: &[Address],
) -> Result<(), Lost>
    ensures { OnOk result (out.new.items ≡ out.old.items ++ below 256 (λ station. clients_at station 0 near_stations.now (trail near.now.addresses near.now.calls)) ++ below 256 (λ station. clients_at station 0 far_stations.now (trail far.now.addresses far.now.calls))) }
{
    print_clients(out, near, near_stations)?;
    print_clients(out, far, far_stations)
}

// The ports of the second segment with what they were given, what the relay did, the outcomes of both, and whether the turns ran out.
#[tactic(auto, unfolding(crate::specs::Ending::end_text))]
fn print_end(
    out: &mut Vec<u8>,
    near: &Live,
    near_stations: &[Address],
    far: &Live,
    far_stations: &[Address],
    ports: &[PortId],
    carriage: Carriage,
    ran_out: bool,
) -> Result<(), Lost>
    ensures { OnOk result (out.new.items ≡ out.old.items ++ end_text near_stations.now far_stations.now ports.now carriage ran_out (trail near.now.addresses near.now.calls) (trail far.now.addresses far.now.calls)) }
{
    print_ports(out, far, ports)?;
    print_relayed(out, carriage.pulled, carriage.pushed, carriage.left)?;
    print_outcomes(out, near, near_stations, far, far_stations)?;
    if ran_out {
        print_text(out, "turns ran out")?;
    }
    Ok(())
}

// Whether the turns ran out: unless each message of the first segment has its outcome, both buses were drained and the relay is done.
fn is_cut_short(
    near: &Live,
    near_stations: &[Address],
    messages: &[Message],
    drained: bool,
    is_done: bool,
) -> bool
    ensures noted { result ≡ false → all_noted 0 near_stations.now messages.now (trail near.now.addresses near.now.calls) ≡ true }
    ensures done { result ≡ false → is_done ≡ true }
{
    if !is_done {
        return true;
    }
    has_run_out(near, near_stations, messages, drained)
}

/// The text of what the threads left, which must be two segments of these stations.
pub(crate) fn text_of(
    alloc: Global,
    near: &Live,
    far: &Live,
    near_stations: &[Address],
    far_stations: &[Address],
    ports: &[PortId],
    messages: &[Message],
    settled: Settled,
    drained: bool,
) -> Result<Told, Lost>
    ensures { IfOk result (λ told. (o : Option Passage) → Carries o far_stations.now settled.carriage near.now far.now → (settled.is_done ≡ true → CarriesWhole o far_stations.now settled.carriage near.now far.now) → Came near_stations.now far_stations.now ports.now messages.now o settled.carriage told.ran_out told.text.items near.now far.now) }
{
    if !are_same(near.addresses(), near_stations) || !are_same(far.addresses(), far_stations) {
        return Err(Lost::NotThisSegment);
    }
    let Settled { carriage, is_done } = settled;
    let ran_out = is_cut_short(near, near_stations, messages, drained, is_done);
    let mut text = Vec::new(alloc);
    print_end(
        &mut text,
        near,
        near_stations,
        far,
        far_stations,
        ports,
        carriage,
        ran_out,
    )?;
    near.laws();
    far.laws();
    Ok(Told { text, ran_out })
}
