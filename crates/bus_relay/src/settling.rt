//! What two segments and a relay leave, once the threads have ended.
ghost use Rattle.std.specs.Prelude.{◌≡◌, ◌≤◌, ◌++◌, ◌∷◌, [], length, true, IfOk, OnOk};
ghost use mathlib.Core.List.{IsPrefix};
ghost use Rattle.live_record.specs.Record.{accepted, given, notes_of, trail};
ghost use Rattle.script_segments.specs.Reports.{AreClientReports, AreInboxReports};
ghost use Rattle.bus_relay.specs.Carriages.{HasCarried, place_of, none_left, IsCarried, IsCarriedWhole, Carries, CarriesWhole};
ghost use Rattle.bus_relay.specs.Known.{CameOfKnown};

use crate::carrying::{Account, Carried, check_passage};
use crate::known::Known;
use crate::text::{Carriage, Settled, text_of};
use crate::threads::Handed;
use pgn_ids::Address;
use script_runs::{Lost, Told};
use script_segments::Passage;
use segment_threads::{Client, ClientReport, Ends, Inbox, Live, Report, finish};
use std::alloc::{AllocError, Global};

// Reports on clients and inboxes of a segment.
fn report(live: &mut Live, clients: Vec<Client>, inboxes: Vec<Inbox>) -> Result<Report, Lost>
    ensures clients { IfOk result (λ r. AreClientReports live.old clients.items r.clients.items) }
    ensures inboxes { IfOk result (λ r. AreInboxReports live.old inboxes.items r.inboxes.items) }
    ensures cuts { IfOk result (λ r. r.cuts ≡ length live.old.pieces) }
    ensures addresses { OnOk result (live.new.addresses ≡ live.old.addresses) }
    ensures calls { OnOk result (live.new.calls ≡ live.old.calls) }
{
    match finish(live, clients, inboxes) {
        Ok(told) => Ok(told),
        Err(refused) => {
            if refused.not_this_segment {
                return Err(Lost::NotThisSegment);
            }
            Err(Lost::OutOfMemory)
        }
    }
}

fn with_last<T: Drop>(items: Vec<T>, last: T) -> Result<Vec<T>, AllocError>
    ensures { IfOk result (λ v. v.items ≡ items.items ++ last ∷ []) }
{
    let mut items = items;
    items.reserve(1)?;
    items.push_reserved(last);
    Ok(items)
}

// Whether all that these clients submitted was accepted.
fn is_none_left(reports: &[ClientReport]) -> bool
    ensures { result ≡ none_left reports.now }
{
    for report in reports {
        if 0 < report.left.len() {
            return false;
        }
    }
    true
}

// Reports on the first segment with the relay's inbox: the messages that it received are the first that its port was given.
fn report_near(live: &mut Live, ends: Ends, inbox: Inbox) -> Result<(), Lost>
    ensures { OnOk result (IsPrefix inbox.received (given inbox.port (trail live.new.addresses live.new.calls).events)) }
{
    // A law, for the clause: the call does nothing.
    live.laws();
    let Ends { clients, inboxes } = ends;
    let inboxes = with_last(inboxes, inbox)?;
    let told = report(live, clients, inboxes)?;
    // A segment that was cut doesn't show what was given and read before.
    if told.cuts > 0 {
        return Err(Lost::NotThisSegment);
    }
    drop(told);
    Ok(())
}

// Reports on the second segment with the relay's client: the messages accepted of it are the first that it submitted. True only if all
// were accepted.
fn report_far(live: &mut Live, ends: Ends, client: Client) -> Result<bool, Lost>
    ensures begins { OnOk result (IsPrefix (accepted client.id live.new.calls) client.submitted) }
    ensures all { IfOk result (λ b. b ≡ true → accepted client.id live.new.calls ≡ client.submitted) }
{
    let Ends { clients, inboxes } = ends;
    let clients = with_last(clients, client)?;
    let told = report(live, clients, inboxes)?;
    // A segment that was cut doesn't show what was accepted before.
    if told.cuts > 0 {
        return Err(Lost::NotThisSegment);
    }
    let is_all = is_none_left(told.clients.as_slice());
    Ok(is_all)
}

// The place of a station, which is the number of its client: each has one, in the order of the stations.
fn place_of(station: Address, stations: &[Address]) -> u64
    ensures { result ≡ place_of station stations.now }
{
    let mut place = 0;
    for other in stations {
        if other.0 == station.0 {
            return place;
        }
        place += 1;
    }
    place
}

// Whether a relay completed its work: all that it submitted was accepted and has its outcomes, it left nothing, and it received so
// many.
fn is_done(far: &Live, client: u64, is_accepted: bool, carriage: Carriage, limit: u64) -> bool
    ensures accepted { result ≡ true → is_accepted ≡ true }
    ensures left { result ≡ true → carriage.left ≡ 0 }
    ensures pulled { result ≡ true → limit ≤ carriage.pulled }
    ensures noted { result ≡ true → carriage.pushed ≤ length (notes_of client (trail far.now.addresses far.now.calls).noted) }
{
    if !is_accepted {
        return false;
    }
    if carriage.left > 0 {
        return false;
    }
    if carriage.pulled < limit {
        return false;
    }
    let Some(notes) = far.notes_of(client) else {
        return false;
    };
    notes.len() as u64 >= carriage.pushed
}

// Reports on both segments and the relay between them.
fn settle_relay(
    near: &mut Live,
    far: &mut Live,
    near_ends: Ends,
    far_ends: Ends,
    carried: Carried,
    passage: Passage,
    far_stations: &[Address],
) -> Result<Settled, Lost>
    requires { HasCarried carried }
    ensures carries { IfOk result (λ s. IsCarried passage far_stations.now s.carriage near.new far.new) }
    ensures whole { IfOk result (λ s. s.is_done ≡ true → IsCarriedWhole passage far_stations.now s.carriage near.new far.new) }
{
    let number = place_of(passage.from, far_stations);
    check_passage(&carried, passage, number)?;
    let Carried {
        inbox,
        client,
        to: _,
        limit: _,
        pulled,
        pushed,
        left,
    } = carried;
    report_near(near, near_ends, inbox)?;
    let is_accepted = report_far(far, far_ends, client)?;
    let carriage = Carriage {
        pulled,
        pushed,
        left,
    };
    let is_done = is_done(far, number, is_accepted, carriage, passage.limit);
    Ok(Settled { carriage, is_done })
}

// Reports on two segments without a relay.
fn settle_apart(
    near: &mut Live,
    far: &mut Live,
    near_ends: Ends,
    far_ends: Ends,
) -> Result<Settled, Lost>
    ensures { IfOk result (λ s. s.carriage ≡ record { pulled = 0; pushed = 0; left = 0 }) }
{
    let Ends { clients, inboxes } = near_ends;
    let told = report(near, clients, inboxes)?;
    drop(told);
    let Ends { clients, inboxes } = far_ends;
    let told = report(far, clients, inboxes)?;
    drop(told);
    Ok(Settled {
        carriage: Carriage {
            pulled: 0,
            pushed: 0,
            left: 0,
        },
        is_done: true,
    })
}

// Reports on both segments, and on the relay if there is a passage.
fn settle(
    near: &mut Live,
    far: &mut Live,
    handed: Handed,
    passage: Option<Passage>,
    far_stations: &[Address],
) -> Result<Settled, Lost>
    ensures carries { IfOk result (λ s. Carries passage far_stations.now s.carriage near.new far.new) }
    ensures whole { IfOk result (λ s. s.is_done ≡ true → CarriesWhole passage far_stations.now s.carriage near.new far.new) }
{
    let Handed {
        near: near_ends,
        far: far_ends,
        carried,
        drained: _,
    } = handed;
    let Some(way) = passage else {
        let settled = settle_apart(near, far, near_ends, far_ends)?;
        return Ok(settled);
    };
    let Some(account) = carried else {
        return Err(Lost::NotThisSegment);
    };
    let carried = account.into_carried();
    let settled = settle_relay(near, far, near_ends, far_ends, carried, way, far_stations)?;
    Ok(settled)
}

/// Reports on the clients and inboxes, and returns the text of what the threads left.
///
/// `NotThisSegment` if one of them isn't of its segment or the relay isn't that of the passage; `OutOfMemory` if memory was refused; or
/// why the threads left nothing.
pub(crate) fn tell_end(
    alloc: Global,
    near: &mut Live,
    far: &mut Live,
    handed: Result<Handed, Lost>,
    known: &Known,
) -> Result<Told, Lost>
    ensures { IfOk result (λ told. CameOfKnown known.now told) }
{
    let handed = handed?;
    let drained = handed.drained;
    let near_stations = known.near.stations.as_slice();
    let far_stations = known.far.stations.as_slice();
    let ports = known.far.ports.as_slice();
    let messages = known.near.messages.as_slice();
    let settled = settle(near, far, handed, known.passage, far_stations)?;
    let told = text_of(
        alloc,
        near,
        far,
        near_stations,
        far_stations,
        ports,
        messages,
        settled,
        drained,
    )?;
    Ok(told)
}
