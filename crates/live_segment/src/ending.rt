//! What is reported once the threads have ended.
ghost use Rattle.std.specs.Prelude.{◌≡◌, ◌<◌, length, drop, IfOk, OnOk, OnErr, IfErr, IsTrue, ◌↔◌, MatchOption, true, false, ◌≤◌};
ghost use mathlib.Core.List.{IsPrefix};
ghost use Rattle.live_record.specs.Record.{accepted};
ghost use Rattle.live_record.specs.Past.{joined};
ghost use Rattle.live_segment.specs.LiveView.{stored_calls};
ghost use Rattle.live_segment.specs.Reports.{accepted_before as accepted_before_of, submitted_since as submitted_since_of, notes_gone, given_gone, HasPort, HasSubmitted, HasRead, HasReceived, ClientAgrees, InboxAgrees, IsClientReport, IsInboxReport, AreClientReports, AreInboxReports, EachClientAgrees, EachInboxAgrees, Retired};

use crate::live::Live;
use crate::report::{ClientReport, FinishRefused, InboxReport, Report};
use live_ends::door_of;
use live_record::{
    Piece, accepted_begin, begins, copy_deliveries, copy_left, count_accepted, kept_from,
    notes_begin, pieces_accepted_begin,
};
use port_table::PortId;
use segment_rings::{Client, Delivery, Inbox, Note, Submission};
use std::alloc::{AllocError, Global};

// How many messages of a client were accepted before the last cut.
fn accepted_before(live: &Live, client: u64) -> usize
    requires { client < length live.now.clients }
    ensures { result ≡ accepted_before_of live.now client }
{
    live.laws();
    live.taken_of(client) - count_accepted(live.calls(), client)
}

/// Whether what these pieces hold of a client is what it submitted first. `finish` compares nothing of the calls before the last cut; a
/// caller that keeps all pieces of a segment, from the first on, compares the rest by this. It is false if the client no longer keeps
/// its first submissions, since nothing is left to compare.
pub fn pieces_begin(pieces: &[Piece], client: &Client) -> bool
    ensures { IsTrue result ↔ ((client.now.gone ≡ 0) × IsPrefix (accepted client.now.id (joined pieces.now)) client.now.submitted) }
{
    client.submitted_gone() == 0 && pieces_accepted_begin(pieces, client.id(), client.submitted())
}

/// Whether a client belongs to this segment, and its lists begin and are begun as they are to: the question that `finish` asks of each.
pub fn client_agrees(live: &Live, client: &Client) -> bool
    ensures { IsTrue result ↔ ClientAgrees live.now client.now }
{
    let id = client.id();
    let Some(notes) = live.notes_of(id) else {
        return false;
    };
    let Some(submitted) = submitted_since(live, client) else {
        return false;
    };
    let Some(read) = read_since(live, client) else {
        return false;
    };
    accepted_begin(live.calls(), id, submitted) && notes_begin(read, notes)
}

// What a client submitted since the last cut, if it submitted as much before as was accepted then, and keeps all since.
fn submitted_since<'a>(live: &Live, client: &'a Client) -> Option<&'a [Submission]>
    requires { client.now.id < length live.now.clients }
    ensures { MatchOption result (HasSubmitted live.now client.now → ⊥) (λ xs. HasSubmitted live.now client.now × (xs.now ≡ submitted_since_of live.now client.now)) }
{
    kept_from(
        client.submitted(),
        client.submitted_gone(),
        accepted_before(live, client.id()) as u64,
    )
}

// The notes that a client read, from those on that the segment keeps, if it read the notes before them, and keeps these.
fn read_since<'a>(live: &Live, client: &'a Client) -> Option<&'a [Note]>
    requires { client.now.id < length live.now.clients }
    ensures { MatchOption result (HasRead live.now client.now → ⊥) (λ xs. HasRead live.now client.now × (xs.now ≡ drop (notes_gone live.now client.now.id) client.now.read)) }
{
    let Some(gone) = live.notes_gone(client.id()) else {
        unreachable!()
    };
    kept_from(client.read(), client.read_gone(), gone)
}

// What an inbox received, from the deliveries on that the segment keeps, if it received those before them, and keeps these.
fn received_since<'a>(live: &Live, inbox: &'a Inbox) -> Option<&'a [Delivery]>
    requires { HasPort live.now.ports inbox.now.port }
    ensures { MatchOption result (HasReceived live.now inbox.now → ⊥) (λ xs. HasReceived live.now inbox.now × (xs.now ≡ drop (given_gone live.now inbox.now.port) inbox.now.received)) }
{
    let Some(gone) = live.given_gone(inbox.port()) else {
        unreachable!()
    };
    kept_from(inbox.received(), inbox.gone(), gone)
}

/// Whether an inbox belongs to this segment, and its deliveries are the first that its port was given: the question that `finish` asks of
/// each.
pub fn inbox_agrees(live: &Live, inbox: &Inbox) -> bool
    ensures { IsTrue result ↔ InboxAgrees live.now inbox.now }
{
    let Some(given) = live.given_to(inbox.port()) else {
        return false;
    };
    let Some(received) = received_since(live, inbox) else {
        return false;
    };
    begins(received, given)
}

fn clients_agree(live: &Live, clients: &[Client]) -> bool
    ensures { IsTrue result ↔ EachClientAgrees live.now clients.now }
{
    for client in clients {
        if !client_agrees(live, client) {
            return false;
        }
    }
    true
}

fn inboxes_agree(live: &Live, inboxes: &[Inbox]) -> bool
    ensures { IsTrue result ↔ EachInboxAgrees live.now inboxes.now }
{
    for inbox in inboxes {
        if !inbox_agrees(live, inbox) {
            return false;
        }
    }
    true
}

// Whether all agree. It takes no memory.
fn agrees(live: &Live, clients: &[Client], inboxes: &[Inbox]) -> bool
    ensures { IsTrue result ↔ (EachClientAgrees live.now clients.now × EachInboxAgrees live.now inboxes.now) }
{
    clients_agree(live, clients) && inboxes_agree(live, inboxes)
}

// The remainder for a client whose lists agree.
fn report_client(alloc: Global, live: &Live, client: &Client) -> Result<ClientReport, AllocError>
    requires { ClientAgrees live.now client.now }
    ensures { IfOk result (λ r. IsClientReport live.now client.now r) }
{
    let id = client.id();
    let Some(submitted) = submitted_since(live, client) else {
        unreachable!()
    };
    let taken = count_accepted(live.calls(), id);
    let left = copy_left(alloc, submitted, taken)?;
    let Some(notes) = live.notes_of(id) else {
        unreachable!()
    };
    let Some(read) = read_since(live, client) else {
        unreachable!()
    };
    let unread = Vec::from_slice(alloc, &notes[read.len()..])?;
    Ok(ClientReport { id, left, unread })
}

/// The remainder for an inbox whose list agrees.
pub(crate) fn report_inbox(
    alloc: Global,
    live: &Live,
    inbox: &Inbox,
) -> Result<InboxReport, AllocError>
    requires { InboxAgrees live.now inbox.now }
    ensures { IfOk result (λ r. IsInboxReport live.now inbox.now r) }
{
    let port = inbox.port();
    let Some(given) = live.given_to(port) else {
        unreachable!()
    };
    let Some(received) = received_since(live, inbox) else {
        unreachable!()
    };
    let rest = copy_deliveries(alloc, &given[received.len()..])?;
    Ok(InboxReport { port, rest })
}

fn report_clients(
    alloc: Global,
    live: &Live,
    clients: &[Client],
) -> Result<Vec<ClientReport>, AllocError>
    requires { EachClientAgrees live.now clients.now }
    ensures { IfOk result (λ v. AreClientReports live.now clients.now v.items) }
{
    let mut reports = Vec::with_capacity(alloc, clients.len())?;
    for client in clients {
        reports.push(report_client(alloc, live, client)?)?;
    }
    Ok(reports)
}

fn report_inboxes(
    alloc: Global,
    live: &Live,
    inboxes: &[Inbox],
) -> Result<Vec<InboxReport>, AllocError>
    requires { EachInboxAgrees live.now inboxes.now }
    ensures { IfOk result (λ v. AreInboxReports live.now inboxes.now v.items) }
{
    let mut reports = Vec::with_capacity(alloc, inboxes.len())?;
    for inbox in inboxes {
        reports.push(report_inbox(alloc, live, inbox)?)?;
    }
    Ok(reports)
}

fn report_both(
    alloc: Global,
    live: &Live,
    clients: &[Client],
    inboxes: &[Inbox],
) -> Result<(Vec<ClientReport>, Vec<InboxReport>), AllocError>
    requires clients { EachClientAgrees live.now clients.now }
    requires inboxes { EachInboxAgrees live.now inboxes.now }
    ensures { IfOk result (λ v. AreClientReports live.now clients.now v.0.items × AreInboxReports live.now inboxes.now v.1.items) }
{
    let client_reports = report_clients(alloc, live, clients)?;
    let inbox_reports = report_inboxes(alloc, live, inboxes)?;
    Ok((client_reports, inbox_reports))
}

/// Compares the lists of clients and inboxes with those of the segment, and reports what is left of each. Afterwards no submission of
/// these clients is taken, and the rings of these ports have no free place.
///
/// The submissions are compared from those on that were accepted since the last cut, the notes and deliveries from those on that the
/// segment keeps. Refused exactly if a client or an inbox isn't of this segment, or its lists don't agree with it; want of memory is
/// returned only if all agree. Both hand the clients and inboxes back, and change nothing.
pub fn finish(
    live: &mut Live,
    clients: Vec<Client>,
    inboxes: Vec<Inbox>,
) -> Result<Report, FinishRefused>
    ensures calls { IfOk result (λ r. r.calls ≡ stored_calls live.old) }
    ensures cuts { IfOk result (λ r. r.cuts ≡ length live.old.pieces) }
    ensures clients { IfOk result (λ r. AreClientReports live.old clients.items r.clients.items) }
    ensures inboxes { IfOk result (λ r. AreInboxReports live.old inboxes.items r.inboxes.items) }
    ensures retired { OnOk result (Retired live.old live.new clients.items inboxes.items) }
    ensures refused { IfErr result (λ e. e.not_this_segment ≡ true → EachClientAgrees live.old clients.items × EachInboxAgrees live.old inboxes.items → ⊥) }
    ensures memory { IfErr result (λ e. e.not_this_segment ≡ false → EachClientAgrees live.old clients.items × EachInboxAgrees live.old inboxes.items) }
    ensures back { IfErr result (λ e. (e.clients ≡ clients) × (e.inboxes ≡ inboxes)) }
    ensures err { OnErr result (live.new ≡ live.old) }
{
    if !agrees(live, clients.as_slice(), inboxes.as_slice()) {
        return Err(FinishRefused {
            not_this_segment: true,
            clients,
            inboxes,
        });
    }
    match report_both(live.alloc, live, clients.as_slice(), inboxes.as_slice()) {
        Ok((client_reports, inbox_reports)) => {
            live.retire(clients.as_slice(), inboxes.as_slice());
            Ok(Report {
                calls: live.calls().len(),
                cuts: live.cuts(),
                clients: client_reports,
                inboxes: inbox_reports,
            })
        }
        Err(_) => Err(FinishRefused {
            not_this_segment: false,
            clients,
            inboxes,
        }),
    }
}

impl Live {
    ghost use Rattle.std.specs.Prelude.{map};
    ghost use Rattle.live_segment.specs.Reports.{Retired, gone, closing};

    // These clients and inboxes are gone.
    fn retire(&mut self, clients: &[Client], inboxes: &[Inbox])
        ensures { Retired self.old self.new clients.now inboxes.now }
    {
        for client in clients {
            self.retire_client(client.id());
        }
        for inbox in inboxes {
            self.retire_port(inbox.port());
        }
    }

    // No submission of a client is taken any more.
    pub(crate) fn retire_client(&mut self, client: u64)
        ensures addresses { self.new.addresses ≡ self.old.addresses }
        ensures stopped { self.new.stopped ≡ self.old.stopped }
        ensures pieces { self.new.pieces ≡ self.old.pieces }
        ensures calls { self.new.calls ≡ self.old.calls }
        ensures clients { self.new.clients ≡ gone self.old.clients client }
        ensures ports { self.new.ports ≡ self.old.ports }
    {
        if client < self.seats.len() as u64 {
            self.seats.close(client as usize);
        }
    }

    // Nothing is given to a port any more.
    pub(crate) fn retire_port(&mut self, port: PortId)
        ensures addresses { self.new.addresses ≡ self.old.addresses }
        ensures stopped { self.new.stopped ≡ self.old.stopped }
        ensures pieces { self.new.pieces ≡ self.old.pieces }
        ensures calls { self.new.calls ≡ self.old.calls }
        ensures clients { self.new.clients ≡ self.old.clients }
        ensures ports { self.new.ports ≡ map (closing port) self.old.ports }
    {
        if let Some(k) = door_of(self.doors.as_slice(), port) {
            self.doors.close(k);
        }
    }
}
