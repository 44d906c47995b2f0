//! What a segment says is left once its clients and inboxes are handed in.
use super::played::*;
use super::steps::*;
use segment_shared::{Accepted, Client, Inbox, Live, Report, finish};
use std::alloc::{AllocError, Global};
use std::process::Abort;

/// What a report says of clients and inboxes: how many there are, and how much is left of all of them together.
pub(super) struct Left {
    pub(super) clients: usize,
    pub(super) submissions: usize,
    pub(super) notes: usize,
    pub(super) inboxes: usize,
    pub(super) deliveries: usize,
}

// The numbers of a `Left`.
fn left_by(report: &Report) -> [usize; 5] {
    let (mut submissions, mut notes, mut deliveries) = (0usize, 0usize, 0usize);
    for client in &report.clients {
        submissions = submissions.saturating_add(client.left.len());
        notes = notes.saturating_add(client.unread.len());
    }
    for inbox in &report.inboxes {
        deliveries = deliveries.saturating_add(inbox.rest.len());
    }
    [
        report.clients.len(),
        submissions,
        notes,
        report.inboxes.len(),
        deliveries,
    ]
}

fn report(rt: &impl Abort, live: &mut Live, clients: Vec<Client>, inboxes: Vec<Inbox>) -> Report {
    match finish(live, clients, inboxes) {
        Ok(report) => report,
        Err(refused) => {
            holds(rt, !refused.not_this_segment);
            got(rt, Err(AllocError))
        }
    }
}

/// So much is left of these clients and an inbox.
pub(super) fn leaves(
    rt: &impl Abort,
    alloc: Global,
    live: &mut Live,
    clients: Vec<Client>,
    inbox: Inbox,
    expected: &Left,
) {
    let inboxes = got(rt, vec![in alloc; inbox]);
    let report = report(rt, live, clients, inboxes);
    let numbers = [
        expected.clients,
        expected.submissions,
        expected.notes,
        expected.inboxes,
        expected.deliveries,
    ];
    same(rt, left_by(&report), numbers);
    drop(report);
}

// A client that was handed in has no submission.
fn leaves_on(rt: &impl Abort, alloc: Global, live: &mut Live, tables: &[Rounds], left: &Left) {
    let (mut inbox, mut sender) = port_and_client(rt, live);
    play(rt, alloc, live, &mut inbox, &mut sender, tables);
    let clients = got(rt, vec![in alloc; sender]);
    leaves(rt, alloc, live, clients, inbox, left);
    holds(rt, got(rt, live.accept(0)) == Accepted::Empty);
}

/// A new segment with the port and the client does all this, and so much is left.
pub(super) fn does_and_leaves(rt: &impl Abort, alloc: Global, tables: &[Rounds], left: &Left) {
    let mut live = three(rt, alloc);
    leaves_on(rt, alloc, &mut live, tables, left);
    drop(live);
}
