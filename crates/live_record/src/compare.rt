//! Comparisons of lists, and copies of what is left.
ghost use Rattle.std.specs.Prelude.{◌≡◌, ◌≤◌, ◌<◌, ◌+◌, ◌++◌, List, cond, length, take, drop, IfOk, IsTrue, ◌↔◌, MatchOption};
ghost use mathlib.Core.List.{IsPrefix};
ghost use Rattle.live_record.specs.Record.{accepted, sent_in, is_by};
ghost use Rattle.live_record.specs.Past.{joined};

use crate::calls::Piece;
use message_events::Bytes;
use pgn_ids::{Address, Pgn};
use segment_law::Call;
use segment_rings::{Delivery, Note, Submission};
use std::alloc::{AllocError, Global};
use stored_calls::{Stored, StoredCalls};

// Whether a message is this submission.
fn is_submission(submission: &Submission, to: Address, pgn: Pgn, bytes: &Bytes) -> bool
    ensures { IsTrue result ↔ (submission.now ≡ record { to = to; pgn = pgn; bytes = bytes.now }) }
{
    submission.to.0 == to.0
        && submission.pgn.raw() == pgn.raw()
        && submission.bytes.as_slice() == bytes.as_slice()
}

fn same_delivery(a: &Delivery, b: &Delivery) -> bool
    ensures { IsTrue result ↔ (a.now ≡ b.now) }
{
    a.from.0 == b.from.0
        && a.to.0 == b.to.0
        && a.pgn.raw() == b.pgn.raw()
        && a.bytes.as_slice() == b.bytes.as_slice()
}

/// The end of a list, behind so many items, if the list has these and keeps all behind them. `gone` of its first items aren't kept.
pub fn kept_from<T>(kept: &[T], gone: u64, before: u64) -> Option<&[T]>
    ensures { (all : List T) → gone ≤ length all → kept.now ≡ drop gone all → MatchOption result ((gone ≤ before) × (before ≤ length all) → ⊥) (λ rest. (gone ≤ before) × (before ≤ length all) × (rest.now ≡ drop before all)) }
{
    if gone > before {
        return None;
    }
    let at = (before - gone) as usize;
    if at > kept.len() {
        return None;
    }
    Some(&kept[at..])
}

/// Whether the first list begins the second.
pub fn begins(first: &[Delivery], second: &[Delivery]) -> bool
    ensures { IsTrue result ↔ IsPrefix first.now second.now }
{
    if first.len() > second.len() {
        return false;
    }
    for i in 0..first.len() {
        if !same_delivery(&first[i], &second[i]) {
            return false;
        }
    }
    true
}

/// Whether the first list begins the second.
pub fn notes_begin(first: &[Note], second: &[Note]) -> bool
    ensures { IsTrue result ↔ IsPrefix first.now second.now }
{
    if first.len() > second.len() {
        return false;
    }
    for i in 0..first.len() {
        if first[i] != second[i] {
            return false;
        }
    }
    true
}

// Whether a stored call is a message of the client.
fn is_message_of(stored: &Stored, client: u64) -> bool
    ensures { length (sent_in (is_by client stored.now.by) stored.now.call) ≡ cond result 1 0 }
{
    let Some(by) = stored.by else {
        return false;
    };
    if by != client {
        return false;
    }
    match &stored.call {
        Call::Send {
            from: _,
            to: _,
            pgn: _,
            bytes: _,
        } => true,
        _ => false,
    }
}

// One stored call more: how many messages of the client are stored then, if they still begin what it submitted.
fn next_matches(stored: &Stored, client: u64, submitted: &[Submission], n: usize) -> Option<usize>
    requires { n ≤ length submitted.now }
    ensures { MatchOption result (IsPrefix (take n submitted.now ++ sent_in (is_by client stored.now.by) stored.now.call) submitted.now → ⊥) (λ m. (m ≤ length submitted.now) × (take m submitted.now ≡ take n submitted.now ++ sent_in (is_by client stored.now.by) stored.now.call)) }
{
    let Some(by) = stored.by else {
        return Some(n);
    };
    if by != client {
        return Some(n);
    }
    match &stored.call {
        Call::Send {
            from: _,
            to,
            pgn,
            bytes,
        } => {
            if n >= submitted.len() {
                return None;
            }
            if !is_submission(&submitted[n], *to, *pgn, bytes) {
                return None;
            }
            Some(n + 1)
        }
        _ => Some(n),
    }
}

/// How many of these calls are messages of the client.
pub fn count_accepted(calls: &StoredCalls, client: u64) -> usize
    ensures { result ≡ length (accepted client calls.now.items) }
{
    let mut count = 0;
    for at in 0..calls.len() {
        let Some(stored) = calls.whole(at) else {
            continue;
        };
        if is_message_of(stored, client) {
            count += 1;
        }
    }
    count
}

/// Whether the messages of the client that are stored begin what it submitted.
pub fn accepted_begin(calls: &StoredCalls, client: u64, submitted: &[Submission]) -> bool
    ensures { IsTrue result ↔ IsPrefix (accepted client calls.now.items) submitted.now }
{
    let mut n = 0;
    for at in 0..calls.len() {
        let Some(stored) = calls.whole(at) else {
            continue;
        };
        let Some(more) = next_matches(stored, client, submitted, n) else {
            return false;
        };
        n = more;
    }
    true
}

/// Whether the messages of the client that these pieces hold begin what it submitted.
pub fn pieces_accepted_begin(pieces: &[Piece], client: u64, submitted: &[Submission]) -> bool
    ensures { IsTrue result ↔ IsPrefix (accepted client (joined pieces.now)) submitted.now }
{
    let mut n = 0;
    for at in 0..pieces.len() {
        let calls = &pieces[at].calls;
        if !accepted_begin(calls, client, &submitted[n..]) {
            return false;
        }
        n += count_accepted(calls, client);
    }
    true
}

// Copies of submissions.
fn copy_submissions(alloc: Global, items: &[Submission]) -> Result<Vec<Submission>, AllocError>
    ensures { IfOk result (λ v. v.items ≡ items.now) }
{
    let mut copies = Vec::with_capacity(alloc, items.len())?;
    for item in items {
        let bytes = item.bytes.copy(alloc)?;
        copies.push(Submission {
            to: item.to,
            pgn: item.pgn,
            bytes,
        })?;
    }
    Ok(copies)
}

/// Copies of the submissions of a client behind those that were taken: what is left of them.
pub fn copy_left(
    alloc: Global,
    submitted: &[Submission],
    taken: usize,
) -> Result<Vec<Submission>, AllocError>
    requires { taken ≤ length submitted.now }
    ensures { IfOk result (λ v. v.items ≡ drop taken submitted.now) }
{
    copy_submissions(alloc, &submitted[taken..])
}

/// Copies of deliveries.
pub fn copy_deliveries(alloc: Global, items: &[Delivery]) -> Result<Vec<Delivery>, AllocError>
    ensures { IfOk result (λ v. v.items ≡ items.now) }
{
    let mut copies = Vec::with_capacity(alloc, items.len())?;
    for item in items {
        let bytes = item.bytes.copy(alloc)?;
        copies.push(Delivery {
            from: item.from,
            to: item.to,
            pgn: item.pgn,
            bytes,
        })?;
    }
    Ok(copies)
}
