//! Calls whose result alone a test looks at: their contracts are not carried through it. Want of memory is no result, and ends the test.
use crate::checks::{got, holds};
pub(crate) use crate::messages::{FECA, bytes, feca};
use message_events::Bytes;
use pgn_ids::Address;
use segment_rings::{Client, SubmitRefused};
use segment_shared::{Refusal, Reply};
use std::alloc::AllocError;
use std::process::Abort;

/// What a client's submission is answered. A refusal without a cause is want of memory.
pub(crate) fn submitted(
    rt: &impl Abort,
    client: &mut Client,
    to: Address,
    pgn: u32,
    bytes: Bytes,
) -> Result<u64, SubmitRefused> {
    let answer = client.submit(to, pgn, bytes);
    if lacks_memory(&answer) {
        got(rt, Err(AllocError))
    }
    answer
}

fn lacks_memory(answer: &Result<u64, SubmitRefused>) -> bool {
    match answer {
        Ok(_) => false,
        Err(refused) => refused.refusal.is_none(),
    }
}

/// Whether a call is answered by so many events, or by a refusal for this cause. Neither if memory is refused.
pub(crate) fn is_answer(
    reply: Result<Reply, AllocError>,
    expected: Result<usize, Refusal>,
) -> Option<bool> {
    match reply {
        Ok(Reply::Done(events)) => Some(expected == Ok(events.len())),
        Ok(Reply::Refused(cause)) => Some(expected == Err(cause)),
        _ => None,
    }
}

/// Ends the test if a call isn't answered by no events.
pub(crate) fn is_done(rt: &impl Abort, reply: Result<Reply, AllocError>) {
    holds(rt, got(rt, is_answer(reply, Ok(0)).ok_or(AllocError)));
}
