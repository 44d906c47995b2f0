//! Whether a client's front submission can be accepted now.
ghost use Rattle.std.specs.Prelude.{◌≡◌, ◌<◌, ◌≤◌, ◌+◌, ◌^◌, ℕ, length, IfOk, OnErr, IsTrue, slice_index_or, vec_len, vec_capacity};
ghost use Rattle.segment_rings.specs.Views.{SeatView};
ghost use Rattle.live_record.specs.Past.{count_since};
ghost use Rattle.live_ends.specs.Ends.{SameSeats};
ghost use Rattle.live_calls.specs.Offers.{IsCauseFor, IsReadyToSend, LacksRoomToSend, HasSpace};

use live_ends::{Front, Seats, count_owed, send_of};
use live_record::{Calls, Owed};
use segment_law::{Call, Refusal};
use segment_rings::Seat;
use std::alloc::{AllocError, Global};
use watched_segment::Watched;

// Why the segment would refuse to send the front submission. It takes no memory.
fn front_refusal(segment: &Watched, seats: &[Seat], k: usize) -> Option<Refusal>
    requires within { k < length seats.now }
    requires waits { (s : SeatView) → 0 < length (slice_index_or seats.now k s).ahead }
    ensures { (s : SeatView) → IsCauseFor segment.now (slice_index_or seats.now k s) result }
{
    let seat = &seats[k];
    let front = seat.front();
    segment.send_refusal(seat.station(), front.to, front.bytes.len())
}

/// Whether the front submission of a client can be sent, and by which call; or why the segment would refuse that.
#[derive(Drop)]
pub enum Ready {
    Empty,
    Owed,
    Full,
    NotSent(Refusal),
    Send(Call),
}

/// All that can fail before the front submission is sent. Memory is looked for only if nothing else prevents it.
pub fn find_ready(
    alloc: Global,
    segment: &Watched,
    calls: &mut Calls,
    owed: &mut Vec<Owed>,
    seats: &mut Seats,
    k: usize,
) -> Result<Ready, AllocError>
    requires { k < length seats.old.items }
    ensures calls { calls.new.items ≡ calls.old.items }
    ensures pieces { calls.new.pieces ≡ calls.old.pieces }
    ensures owed { owed.new.items ≡ owed.old.items }
    ensures seats { SameSeats seats.old.items seats.new.items }
    ensures ready { IfOk result (λ r. IsReadyToSend segment.now (count_since calls.old.pieces calls.old.items) owed.old.items seats.new.items k r) }
    ensures space { IfOk result (λ r. HasSpace 0 calls.new.spare r × HasSpace (vec_len owed.new) (vec_capacity owed.new) r) }
    ensures few { IfOk result (λ r. HasSpace (length calls.old.items + 1) (2 ^ 64) r) }
    ensures count { length seats.new.items ≡ length seats.old.items }
    ensures err { OnErr result (LacksRoomToSend segment.now (count_since calls.old.pieces calls.old.items) owed.old.items seats.new.items k) }
{
    // What is owed is counted only if it has something.
    if seats.has_nothing(k) {
        return Ok(Ready::Empty);
    }
    make_front_ready(alloc, segment, calls, owed, seats, k)
}

// `find_ready`, for a client that may have a submission.
fn make_front_ready(
    alloc: Global,
    segment: &Watched,
    calls: &mut Calls,
    owed: &mut Vec<Owed>,
    seats: &mut Seats,
    k: usize,
) -> Result<Ready, AllocError>
    requires { k < length seats.old.items }
    ensures calls { calls.new.items ≡ calls.old.items }
    ensures pieces { calls.new.pieces ≡ calls.old.pieces }
    ensures owed { owed.new.items ≡ owed.old.items }
    ensures seats { SameSeats seats.old.items seats.new.items }
    ensures ready { IfOk result (λ r. IsReadyToSend segment.now (count_since calls.old.pieces calls.old.items) owed.old.items seats.new.items k r) }
    ensures space { IfOk result (λ r. HasSpace 0 calls.new.spare r × HasSpace (vec_len owed.new) (vec_capacity owed.new) r) }
    ensures few { IfOk result (λ r. HasSpace (length calls.old.items + 1) (2 ^ 64) r) }
    ensures count { length seats.new.items ≡ length seats.old.items }
    ensures err { OnErr result (LacksRoomToSend segment.now (count_since calls.old.pieces calls.old.items) owed.old.items seats.new.items k) }
{
    let count = count_owed(owed.as_slice(), k as u64);
    match seats.look(k, count, calls.len()) {
        Front::Empty => Ok(Ready::Empty),
        Front::Owed => Ok(Ready::Owed),
        Front::Full => Ok(Ready::Full),
        Front::Waits => {
            if let Some(refusal) = front_refusal(segment, seats.as_slice(), k) {
                return Ok(Ready::NotSent(refusal));
            }
            calls.reserve()?;
            owed.reserve(1)?;
            seats.keep_notes(k, count + 1)?;
            let call = send_of(alloc, seats.as_slice(), k)?;
            Ok(Ready::Send(call))
        }
    }
}
