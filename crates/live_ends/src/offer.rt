//! A client's front submission: what a look at it finds, the call that sends it, and how it is taken.
ghost use Rattle.std.specs.Prelude.{◌≡◌, ◌<◌, ◌≤◌, ◌+◌, ◌^◌, ℕ, length, IfOk, OnOk, IsTrue, slice_index_or, vec_len, vec_capacity};
ghost use Rattle.segment_rings.specs.Views.{SeatView, with_spare};
ghost use Rattle.segment_rings.specs.declared.words.Submission.{Submission};
ghost use Rattle.live_record.specs.Record.{owed_by};
ghost use Rattle.live_record.specs.Past.{count_since};
ghost use Rattle.live_ends.specs.Ends.{SameSeats};
ghost use Rattle.live_ends.specs.Homes.{OnlyAt};
ghost use Rattle.live_ends.specs.Offers.{IsFrontIn, IsSendOf, IsStored};
ghost use Rattle.live_ends.specs.declared.offer.Front.TheVariants as front;

use live_record::{Calls, MOST_CALLS, Owed};
use segment_law::Call;
use segment_rings::{Offer, Seat, Submission};
use std::alloc::{AllocError, Global};
use stored_calls::Stored;

/// How many messages of the client are without an outcome.
pub fn count_owed(owed: &[Owed], client: u64) -> usize
    ensures { result ≡ owed_by client owed.now }
{
    let mut count = 0;
    for w in owed {
        if w.client == client {
            count += 1;
        }
    }
    count
}

/// What a look at a client's front submission finds, in the order in which it is looked for.
#[derive(Clone, Copy, PartialEq, Eq)]
pub enum Front {
    /// None is seen, or none is taken any more.
    Empty,
    /// Each place for its note that is known to be free is owed already.
    Owed,
    /// No more calls can be stored.
    Full,
    /// Its note has a place, and can be kept.
    Waits,
}

/// Looks at the front submission of a client that is owed so many notes, while so many calls are stored.
pub(crate) fn look(seats: &mut Vec<Seat>, k: usize, owed: usize, stored: usize) -> Front
    requires { k < length seats.old.items }
    ensures same { SameSeats seats.old.items seats.new.items }
    ensures only { OnlyAt k seats.old.items seats.new.items }
    ensures front { IsFrontIn seats.new.items k owed stored result }
    ensures count { length seats.new.items ≡ length seats.old.items }
    ensures few { result ≡ front.Waits → owed + 1 < 2 ^ 64 }
{
    let seat = &mut seats[k];
    match seat.offer(owed) {
        Offer::Empty => Front::Empty,
        Offer::Owed => Front::Owed,
        Offer::Ready => {
            if stored >= MOST_CALLS {
                return Front::Full;
            }
            Front::Waits
        }
    }
}

/// Whether a client has nothing to accept.
pub(crate) fn has_nothing(seats: &mut Vec<Seat>, k: usize) -> bool
    requires { k < length seats.old.items }
    ensures same { SameSeats seats.old.items seats.new.items }
    ensures only { OnlyAt k seats.old.items seats.new.items }
    ensures nothing { IsTrue result → (owed stored : ℕ) → IsFrontIn seats.new.items k owed stored front.Empty }
    ensures count { length seats.new.items ≡ length seats.old.items }
{
    let seat = &mut seats[k];
    match seat.offer(0) {
        Offer::Empty => true,
        Offer::Owed => false,
        Offer::Ready => false,
    }
}

/// Makes room to keep so many notes more of a client.
pub(crate) fn keep_notes(seats: &mut Vec<Seat>, k: usize, count: usize) -> Result<(), AllocError>
    requires { k < length seats.old.items }
    ensures same { SameSeats seats.old.items seats.new.items }
    ensures only { OnlyAt k seats.old.items seats.new.items }
    ensures kept { (s : SeatView) → slice_index_or seats.new.items k s ≡ with_spare (slice_index_or seats.old.items k s) (slice_index_or seats.new.items k s).spare }
    ensures ok { OnOk result ((s : SeatView) → count ≤ (slice_index_or seats.new.items k s).spare) }
    ensures count { length seats.new.items ≡ length seats.old.items }
{
    let seat = &mut seats[k];
    seat.reserve(count)
}

/// The call that sends the front submission, with a copy of its bytes.
pub fn send_of(alloc: Global, seats: &[Seat], k: usize) -> Result<Call, AllocError>
    requires within { k < length seats.now }
    requires waits { (s : SeatView) → 0 < length (slice_index_or seats.now k s).ahead }
    ensures { IfOk result (λ call. (s : SeatView) → IsSendOf (slice_index_or seats.now k s) call) }
{
    let seat = &seats[k];
    let front = seat.front();
    let bytes = front.bytes.copy(alloc)?;
    Ok(Call::Send {
        from: seat.station(),
        to: front.to,
        pgn: front.pgn,
        bytes,
    })
}

/// Takes the front submission and stores its Send, for which there is space.
pub(crate) fn store(
    calls: &mut Calls,
    owed: &mut Vec<Owed>,
    seats: &mut Vec<Seat>,
    k: usize,
    number: u64,
)
    requires within { k < length seats.old.items }
    requires waits { (s : SeatView) → 0 < length (slice_index_or seats.old.items k s).ahead }
    requires few { (s : SeatView) → length (slice_index_or seats.old.items k s).popped + 1 < 2 ^ 64 }
    requires calls { 0 < calls.old.spare }
    requires stored { count_since calls.old.pieces calls.old.items < MOST_CALLS }
    requires owed { vec_len owed.old < vec_capacity owed.old }
    ensures stored { (s : SeatView) → (x : Submission) × IsStored (slice_index_or seats.old.items k s) k number x calls.old.items calls.new.items owed.old.items owed.new.items seats.old.items seats.new.items }
    ensures pieces { calls.new.pieces ≡ calls.old.pieces }
{
    let seat = &mut seats[k];
    let station = seat.station();
    let ticket = seat.taken() + 1;
    let submission = seat.take();
    let Submission { to, pgn, bytes } = submission;
    owed.push_reserved(Owed {
        client: k as u64,
        ticket,
        from: station,
        to,
        number,
    });
    calls.push_reserved(Stored {
        by: Some(k as u64),
        call: Call::Send {
            from: station,
            to,
            pgn,
            bytes,
        },
    });
}
