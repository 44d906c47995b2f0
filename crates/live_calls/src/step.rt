//! One call on the segment, and why it would be refused.
ghost use Rattle.std.specs.Prelude.{◌≡◌, ◌++◌, ◌∷◌, [], Bool, true, List, IfOk, IsOk, OnErr, IfSome, OnSome, IfNone};
ghost use Rattle.std.specs.Bool.{OnTrue, OnFalse};
ghost use Rattle.pgn_ids.specs.declared.address.Address.{Address};
ghost use Rattle.segment_law.specs.Calls.{called};
ghost use Rattle.segment_law.specs.Record.{Record, StandsAt};
ghost use Rattle.segment_law.specs.declared.reply.Reply.TheVariants.{Done};
ghost use Rattle.segment_state.specs.Answers.{refusal_of, reply_with};
ghost use Rattle.live_calls.specs.Words.{call_of, wanted_by};
ghost use Rattle.live_record.specs.Replies.{reply_of, left_by, Follows};

use crate::call::WorkerCall;
use message_events::Events;
use segment_law::{Call, Refusal, Reply};
use segment_state::{Made, Tried};
use std::alloc::AllocError;
use watched_segment::Watched;

/// Makes one call. Want of memory changes nothing.
#[inline(always)]
pub fn make(segment: &mut Watched, call: Call) -> Result<Reply, AllocError>
    ensures reply { IfOk result (λ r. r ≡ reply_of segment.old call) }
    ensures after { IfOk result (λ r. segment.new ≡ left_by segment.old call) }
    ensures err { OnErr result (segment.new ≡ segment.old) }
    ensures not_refused { OnErr result (IsOk (called segment.old call)) }
    ensures stands { (addresses : List Address) (steps : Record) → StandsAt addresses steps segment.old → IfOk result (λ r. StandsAt addresses (steps ++ (call, r) ∷ []) segment.new) }
    ensures follows { (addresses : List Address) (steps : Record) → StandsAt addresses steps segment.old → IfOk result (λ r. Follows segment.old call segment.new r) }
{
    segment.apply(call)
}

/// `make`, which puts the events into a place that has none yet.
#[inline(always)]
pub(crate) fn make_telling(
    segment: &mut Watched,
    call: Call,
    told: &mut Events,
) -> Result<Made, AllocError>
    requires { told.old ≡ [] }
    ensures reply { IfOk result (λ m. reply_with m told.new ≡ reply_of segment.old call) }
    ensures after { IfOk result (λ m. segment.new ≡ left_by segment.old call) }
    ensures err { OnErr result (segment.new ≡ segment.old) }
    ensures not_refused { OnErr result (IsOk (called segment.old call)) }
    ensures stands { (addresses : List Address) (steps : Record) → StandsAt addresses steps segment.old → IfOk result (λ m. StandsAt addresses (steps ++ (call, reply_with m told.new) ∷ []) segment.new) }
    ensures follows { (addresses : List Address) (steps : Record) → StandsAt addresses steps segment.old → IfOk result (λ m. Follows segment.old call segment.new (reply_with m told.new)) }
{
    segment.apply_apart(call, told)
}

/// Makes a call with room, which puts its events into a place that has none yet, unless it may give a message: a Take may give one
/// exactly if its frame completes it. Then, and if the call is refused or finds no memory, this returns false, and nothing has changed.
#[inline(always)]
pub fn try_plainly(segment: &mut Watched, call: WorkerCall, told: &mut Events) -> bool
    requires { told.old ≡ [] }
    ensures reply { OnTrue result (Done told.new ≡ reply_of segment.old (call_of call true)) }
    ensures after { OnTrue result (segment.new ≡ left_by segment.old (call_of call true)) }
    ensures none { OnTrue result ((wanted_by segment.old call).ports ≡ []) }
    ensures same { (addresses : List Address) (steps : Record) → StandsAt addresses steps segment.old → OnFalse result (segment.new ≡ segment.old) }
    ensures stands { (addresses : List Address) (steps : Record) → StandsAt addresses steps segment.old → OnTrue result (StandsAt addresses (steps ++ (call_of call true, Done told.new) ∷ []) segment.new) }
    ensures follows { (addresses : List Address) (steps : Record) → StandsAt addresses steps segment.old → OnTrue result (Follows segment.old (call_of call true) segment.new (Done told.new)) }
{
    match call {
        WorkerCall::Take { station } => match segment.take_unless_whole(station, told) {
            Ok(tried) => match tried {
                Tried::Done => true,
                Tried::Whole => false,
                Tried::Refused(_) => false,
            },
            Err(_) => false,
        },
        WorkerCall::TakeAgain { station: _ } => false,
        _ => match make_telling(segment, call.with_room(true), told) {
            Ok(made) => match made {
                Made::Done => true,
                Made::Refused(_) => false,
                Made::Opened(_) => false,
                Made::Sent(_) => false,
            },
            Err(_) => false,
        },
    }
}

/// `make_telling` with room, unless the call takes a frame, and so may give a message: then this returns None, and nothing has
/// changed yet.
#[inline(always)]
pub(crate) fn make_ungiven(
    segment: &mut Watched,
    call: WorkerCall,
    told: &mut Events,
) -> Result<Option<Made>, AllocError>
    requires { told.old ≡ [] }
    ensures reply { IfOk result (λ part. IfSome part (λ m. reply_with m told.new ≡ reply_of segment.old (call_of call true))) }
    ensures after { IfOk result (λ part. OnSome part (segment.new ≡ left_by segment.old (call_of call true))) }
    ensures none { IfOk result (λ part. OnSome part ((wanted_by segment.old call).ports ≡ [])) }
    ensures same { IfOk result (λ part. IfNone part (segment.new ≡ segment.old)) }
    ensures untold { IfOk result (λ part. IfNone part (told.new ≡ [])) }
    ensures err { OnErr result (segment.new ≡ segment.old) }
    ensures stands { (addresses : List Address) (steps : Record) → StandsAt addresses steps segment.old → IfOk result (λ part. IfSome part (λ m. StandsAt addresses (steps ++ (call_of call true, reply_with m told.new) ∷ []) segment.new)) }
    ensures follows { (addresses : List Address) (steps : Record) → StandsAt addresses steps segment.old → IfOk result (λ part. IfSome part (λ m. Follows segment.old (call_of call true) segment.new (reply_with m told.new))) }
{
    match call {
        WorkerCall::Take { station: _ } => Ok(None),
        WorkerCall::TakeAgain { station: _ } => Ok(None),
        _ => Ok(Some(make_telling(segment, call.with_room(true), told)?)),
    }
}

/// Why the segment would refuse a call, whether there is room for what it gives or not. It takes no memory.
pub fn refusal_for(segment: &Watched, call: WorkerCall) -> Option<Refusal>
    ensures { (room : Bool) → result ≡ refusal_of (called segment.now (call_of call room)) }
{
    segment.refusal(&call.with_room(true))
}
