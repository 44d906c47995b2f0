//! Places in the rings of ports, and memory for what goes there, found before a call is made.
ghost use Rattle.std.specs.Prelude.{◌≡◌, ◌<◌, ◌+◌, ◌^◌, length, List, [], ◌∷◌, ◌++◌, IfOk, OnOk, OnErr, IfSome, IfNone, true, false};
ghost use Rattle.pgn_ids.specs.declared.address.Address.{Address};
ghost use Rattle.segment_law.specs.Record.{Record, StandsAt};
ghost use Rattle.segment_state.specs.Answers.{reply_with};
ghost use Rattle.live_record.specs.Replies.{reply_of, left_by, Follows};
ghost use Rattle.live_record.specs.declared.calls.TheConstants.{MOST_CALLS};
ghost use Rattle.live_record.specs.Past.{count_since};
ghost use Rattle.live_ends.specs.Ends.{PortsApart, SameDoors};
ghost use Rattle.live_calls.specs.Words.{call_of, wanted_by};
ghost use Rattle.live_calls.specs.Places.{IsFound};

use crate::call::WorkerCall;
use crate::step::{make_telling, make_ungiven};
use crate::wanted::wanted_of;
use live_ends::{Doors, make_buffers, prepare_all};
use live_record::Calls;
use message_events::Events;
use segment_rings::Buffer;
use segment_state::Made;
use std::alloc::{AllocError, Global};
use watched_segment::Watched;

/// What was found before a call, and how the call is answered.
#[derive(Drop)]
pub struct Found {
    /// Whether each delivery that was wanted had a place.
    pub room: bool,
    /// If each had one, memory for it twice: for the ring, and to keep.
    pub buffers: Vec<Buffer>,
    pub made: Made,
}

// A place for each delivery of a call, and memory for it.
fn find_places(
    alloc: Global,
    segment: &Watched,
    doors: &mut Doors,
    call: &WorkerCall,
) -> Result<Option<Vec<Buffer>>, AllocError>
    requires { PortsApart doors.old.items }
    ensures same { SameDoors doors.old.items doors.new.items }
    ensures found { IfOk result (λ r. IfSome r (λ buffers. IsFound (wanted_by segment.now call.now) doors.new.items true buffers.items)) }
    ensures lacks { IfOk result (λ r. IfNone r (IsFound (wanted_by segment.now call.now) doors.new.items false [])) }
{
    let wanted = wanted_of(segment, call);
    let numbers = wanted.ports.numbers();
    if !prepare_all(doors, wanted.station, numbers)? {
        return Ok(None);
    }
    let buffers = make_buffers(alloc, 2 * numbers.len(), wanted.len as usize)?;
    Ok(Some(buffers))
}

// Makes a call that may give a message, with room if a place for each delivery is found. Few calls do.
#[inline(never)]
fn make_giving(
    alloc: Global,
    segment: &mut Watched,
    doors: &mut Doors,
    call: WorkerCall,
    told: &mut Events,
) -> Result<Found, AllocError>
    requires apart { PortsApart doors.old.items }
    requires silent { told.old ≡ [] }
    ensures same { SameDoors doors.old.items doors.new.items }
    ensures found { IfOk result (λ r. IsFound (wanted_by segment.old call) doors.new.items r.room r.buffers.items) }
    ensures reply { IfOk result (λ r. reply_with r.made told.new ≡ reply_of segment.old (call_of call r.room)) }
    ensures after { IfOk result (λ r. segment.new ≡ left_by segment.old (call_of call r.room)) }
    ensures err { OnErr result (segment.new ≡ segment.old) }
    ensures stands { (addresses : List Address) (steps : Record) → StandsAt addresses steps segment.old → IfOk result (λ r. StandsAt addresses (steps ++ (call_of call r.room, reply_with r.made told.new) ∷ []) segment.new) }
    ensures follows { (addresses : List Address) (steps : Record) → StandsAt addresses steps segment.old → IfOk result (λ r. Follows segment.old (call_of call r.room) segment.new (reply_with r.made told.new)) }
{
    match find_places(alloc, segment, doors, &call)? {
        Some(buffers) => {
            let made = make_telling(segment, call.with_room(true), told)?;
            Ok(Found {
                room: true,
                buffers,
                made,
            })
        }
        None => {
            let made = make_telling(segment, call.with_room(false), told)?;
            Ok(Found {
                room: false,
                buffers: Vec::new(alloc),
                made,
            })
        }
    }
}

/// Makes a call, if there is a place to store it, with a place for each delivery that it makes and memory for it; without one it is made
/// without room.
#[inline(always)]
pub fn make_found(
    alloc: Global,
    segment: &mut Watched,
    calls: &mut Calls,
    doors: &mut Doors,
    call: &WorkerCall,
    told: &mut Events,
) -> Result<Found, AllocError>
    requires apart { PortsApart doors.old.items }
    requires silent { told.old ≡ [] }
    ensures items { calls.new.items ≡ calls.old.items }
    ensures pieces { calls.new.pieces ≡ calls.old.pieces }
    ensures same { SameDoors doors.old.items doors.new.items }
    ensures place { OnOk result (0 < calls.new.spare) }
    ensures few { count_since calls.old.pieces calls.old.items < MOST_CALLS → length calls.old.items + 1 < 2 ^ 64 }
    ensures found { IfOk result (λ r. IsFound (wanted_by segment.old call.now) doors.new.items r.room r.buffers.items) }
    ensures reply { IfOk result (λ r. reply_with r.made told.new ≡ reply_of segment.old (call_of call.now r.room)) }
    ensures after { IfOk result (λ r. segment.new ≡ left_by segment.old (call_of call.now r.room)) }
    ensures err { OnErr result (segment.new ≡ segment.old) }
    ensures stands { (addresses : List Address) (steps : Record) → StandsAt addresses steps segment.old → IfOk result (λ r. StandsAt addresses (steps ++ (call_of call.now r.room, reply_with r.made told.new) ∷ []) segment.new) }
    ensures follows { (addresses : List Address) (steps : Record) → StandsAt addresses steps segment.old → IfOk result (λ r. Follows segment.old (call_of call.now r.room) segment.new (reply_with r.made told.new)) }
{
    calls.reserve()?;
    match make_ungiven(segment, *call, told)? {
        Some(made) => Ok(Found {
            room: true,
            buffers: Vec::new(alloc),
            made,
        }),
        None => make_giving(alloc, segment, doors, *call, told),
    }
}
