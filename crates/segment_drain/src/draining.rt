//! A drain.
ghost use Rattle.std.specs.Prelude.{◌≡◌, ◌≢◌, ℕ, ◌<◌, ◌≤◌, ◌+◌, ◌++◌, ◌^◌, None, List, length, true};
ghost use Rattle.std.specs.List.{list_all};
ghost use Rattle.pgn_ids.specs.declared.address.Address.{Address as AddressValue};
ghost use Rattle.bus_order.specs.Bus.{bus_len};
ghost use Rattle.segment_law.specs.Record.{Record, StandsAt};
ghost use Rattle.segment_law.specs.declared.refusal.Refusal.{Refusal as RefusalValue};
ghost use Rattle.segment_core.specs.Promise.{KeepsPromise};
ghost use Rattle.segment_drain.specs.Drains.{Drain, IsCourse, Goes, Makes, IsDrained, HasBegun, drained, end_at, is_drain_call, frame_put, timed_by, goes_on_by};
ghost use Rattle.segment_drain.specs.Calm.{AreCalm, never_paused};
ghost use Rattle.segment_drain.specs.Enough.{calls_left, enough_turns, longest_time, HasEnough};
ghost use Rattle.segment_drain.specs.Rested.{IsAtRest};
ghost use Rattle.segment_law.specs.Drive.{events_in};
ghost use Rattle.segment_law.specs.Segment.{new_segment};
ghost use Rattle.work_law.specs.Course.{each_turn};
ghost use Rattle.work_law.specs.Storm.{allowances};
ghost use Rattle.work_law.specs.Rest.{HasRested, AllEnded};
ghost use Rattle.work_law.specs.ToAll.{ends_well};
ghost use Rattle.segment_drain.specs.declared.end.DrainEnd.TheVariants as end;

use crate::choosing::{Next, next_of};
use crate::course::Course;
use crate::drained::Drained;
use crate::end::DrainEnd;
use crate::waits::asks_to_wait;
use bus_frame::Frame;
use pgn_ids::Address;
use segment_core::{Call, Reply, Segment, the_headline_holds};
use std::alloc::Global;
use work_law::{
    broadcasts_end_as_such, overruns_fall, there_is_no_storm, what_has_stopped_rests, work_falls,
};

/// Drains a segment for at most so many turns, and returns the frames put and the events.
///
/// One turn is one call: the first of these that isn't refused, by the lowest station. A Take with room; a Transmit; if the bus is
/// full, an Overrun of what waits for the station furthest behind; a Pump; a Fire; or else a Tick to the next tick at which
/// something can be done.
///
/// It ends as at rest if there is none of them, and after its turns. It ends as held if a timer only asked a sender to wait again, as
/// a session on hold does while its port is paused. It ends as refused only if the last place of the bus is used; and at a call that
/// lacks memory, which then wasn't made.
///
/// It doesn't end after its turns if there are enough: twice as many as calls may be left, and two. At most what the segment's calls
/// asked for is left. If no port is paused, no session is on hold and the bus has places for what may come, it then ends at rest,
/// unless a call lacks memory; and if 1,250 ticks of the clock are left, each message that was sent has its outcome. One to all ends
/// as broadcast in every drain.
pub fn drain(alloc: Global, segment: &mut Segment, turns: u64) -> Drained
    ensures done { result.end ≢ end.OutOfMemory → IsDrained (drained segment.old turns) segment.new result }
    ensures begun { result.end ≡ end.OutOfMemory → HasBegun segment.old segment.new turns result }
    ensures calls { (n : ℕ) → list_all (λ step. is_drain_call step.0) (drained segment.old n).calls ≡ true }
    ensures few { (n : ℕ) → length (drained segment.old n).calls ≤ n }
    ensures stands { (addresses : List AddressValue) (steps : Record) → StandsAt addresses steps segment.old
        → (n : ℕ) → StandsAt addresses (steps ++ (drained segment.old n).calls) (drained segment.old n).segment }
    ensures rest { (addresses : List AddressValue) (steps : Record) → StandsAt addresses steps segment.old → result.end ≡ end.Rest
        → IsAtRest (steps ++ (drained segment.old turns).calls) segment.new }
    ensures enough { (addresses : List AddressValue) (steps : Record) → StandsAt addresses steps segment.old → enough_turns segment.old ≤ turns
        → result.end ≢ end.Turns }
    ensures asked { (addresses : List AddressValue) (steps : Record) → StandsAt addresses steps segment.old
        → calls_left segment.old ≤ allowances (each_turn segment.old) (new_segment addresses) steps }
    ensures refused { (addresses : List AddressValue) (steps : Record) → StandsAt addresses steps segment.old
        → (cause : RefusalValue) → result.end ≡ end.Refused cause → 2 ^ 64 ≤ bus_len segment.new.bus + 1 }
    ensures held { (addresses : List AddressValue) (steps : Record) → StandsAt addresses steps segment.old → AreCalm segment.old → result.end ≢ end.Held }
    ensures calm { (addresses : List AddressValue) (steps : Record) → StandsAt addresses steps segment.old → never_paused steps ≡ true → AreCalm segment.old }
    ensures heals { (addresses : List AddressValue) (steps : Record) → StandsAt addresses steps segment.old → HasEnough segment.old turns
        → result.end ≢ end.OutOfMemory → result.end ≡ end.Rest }
    ensures healed { (addresses : List AddressValue) (steps : Record) → StandsAt addresses steps segment.old → HasEnough segment.old turns
        → result.end ≢ end.OutOfMemory → segment.new.now + longest_time < 2 ^ 64
        → HasRested segment.new × AllEnded (steps ++ (drained segment.old turns).calls) }
    ensures to_all { (addresses : List AddressValue) (steps : Record) → StandsAt addresses steps segment.old
        → (n : ℕ) → list_all ends_well (events_in (drained segment.old n).calls) ≡ true }
    ensures headline { KeepsPromise segment.new }
{
    // Laws, for the last clauses: these calls do nothing.
    what_has_stopped_rests();
    work_falls();
    there_is_no_storm();
    overruns_fall();
    broadcasts_end_as_such();
    the_headline_holds();
    let mut course = Course::new(alloc);
    for _ in 0..turns {
        if let Err(end) = turn(segment, &mut course) {
            return course.ended(end);
        }
    }
    course.ended(end_at(next_of(segment)))
}

// How a drain ends after its last turn.
fn end_at(next: Next) -> DrainEnd
    ensures { result ≡ end_at next }
{
    match next {
        Next::Make(_) => DrainEnd::Turns,
        Next::End(end) => end,
    }
}

// One turn.
fn turn(segment: &mut Segment, course: &mut Course) -> Result<(), DrainEnd>
    requires { course.old.turns + 1 < 2 ^ 64 }
    ensures { (d : Drain) → IsCourse d segment.old course.old → d.ended ≡ None → Goes result d segment.new course.new }
{
    match next_of(segment) {
        Next::Make(call) => make(segment, call, course),
        Next::End(end) => Err(end),
    }
}

// A call is made, and noted.
fn make(segment: &mut Segment, call: Call, course: &mut Course) -> Result<(), DrainEnd>
    requires { course.old.turns + 1 < 2 ^ 64 }
    ensures { (d : Drain) → IsCourse d segment.old course.old → Makes result d call segment.new course.new }
{
    if let Err(_) = course.make_room() {
        return Err(DrainEnd::OutOfMemory);
    }
    let now = segment.now();
    let put = frame_put(segment, &call);
    let timed = timed_by(&call);
    match segment.apply(call) {
        Ok(Reply::Done(events)) => {
            course.note(now, put, events);
            goes_on(segment, timed)
        }
        Ok(Reply::Refused(cause)) => {
            course.count();
            Err(DrainEnd::Refused(cause))
        }
        Ok(Reply::Opened(_)) => {
            course.count();
            Ok(())
        }
        Ok(Reply::Sent(_)) => {
            course.count();
            Ok(())
        }
        Err(_) => Err(DrainEnd::OutOfMemory),
    }
}

// The drain is held if a timer fired, and only asked a sender to wait again.
fn goes_on(segment: &Segment, timed: Option<Address>) -> Result<(), DrainEnd>
    ensures { result ≡ goes_on_by segment.now timed }
{
    let Some(station) = timed else {
        return Ok(());
    };
    if asks_to_wait(segment, station) {
        return Err(DrainEnd::Held);
    }
    Ok(())
}

// The frame that a call puts if it is done.
fn frame_put(segment: &Segment, call: &Call) -> Option<Frame>
    ensures { result ≡ frame_put segment.now call.now }
{
    match call {
        Call::Transmit { station } => segment.front(*station),
        _ => None,
    }
}

// The station whose timer a call fires.
fn timed_by(call: &Call) -> Option<Address>
    ensures { result ≡ timed_by call.now }
{
    match call {
        Call::Fire { station } => Some(*station),
        _ => None,
    }
}
