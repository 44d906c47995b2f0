//! Driving one lane, turn by turn.
ghost use Rattle.std.specs.Prelude.{◌≡◌, ◌≢◌, ◌<◌, ◌++◌, List, None, Err, true, IfOk, IfErr, OnOk, vec_len, vec_capacity};
ghost use Rattle.pgn_ids.specs.declared.address.Address.{Address};
ghost use Rattle.station_lanes.specs.LaneReaders.{missing_at};
ghost use Rattle.segment_law.specs.Segment.{Segment as State, station_at};
ghost use Rattle.segment_law.specs.Record.{Record, StandsAt};
ghost use Rattle.segment_law.specs.Drive.{Driven as Drive, driven, makes, puts, pumps, turn_puts, takes_all, turn};
ghost use Rattle.segment_law.specs.declared.call.Call.TheVariants.{Pump, Take, Tick};
ghost use Rattle.segment_law.specs.declared.end.DriveEnd.TheVariants as end;
ghost use Rattle.segment_law.specs.Calls.{at_address, pumps as pumping, takes, transmits};
ghost use Rattle.segment_state.specs.Answers.{IsAnswer};
ghost use Rattle.segment_state.specs.Followed.{IsFollowed, addresses_of};
ghost use Rattle.segment_core.specs.Drives.{IsDriven, IsBegun, IsCourse, SameTold, PutsNext, Went, HasPut, HasTaken, stop_end, too_soon};

use drive_course::{Course, Driven};
use pgn_ids::Address;
use segment_law::{DriveEnd, Refusal};
use segment_state::{SegmentState, Stop, one_byte};
use station_core::Events;
use std::alloc::Global;

// Room for so many frames is taken at once, so that an exchange of a few frames takes memory once.
const FRAMES_AT_ONCE: usize = 8;

// Likewise the room for the events of a few calls: a message that is sent to one node is given there, and has its outcome.
const PARTS_AT_ONCE: usize = 2;

// How a drive ends if one of its calls isn't done.
fn end_at(stop: Stop) -> DriveEnd
    ensures { result ≡ stop_end stop }
{
    match stop {
        Stop::Refused(Refusal::NothingToSend) => DriveEnd::Idle,
        Stop::Refused(cause) => DriveEnd::Refused(cause),
        Stop::OutOfMemory => DriveEnd::OutOfMemory,
    }
}

// Whether a call is refused only because it is too soon.
fn is_too_soon(cause: Option<Refusal>) -> bool
    ensures { result ≡ too_soon cause }
{
    match cause {
        Some(Refusal::NotYet) => true,
        _ => false,
    }
}

/// Drives the lane from a station to a destination for at most so many turns, and returns the frames put and the events.
///
/// One turn: if the queue of `from` isn't empty, it transmits. Else if `to` is a station whose queue isn't empty, that one
/// transmits. Else the lane is pumped, after a Tick of what is missing to the 50 ticks between the frames of a broadcast, and
/// `from` transmits. Then every station, by rising address, takes with room until no frame waits for it.
///
/// It ends after its turns; as idle if the lane has nothing to queue; at another refusal; or at a call that isn't refused but
/// lacks memory, which then wasn't made. A turn counts once its frame is put.
pub(crate) fn drive(
    alloc: Global,
    seg: &mut SegmentState,
    from: Address,
    to: Address,
    turns: u64,
) -> Driven
    ensures done { result.end ≢ end.OutOfMemory → IsDriven (driven seg.old from to turns) seg.new result }
    ensures begun { result.end ≡ end.OutOfMemory → IsBegun (driven seg.old from to turns) seg.old seg.new result }
    ensures stands { (addresses : List Address) (steps : Record) → StandsAt addresses steps seg.old → result.end ≢ end.OutOfMemory
        → StandsAt addresses (steps ++ (driven seg.old from to turns).calls) seg.new }
{
    let mut course = Course::new(alloc);
    for _ in 0..turns {
        if let Err(stop) = turn(seg, from, to, &mut course) {
            return course.ended(end_at(stop));
        }
    }
    course.ended(DriveEnd::Turns)
}

// One turn.
fn turn(seg: &mut SegmentState, from: Address, to: Address, course: &mut Course) -> Result<(), Stop>
    ensures { (start : State) (d : Drive) → IsCourse None start d seg.old course.old → Went start (turn from to d) seg.new course.new result }
{
    let station = transmitter(seg, from, to, course)?;
    let first = put_one(seg, station, course)?;
    let count = seg.station_count();
    for place in first..count {
        let station = seg.address_at(place);
        take_all(seg, station, course)?;
    }
    Ok(())
}

// The station that puts a frame in this turn. If none has one queued, the lane is pumped.
fn transmitter(
    seg: &mut SegmentState,
    from: Address,
    to: Address,
    course: &mut Course,
) -> Result<Address, Stop>
    ensures found { IfOk result (λ a. (start : State) (d : Drive) → IsCourse None start d seg.old course.old → PutsNext from to a start d seg.new course.new) }
    ensures stopped { IfErr result (λ stop. (start : State) (d : Drive) → IsCourse None start d seg.old course.old → Went start (turn_puts from to d) seg.new course.new (Err stop)) }
{
    let queued = seg.queue_len(from);
    if queued > 0 {
        return Ok(from);
    }
    let answers = seg.queue_len(to);
    if answers > 0 {
        return Ok(to);
    }
    pump_lane(seg, from, to, course)?;
    Ok(from)
}

// A station transmits, and the first of the stations take what it puts: how many. As a rule one frame waits for each station,
// which is read once for all.
#[inline(always)]
fn put_one(seg: &mut SegmentState, station: Address, course: &mut Course) -> Result<usize, Stop>
    ensures put { IfOk result (λ n. HasPut station n seg.old course.old seg.new course.new) }
    ensures stopped { IfErr result (λ stop. (start : State) (d : Drive) → IsCourse None start d seg.old course.old → Went start (puts d station) seg.new course.new (Err stop)) }
{
    make_way(seg, station, course)?;
    if let Some(taken) = seg.put_abreast(station, course) {
        return Ok(taken);
    }
    let taken = put_apart(seg, station, course)?;
    Ok(taken)
}

// Makes room in a course for the frame that a station transmits, and for the events of one that takes it.
#[inline(always)]
fn make_way(seg: &SegmentState, station: Address, course: &mut Course) -> Result<(), Stop>
    ensures room { OnOk result (vec_len course.new.frames < vec_capacity course.new.frames) }
    ensures same { SameTold course.old course.new }
    ensures stopped { IfErr result (λ stop. IsAnswer (at_address seg.now station (transmits seg.now)) seg.now seg.now (Err stop)) }
{
    if course.has_room() && course.has_part() {
        return Ok(());
    }
    grow_course(seg, station, course)
}

// `make_way`, if there is none. Memory is taken only once the frame isn't refused.
#[inline(never)]
fn grow_course(seg: &SegmentState, station: Address, course: &mut Course) -> Result<(), Stop>
    ensures room { OnOk result (vec_len course.new.frames < vec_capacity course.new.frames) }
    ensures same { SameTold course.old course.new }
    ensures stopped { IfErr result (λ stop. IsAnswer (at_address seg.now station (transmits seg.now)) seg.now seg.now (Err stop)) }
{
    if let Some(cause) = seg.transmit_refusal(station) {
        return Err(Stop::Refused(cause));
    }
    course.frames.reserve(FRAMES_AT_ONCE)?;
    course.parts.reserve(PARTS_AT_ONCE)?;
    Ok(())
}

// A station transmits, and the stations take, one after the other: the way if they aren't level.
#[inline(never)]
fn put_apart(seg: &mut SegmentState, station: Address, course: &mut Course) -> Result<usize, Stop>
    requires { vec_len course.old.frames < vec_capacity course.old.frames }
    ensures put { IfOk result (λ n. HasPut station n seg.old course.old seg.new course.new) }
    ensures stopped { IfErr result (λ stop. (start : State) (d : Drive) → IsCourse None start d seg.old course.old → Went start (puts d station) seg.new course.new (Err stop)) }
{
    let front = seg.front(station);
    seg.transmit(station)?;
    course.put(front);
    Ok(seg.take_abreast(course))
}

// Pumps the lane, and again at its time if it is too soon.
fn pump_lane(
    seg: &mut SegmentState,
    from: Address,
    to: Address,
    course: &mut Course,
) -> Result<(), Stop>
    ensures { (start : State) (d : Drive) → IsCourse None start d seg.old course.old → Went start (pumps from to d) seg.new course.new result }
{
    one_byte(to);
    let cause = seg.pump_refusal(from, to);
    if is_too_soon(cause) {
        return pump_in_time(seg, from, to, course);
    }
    if let Some(cause) = cause {
        return Err(Stop::Refused(cause));
    }
    pump_once(seg, from, to, course)
}

// The lane is pumped after a Tick of what is missing.
fn pump_in_time(
    seg: &mut SegmentState,
    from: Address,
    to: Address,
    course: &mut Course,
) -> Result<(), Stop>
    ensures { (start : State) (d : Drive) → IsCourse None start d seg.old course.old → Went start (makes (makes d (Tick (missing_at (station_at seg.old from).lanes to.0 seg.old.now))) (Pump from to)) seg.new course.new result }
{
    let missing = seg.missing(from, to);
    let _done = seg.tick(missing)?;
    pump_once(seg, from, to, course)
}

// The lane is pumped.
fn pump_once(
    seg: &mut SegmentState,
    from: Address,
    to: Address,
    course: &mut Course,
) -> Result<(), Stop>
    ensures { (start : State) (d : Drive) → IsCourse None start d seg.old course.old → Went start (makes d (Pump from to)) seg.new course.new result }
{
    one_byte(to);
    make_pump_part(seg, from, to, course)?;
    let mut told = Events::none(course.alloc);
    seg.pump_telling(from, to, &mut told)?;
    course.note(told);
    Ok(())
}

// Makes room in a course for the event of a pump. Memory is taken only once that isn't refused.
#[inline(always)]
fn make_pump_part(
    seg: &SegmentState,
    from: Address,
    to: Address,
    course: &mut Course,
) -> Result<(), Stop>
    ensures room { OnOk result (vec_len course.new.parts < vec_capacity course.new.parts) }
    ensures same { SameTold course.old course.new }
    ensures stopped { IfErr result (λ stop. IsAnswer (at_address seg.now from (pumping seg.now to)) seg.now seg.now (Err stop)) }
{
    if course.has_part() {
        return Ok(());
    }
    if let Some(cause) = seg.pump_refusal(from, to) {
        return Err(Stop::Refused(cause));
    }
    course.parts.reserve(1)?;
    Ok(())
}

// A station takes until no frame waits for it.
fn take_all(seg: &mut SegmentState, station: Address, course: &mut Course) -> Result<(), Stop>
    ensures took { (start : State) (d : Drive) → IsCourse None start d seg.old course.old → Went start (takes_all station d) seg.new course.new result }
    ensures addresses { OnOk result (addresses_of seg.new ≡ addresses_of seg.old) }
{
    let left = seg.left(station);
    for _ in 0..left {
        take_next(seg, station, course)?;
    }
    Ok(())
}

// A station takes the next frame, with room, and its events are noted.
fn take_next(seg: &mut SegmentState, station: Address, course: &mut Course) -> Result<(), Stop>
    requires { IsFollowed seg.old }
    ensures took { (start : State) (d : Drive) → IsCourse None start d seg.old course.old → Went start (makes d (Take station true)) seg.new course.new result }
    ensures taken { OnOk result (HasTaken station seg.old seg.new) }
{
    make_part(seg, station, course)?;
    let mut told = Events::none(course.alloc);
    seg.take_telling(station, true, &mut told)?;
    course.note(told);
    Ok(())
}

// Makes room in a course for the events of a station that takes the next frame. Memory is taken only once that isn't refused.
fn make_part(seg: &SegmentState, station: Address, course: &mut Course) -> Result<(), Stop>
    ensures room { OnOk result (vec_len course.new.parts < vec_capacity course.new.parts) }
    ensures same { SameTold course.old course.new }
    ensures stopped { IfErr result (λ stop. IsAnswer (at_address seg.now station (takes seg.now true)) seg.now seg.now (Err stop)) }
{
    if course.has_part() {
        return Ok(());
    }
    if let Some(cause) = seg.take_refusal(station, true) {
        return Err(Stop::Refused(cause));
    }
    course.parts.reserve(1)?;
    Ok(())
}
