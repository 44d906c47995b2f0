//! The inner bus of a node, which has room for the one frame that is on it beside the one that was looked at last.
ghost use Rattle.std.specs.Prelude.{◌≡◌, ◌<◌, Bool, true, IsOk, OnOk, OnErr};
ghost use Rattle.segment_law.specs.Calls.{called};
ghost use Rattle.segment_law.specs.declared.call.Call.TheVariants.{Take};
ghost use Rattle.segment_state.specs.Memory.{MayAskMemory};
ghost use Rattle.one_station.specs.Looks.{comes_on_bus, Tells, Puts, IsPut, PassesBy, HasLooked};

use crate::error::Fed;
use crate::node::make_room;
use node_parts::{Taker, Told};
use pgn_ids::Address;
use segment_core::{Call, Events, Made, Refusal, Reply, Segment};
use std::alloc::{AllocError, Global};

/// A frame is put on the bus, which has room for it: that of another node, or the first of the station's queue. Or the call is
/// refused, and nothing changes.
#[inline(always)]
pub(crate) fn put(segment: &mut Segment, call: Call) -> Result<(), Refusal>
    requires comes { comes_on_bus call ≡ true }
    requires room { MayAskMemory segment.old call → ⊥ }
    ensures { IsPut segment.old call segment.new result }
{
    match segment.apply(call) {
        Ok(Reply::Done(_)) => Ok(()),
        Ok(Reply::Refused(cause)) => Err(cause),
        Ok(Reply::Opened(_)) => unreachable!(),
        Ok(Reply::Sent(_)) => unreachable!(),
        Err(_) => unreachable!(),
    }
}

/// The station passes the next frame by, since it doesn't look at it. Room makes no difference then, and without room no memory is
/// asked for.
#[inline(always)]
pub(crate) fn pass(segment: &mut Segment, station: Address)
    requires { PassesBy segment.old station }
    ensures { Puts segment.old (Take station true) segment.new }
{
    match segment.apply(Call::Take {
        station,
        room: false,
    }) {
        Ok(_) => {}
        Err(_) => unreachable!(),
    }
}

/// The station with this address, which takes the next frame of its inner bus.
#[derive(Drop)]
struct Looker {
    alloc: Global,
    station: Address,
}

impl Taker for Looker {
    type Bus = Segment;

    ghost may_take = { λ l segment. (room : Bool) → IsOk (called segment (Take l.station room)) };

    ghost takes = { λ l room before waiting after left. Tells before waiting (Take l.station room) after left };

    #[inline(always)]
    fn take_with_room(&self, segment: &mut Segment, told: &mut Told) -> bool {
        let take = Call::Take {
            station: self.station,
            room: true,
        };
        match make_room(segment, told, &take) {
            Ok(()) => {}
            Err(_) => return false,
        }
        match tell(self.alloc, segment, told, self.station, true) {
            Ok(()) => true,
            Err(_) => false,
        }
    }

    #[inline(never)]
    fn take_without_room(&self, segment: &mut Segment, told: &mut Told) {
        match tell(self.alloc, segment, told, self.station, false) {
            Ok(()) => {}
            Err(_) => unreachable!(),
        }
    }
}

/// The station takes the next frame: with room, if that is to be tried and finds memory, or without.
#[inline(always)]
pub(crate) fn look(
    alloc: Global,
    segment: &mut Segment,
    told: &mut Told,
    station: Address,
    room: bool,
) -> Fed
    requires passes { (room : Bool) → IsOk (called segment.old (Take station room)) }
    requires place { 0 < told.old.free }
    ensures { HasLooked segment.old told.old.events station segment.new told.new.events result }
{
    let looker = Looker { alloc, station };
    if node_parts::look(&looker, segment, told, room) {
        return Fed::Taken;
    }
    Fed::WithoutRoom
}

// It takes it with room or without, which isn't refused. There is a place for the events.
#[inline(always)]
fn tell(
    alloc: Global,
    segment: &mut Segment,
    told: &mut Told,
    station: Address,
    room: bool,
) -> Result<(), AllocError>
    requires passes { IsOk (called segment.old (Take station room)) }
    requires place { 0 < told.old.free }
    ensures done { OnOk result (Tells segment.old told.old.events (Take station room) segment.new told.new.events) }
    ensures memory { OnErr result (MayAskMemory segment.old (Take station room)) }
    ensures other { OnErr result (segment.new ≡ segment.old) }
    ensures untold { OnErr result (told.new ≡ told.old) }
{
    let mut events = Events::none(alloc);
    match segment.apply_telling(Call::Take { station, room }, &mut events) {
        Ok(Made::Done) => {
            if !events.is_empty() {
                told.keep(events);
            }
            Ok(())
        }
        Ok(_) => Ok(()),
        Err(error) => Err(error),
    }
}
