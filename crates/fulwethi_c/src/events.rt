//! The events, and when something is to be done.
ghost use Rattle.std.specs.Prelude.{IsSome};
ghost use Rattle.c_parts.specs.Codes.{found_code};
ghost use Rattle.c_parts.specs.Calls.{IsMadeOn, IsTickWritten};
ghost use Rattle.fulwethi_c.specs.Codes.{taken_code};
ghost use Rattle.fulwethi_c.specs.Calls.{IsNextEvent, IsEventWritten, IsTakenInto, IsDueNext, IsNextTick};

use crate::codes::taken_code;
use crate::handle::Handle;
use crate::shown::{CEvent, write_event};
use c_parts::{Parts, write_tick};

/// Shows the next event, which stays.
#[unsafe(no_mangle)]
pub extern "C" fn fulwethi_raw_event(of: Handle, event: &mut CEvent, out: &mut Handle) -> u32
    requires { IsSome of.node }
    ensures { IsMadeOn found_code (λ before after answer. IsNextEvent before after answer × IsEventWritten event.old event.new answer) of.node out.new.node result }
{
    let held = of.into_parts().into_box();
    let code = write_event(&held, event);
    *out = Handle::of_parts(Parts::of(held));
    code
}

/// Takes the next event, and writes its bytes to the front of the room.
#[unsafe(no_mangle)]
pub extern "C" fn fulwethi_raw_take(of: Handle, room: &mut [u8], out: &mut Handle) -> u32
    requires { IsSome of.node }
    ensures { IsMadeOn taken_code (IsTakenInto room.old room.new) of.node out.new.node result }
{
    let mut held = of.into_parts().into_box();
    let code = taken_code(held.take_bytes(room));
    *out = Handle::of_parts(Parts::of(held));
    code
}

/// Writes the tick at which the next timer is due.
#[unsafe(no_mangle)]
pub extern "C" fn fulwethi_raw_next_due_at(of: Handle, tick: &mut u64, out: &mut Handle) -> u32
    requires { IsSome of.node }
    ensures { IsMadeOn found_code (λ before after answer. IsDueNext before after answer × IsTickWritten tick.old tick.new answer) of.node out.new.node result }
{
    let held = of.into_parts().into_box();
    let code = write_tick(held.next_due_at(), tick);
    *out = Handle::of_parts(Parts::of(held));
    code
}

/// Writes the first tick, from that of its clock on, at which the node has something to do by itself.
#[unsafe(no_mangle)]
pub extern "C" fn fulwethi_raw_next_at(of: Handle, tick: &mut u64, out: &mut Handle) -> u32
    requires { IsSome of.node }
    ensures { IsMadeOn found_code (λ before after answer. IsNextTick before after answer × IsTickWritten tick.old tick.new answer) of.node out.new.node result }
{
    let held = of.into_parts().into_box();
    let code = write_tick(held.next_at(), tick);
    *out = Handle::of_parts(Parts::of(held));
    code
}
