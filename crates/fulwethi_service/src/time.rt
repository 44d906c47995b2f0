//! The clock, in ticks of 1 ms.
ghost use Rattle.std.specs.Prelude.{IsSome};
ghost use Rattle.c_parts.specs.Codes.{found_code};
ghost use Rattle.c_parts.specs.Calls.{IsTickWritten};
ghost use Rattle.fulwethi_service.specs.Codes.{clock_code};
ghost use Rattle.fulwethi_service.specs.Served.{IsServed, IsClocked, IsDueNext, IsNextTick};

use crate::codes::clock_code;
use crate::service_handle::ServiceHandle;
use c_parts::write_tick;
use live_segment::{Live, Reply, WorkerCall};
use std::alloc::AllocError;

/// Advances the clock to a tick.
#[unsafe(no_mangle)]
pub extern "C" fn fulwethi_raw_service_clock(
    of: ServiceHandle,
    tick: u64,
    out: &mut ServiceHandle,
) -> u32
    requires { IsSome of.live }
    ensures { IsServed clock_code (IsClocked tick) of.live out.new.live result }
{
    let mut held = of.into_box();
    let code = clock_code(clock(&mut held, tick));
    *out = ServiceHandle::of_box(held);
    code
}

fn clock(live: &mut Live, tick: u64) -> Option<Result<Reply, AllocError>>
    ensures { IsClocked tick live.old live.new result }
{
    let now = live.segment().now();
    if tick < now {
        return None;
    }
    Some(live.apply(WorkerCall::Tick { n: tick - now }))
}

/// Writes the tick at which the next timer is due.
#[unsafe(no_mangle)]
pub extern "C" fn fulwethi_raw_service_next_due_at(
    of: ServiceHandle,
    tick: &mut u64,
    out: &mut ServiceHandle,
) -> u32
    requires { IsSome of.live }
    ensures { IsServed found_code (λ before after answer. IsDueNext before after answer × IsTickWritten tick.old tick.new answer) of.live out.new.live result }
{
    let held = of.into_box();
    let code = write_tick(held.segment().next_due_at(), tick);
    *out = ServiceHandle::of_box(held);
    code
}

/// Writes the first tick, from that of its clock on, at which a station has something to do by itself.
#[unsafe(no_mangle)]
pub extern "C" fn fulwethi_raw_service_next_at(
    of: ServiceHandle,
    tick: &mut u64,
    out: &mut ServiceHandle,
) -> u32
    requires { IsSome of.live }
    ensures { IsServed found_code (λ before after answer. IsNextTick before after answer × IsTickWritten tick.old tick.new answer) of.live out.new.live result }
{
    let held = of.into_box();
    let code = write_tick(held.segment().next_at(), tick);
    *out = ServiceHandle::of_box(held);
    code
}
