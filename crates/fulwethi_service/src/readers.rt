//! What a service counted.
ghost use Rattle.std.specs.Prelude.{IsSome};
ghost use Rattle.live_segment.specs.Turns.{state_of};
ghost use Rattle.c_parts.specs.Calls.{IsRead};
ghost use Rattle.c_parts.specs.Shown.{shown_counts};
ghost use Rattle.fulwethi_service.specs.Served.{IsServed};

use crate::service_handle::ServiceHandle;
use c_parts::{CCounts, DONE, show_counts};

/// Writes what the stations counted together.
#[unsafe(no_mangle)]
pub extern "C" fn fulwethi_raw_service_counts(
    of: ServiceHandle,
    counts: &mut CCounts,
    out: &mut ServiceHandle,
) -> u32
    requires { IsSome of.live }
    ensures { IsServed (λ _. 0) (IsRead (λ live. shown_counts (state_of live).counts) counts.new) of.live out.new.live result }
{
    let held = of.into_box();
    *counts = show_counts(&held.counts());
    *out = ServiceHandle::of_box(held);
    DONE
}
