//! The turns of the stations.
ghost use Rattle.std.specs.Prelude.{◌≡◌, IsSome, IfOk, IfErr, length, slice_get};
ghost use Rattle.live_segment.specs.Rejoining.{IsCutCause};
ghost use Rattle.c_parts.specs.Codes.{value_code};
ghost use Rattle.fulwethi_service.specs.Codes.{not_made_code};
ghost use Rattle.fulwethi_service.specs.Served.{IsServed};
ghost use Rattle.fulwethi_service.specs.Turned.{IsTurned, IsRound, TurnsBelow, TurnAt};

use crate::codes::made_code;
use crate::service_handle::ServiceHandle;
use live_segment::{CUT_AT, Live, NotMade};
use pgn_ids::Address;

/// A turn of each station, again until none made a call, at most so often; `made` is how many calls were made.
#[unsafe(no_mangle)]
pub extern "C" fn fulwethi_raw_service_turn(
    of: ServiceHandle,
    most: u32,
    made: &mut u64,
    out: &mut ServiceHandle,
) -> u32
    requires { IsSome of.live }
    ensures { IsServed (value_code not_made_code) (IsTurned most made.new) of.live out.new.live result }
{
    let mut held = of.into_box();
    let code = made_code(turn_all(&mut held, most, made));
    *out = ServiceHandle::of_box(held);
    code
}

fn turn_all(live: &mut Live, most: u32, made: &mut u64) -> Result<(), NotMade>
    ensures { IsTurned most made.new live.old live.new result }
{
    *made = 0;
    for at in 0..most {
        let calls = round(live)?;
        *made = made.saturating_add(calls);
        if calls == 0 {
            break;
        }
    }
    Ok(())
}

// A turn of each station, after a cut if the record is nearly full. The piece that is cut off is let go: C reads no record.
fn round(live: &mut Live) -> Result<u64, NotMade>
    ensures done { IfOk result (λ calls. IsRound live.old live.new calls) }
    ensures cause { IfErr result (λ e. (live.new ≡ live.old) × IsCutCause live.new e) }
{
    if live.calls().len() >= CUT_AT {
        let _piece = live.cut()?;
    }
    Ok(turn_each(live))
}

// A turn of each station, and how many calls it made.
fn turn_each(live: &mut Live) -> u64
    ensures { TurnsBelow (length live.old.addresses) live.old live.new result }
{
    let mut calls = 0u64;
    let count = live.addresses().len();
    for k in 0..count {
        calls = calls.saturating_add(turn_at(live, k));
    }
    calls
}

// A turn of the station at this place.
fn turn_at(live: &mut Live, k: usize) -> u64
    ensures { TurnAt k live.old live.new result }
{
    let Some(station) = station_at(live, k) else {
        return 0;
    };
    live.station_turn(station).calls
}

fn station_at(live: &Live, k: usize) -> Option<Address>
    ensures { result ≡ slice_get live.now.addresses k }
{
    live.addresses().get(k).copied()
}
