//! The pause of a port.
ghost use Rattle.std.specs.Prelude.{IsSome};
ghost use Rattle.live_calls.specs.declared.call.WorkerCall.TheVariants.{Pause, Resume};
ghost use Rattle.fulwethi_service.specs.Codes.{reply_code};
ghost use Rattle.fulwethi_service.specs.Served.{IsServed, IsAsked};

use crate::codes::reply_code;
use crate::service_handle::ServiceHandle;
use live_segment::{PortId, WorkerCall};
use pgn_ids::Address;

/// Pauses a port of a station.
#[unsafe(no_mangle)]
pub extern "C" fn fulwethi_raw_service_pause(
    of: ServiceHandle,
    station: u8,
    port: u64,
    out: &mut ServiceHandle,
) -> u32
    requires { IsSome of.live }
    ensures { IsServed reply_code (IsAsked (Pause (record { station = record { 0 = station }; number = port }))) of.live out.new.live result }
{
    let mut held = of.into_box();
    let code = reply_code(held.apply(WorkerCall::Pause {
        port: PortId {
            station: Address(station),
            number: port,
        },
    }));
    *out = ServiceHandle::of_box(held);
    code
}

/// Ends the pause of a port of a station.
#[unsafe(no_mangle)]
pub extern "C" fn fulwethi_raw_service_resume(
    of: ServiceHandle,
    station: u8,
    port: u64,
    out: &mut ServiceHandle,
) -> u32
    requires { IsSome of.live }
    ensures { IsServed reply_code (IsAsked (Resume (record { station = record { 0 = station }; number = port }))) of.live out.new.live result }
{
    let mut held = of.into_box();
    let code = reply_code(held.apply(WorkerCall::Resume {
        port: PortId {
            station: Address(station),
            number: port,
        },
    }));
    *out = ServiceHandle::of_box(held);
    code
}
