//! Frames from the bus and for the bus.
ghost use Rattle.std.specs.Prelude.{◌≡◌, Option, IsSome};
ghost use Rattle.pgn_ids.specs.declared.address.Address.{Address};
ghost use Rattle.live_calls.specs.Lowest.{IsNext};
ghost use Rattle.live_segment.specs.Turns.{state_of};
ghost use Rattle.live_calls.specs.declared.call.WorkerCall.TheVariants.{Transmit, Overrun};
ghost use Rattle.c_parts.specs.Codes.{found_code};
ghost use Rattle.c_parts.specs.Reads.{read_frame};
ghost use Rattle.fulwethi_service.specs.Codes.{reply_code};
ghost use Rattle.fulwethi_service.specs.Served.{IsServed, IsFrameFed, IsFront, IsFrontWritten, IsMissed, IsAsked};

use crate::codes::reply_code;
use crate::service_handle::ServiceHandle;
use c_parts::{CFrame, DONE, NOTHING, read_frame, show_frame};
use live_segment::{Live, Reply, WorkerCall};
use pgn_ids::Address;
use std::alloc::AllocError;

/// Feeds a frame, read from the bus, of a node that is no station of the service.
#[unsafe(no_mangle)]
pub extern "C" fn fulwethi_raw_service_feed(
    of: ServiceHandle,
    id: u32,
    bytes: &[u8],
    out: &mut ServiceHandle,
) -> u32
    requires { IsSome of.live }
    ensures { IsServed reply_code (IsFrameFed (read_frame id bytes.now)) of.live out.new.live result }
{
    let mut held = of.into_box();
    let code = reply_code(feed(&mut held, id, bytes));
    *out = ServiceHandle::of_box(held);
    code
}

fn feed(live: &mut Live, id: u32, bytes: &[u8]) -> Result<Reply, AllocError>
    ensures { IsFrameFed (read_frame id bytes.now) live.old live.new result }
{
    match read_frame(id, bytes) {
        Ok(frame) => live.apply(WorkerCall::Inject { frame }),
        Err(cause) => Ok(Reply::Refused(cause)),
    }
}

/// Frames of the bus were lost: a station misses those that wait for it too, and what is under way there ends.
#[unsafe(no_mangle)]
pub extern "C" fn fulwethi_raw_service_missed(
    of: ServiceHandle,
    station: u8,
    out: &mut ServiceHandle,
) -> u32
    requires { IsSome of.live }
    ensures { IsServed reply_code (IsMissed (record { 0 = station })) of.live out.new.live result }
{
    let mut held = of.into_box();
    let code = reply_code(missed(&mut held, Address(station)));
    *out = ServiceHandle::of_box(held);
    code
}

fn missed(live: &mut Live, station: Address) -> Result<Reply, AllocError>
    ensures { IsMissed station live.old live.new result }
{
    let waiting = live.segment().waiting(station);
    overrun(live, station, waiting)
}

fn overrun(live: &mut Live, station: Address, n: u64) -> Result<Reply, AllocError>
    ensures { IsAsked (Overrun station n) live.old live.new result }
{
    live.apply(WorkerCall::Overrun { station, n })
}

/// The frame that is next for the bus: of those that wait, that of lowest identifier, and its station.
#[unsafe(no_mangle)]
pub extern "C" fn fulwethi_raw_service_front(
    of: ServiceHandle,
    station: &mut u8,
    frame: &mut CFrame,
    out: &mut ServiceHandle,
) -> u32
    requires { IsSome of.live }
    ensures { IsServed found_code (λ before after answer. IsFront before after answer × IsFrontWritten before station.old station.new frame.old frame.new answer) of.live out.new.live result }
{
    let held = of.into_box();
    let code = front(&held, station, frame);
    *out = ServiceHandle::of_box(held);
    code
}

fn front(live: &Live, station: &mut u8, frame: &mut CFrame) -> u32
    ensures { (next : Option Address) × (result ≡ found_code next) × IsNext (state_of live.now) live.now.addresses next × IsFrontWritten live.now station.old station.new frame.old frame.new next }
{
    let Some(next) = live.lowest() else {
        return NOTHING;
    };
    let Some(shown) = live.segment().front(next) else {
        unreachable!();
    };
    *station = next.0;
    *frame = show_frame(&shown);
    DONE
}

/// The first frame of a station's queue was put on the bus.
#[unsafe(no_mangle)]
pub extern "C" fn fulwethi_raw_service_sent(
    of: ServiceHandle,
    station: u8,
    out: &mut ServiceHandle,
) -> u32
    requires { IsSome of.live }
    ensures { IsServed reply_code (IsAsked (Transmit (record { 0 = station }))) of.live out.new.live result }
{
    let mut held = of.into_box();
    let code = reply_code(held.apply(WorkerCall::Transmit {
        station: Address(station),
    }));
    *out = ServiceHandle::of_box(held);
    code
}
