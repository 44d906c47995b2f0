//! A service is made, and ends.
ghost use Rattle.std.specs.Prelude.{◌≡◌, ◌≤◌, ◌++◌, IsSome, length, drop};
ghost use Rattle.c_parts.specs.Codes.{value_code};
ghost use Rattle.c_parts.specs.Calls.{IsCoded};
ghost use Rattle.fulwethi_service.specs.Codes.{not_made_code};
ghost use Rattle.fulwethi_service.specs.Reads.{addresses_of};
ghost use Rattle.fulwethi_service.specs.Made.{IsMade};

use crate::codes::made_code;
use crate::service_handle::ServiceHandle;
use live_segment::{Live, NotMade, Refusal};
use pgn_ids::Address;
use std::alloc::Global;

/// How many stations a service has at most.
const MOST_STATIONS: usize = 32;

/// Makes a service with stations of these addresses; `out` must own nothing.
#[unsafe(no_mangle)]
pub extern "C" fn fulwethi_raw_service_new(
    alloc: Global,
    addresses: &[u8],
    out: &mut ServiceHandle,
) -> u32
    ensures { IsCoded (value_code not_made_code) (IsMade (addresses_of addresses.now) out.old.live out.new.live) result }
{
    made_code(make(alloc, addresses, out))
}

fn make(alloc: Global, addresses: &[u8], out: &mut ServiceHandle) -> Result<(), NotMade>
    ensures { IsMade (addresses_of addresses.now) out.old.live out.new.live result }
{
    let count = addresses.len();
    if count > MOST_STATIONS {
        return Err(NotMade::Refused(Refusal::BadAddresses));
    }
    let mut stations = [Address(0); MOST_STATIONS];
    read_addresses(addresses, &mut stations[..count]);
    let live = Live::new(alloc, &stations[..count])?;
    let Ok(held) = Box::new(alloc, live) else {
        return Err(NotMade::OutOfMemory);
    };
    *out = ServiceHandle::of_box(held);
    Ok(())
}

// The addresses, without memory of their own.
#[tactic(auto, using(crate::proofs::Addresses::one_more))]
fn read_addresses(addresses: &[u8], stations: &mut [Address])
    requires { length addresses.now ≡ length stations.old }
    ensures { stations.new ≡ addresses_of addresses.now }
{
    for k in 0..addresses.len() {
        stations[k] = Address(addresses[k]);
    }
}

/// Frees a service. Its clients and inboxes stay, but get nothing more.
#[unsafe(no_mangle)]
pub extern "C" fn fulwethi_raw_service_free(of: ServiceHandle)
    requires { IsSome of.live }
{
    drop(of.into_box());
}
