//! Clients are detached by their numbers, and ports are closed by theirs.
ghost use Rattle.std.specs.Prelude.{◌≡◌, IsSome};
ghost use Rattle.c_parts.specs.Codes.{value_code};
ghost use Rattle.c_parts.specs.Calls.{IsMadeOn};
ghost use Rattle.fulwethi_service.specs.Codes.{not_made_code};
ghost use Rattle.fulwethi_service.specs.Served.{IsServed};
ghost use Rattle.fulwethi_service.specs.Detached.{detached_code, IsDetached, IsPortClosed, IsNumbered, number_of};

use crate::client_handle::ClientHandle;
use crate::codes::made_code;
use crate::desk::Desk;
use crate::service_handle::ServiceHandle;
use c_parts::DONE;
use live_segment::{Live, NotDetached, NotMade, PortId};
use pgn_ids::Address;

/// No client has this number.
const NO_SUCH_CLIENT: u32 = 73;

/// The client was detached.
const CLIENT_GONE: u32 = 74;

/// Writes the number of a client.
#[unsafe(no_mangle)]
pub extern "C" fn fulwethi_raw_client_number(
    of: ClientHandle,
    number: &mut u64,
    out: &mut ClientHandle,
) -> u32
    requires { IsSome of.desk }
    ensures { IsMadeOn (λ _. 0) (IsNumbered number.new) of.desk out.new.desk result }
{
    let held = of.into_box();
    *number = number_in(&held);
    *out = ClientHandle::of_box(held);
    DONE
}

fn number_in(desk: &Desk) -> u64
    ensures { result ≡ number_of desk.now.client }
{
    match &desk.client {
        Some(client) => client.id(),
        None => 0,
    }
}

/// Detaches the client of this number: its place at its station is free again.
#[unsafe(no_mangle)]
pub extern "C" fn fulwethi_raw_service_detach(
    of: ServiceHandle,
    client: u64,
    out: &mut ServiceHandle,
) -> u32
    requires { IsSome of.live }
    ensures { IsServed detached_code (IsDetached client) of.live out.new.live result }
{
    let mut held = of.into_box();
    let code = detached_code(detach(&mut held, client));
    *out = ServiceHandle::of_box(held);
    code
}

fn detached_code(detached: Result<(), NotDetached>) -> u32
    ensures { result ≡ detached_code detached }
{
    match detached {
        Ok(()) => DONE,
        Err(NotDetached::NoSuchClient) => NO_SUCH_CLIENT,
        Err(NotDetached::Gone) => CLIENT_GONE,
    }
}

fn detach(live: &mut Live, client: u64) -> Result<(), NotDetached>
    ensures { IsDetached client live.old live.new result }
{
    live.detach(client)
}

/// Closes a port of a station, without its inbox.
#[unsafe(no_mangle)]
pub extern "C" fn fulwethi_raw_service_close_port(
    of: ServiceHandle,
    station: u8,
    port: u64,
    out: &mut ServiceHandle,
) -> u32
    requires { IsSome of.live }
    ensures { IsServed (value_code not_made_code) (IsPortClosed (record { station = record { 0 = station }; number = port })) of.live out.new.live result }
{
    let mut held = of.into_box();
    let code = made_code(close_port(
        &mut held,
        PortId {
            station: Address(station),
            number: port,
        },
    ));
    *out = ServiceHandle::of_box(held);
    code
}

fn close_port(live: &mut Live, port: PortId) -> Result<(), NotMade>
    ensures { IsPortClosed port live.old live.new result }
{
    live.close_port(port)
}
