//! The ends of rings that go to applications: clients, and the inboxes of ports.
ghost use Rattle.std.specs.Prelude.{◌≡◌, ℕ, Some, IsSome, MatchOption};
ghost use Rattle.live_segment.specs.LiveView.{IsOpenCause};
ghost use Rattle.live_segment.specs.declared.refused.NotMade.TheVariants.{OutOfMemory};
ghost use Rattle.c_parts.specs.Codes.{value_code};
ghost use Rattle.c_parts.specs.Reads.{read_pgn};
ghost use Rattle.fulwethi_service.specs.declared.post.Post.{Post};
ghost use Rattle.fulwethi_service.specs.Codes.{not_made_code};
ghost use Rattle.fulwethi_service.specs.Served.{IsServed};
ghost use Rattle.fulwethi_service.specs.Ends.{IsAttached, IsOpened, IsOpenedAt, IsOpenedIn, opened_code, IsClosed};
ghost use Rattle.segment_rings.specs.Ends.{ring_places};

use crate::client_handle::ClientHandle;
use crate::codes::made_code;
use crate::desk::Desk;
use crate::inbox_handle::InboxHandle;
use crate::post::Post;
use crate::service_handle::ServiceHandle;
use c_parts::read_pgn;
use live_segment::{Live, MOST_CALLS, NotMade, Places, Refusal};
use pgn_ids::{Address, Pgn};
use std::alloc::Global;
use std::collections::VecDeque;

/// An inbox can't have so many places.
const BAD_PLACES: u32 = 76;

/// A new client of a station; `client` must own nothing.
#[unsafe(no_mangle)]
pub extern "C" fn fulwethi_raw_service_attach(
    of: ServiceHandle,
    alloc: Global,
    station: u8,
    client: &mut ClientHandle,
    out: &mut ServiceHandle,
) -> u32
    requires { IsSome of.live }
    ensures { IsServed (value_code not_made_code) (IsAttached (record { 0 = station }) client.old.desk client.new.desk) of.live out.new.live result }
{
    let mut held = of.into_box();
    let code = made_code(attach(alloc, &mut held, Address(station), client));
    *out = ServiceHandle::of_box(held);
    code
}

// The place of the client is made before the station has it, so that nothing is left of a client without one.
fn attach(
    alloc: Global,
    live: &mut Live,
    station: Address,
    client: &mut ClientHandle,
) -> Result<(), NotMade>
    ensures { IsAttached station client.old.desk client.new.desk live.old live.new result }
{
    if let Some(cause) = live.attach_refusal(station) {
        return Err(NotMade::Refused(cause));
    }
    let Ok(mut held) = Box::new(alloc, Desk { client: None }) else {
        return Err(NotMade::OutOfMemory);
    };
    let made = live.attach(station)?;
    held.client = Some(made);
    *client = ClientHandle::of_box(held);
    Ok(())
}

/// Opens a port of a station, and writes its number; `inbox` must own nothing, and has its inbox then.
#[unsafe(no_mangle)]
pub extern "C" fn fulwethi_raw_service_open(
    of: ServiceHandle,
    alloc: Global,
    station: u8,
    pgn: u32,
    max_len: u32,
    port: &mut u64,
    inbox: &mut InboxHandle,
    out: &mut ServiceHandle,
) -> u32
    requires { IsSome of.live }
    ensures { IsServed (value_code not_made_code) (IsOpened (record { 0 = station }) (read_pgn pgn) max_len ring_places port.old port.new inbox.old.post inbox.new.post) of.live out.new.live result }
{
    let mut held = of.into_box();
    let code = made_code(open(
        alloc,
        &mut held,
        Address(station),
        pgn,
        max_len,
        Places::usual(),
        port,
        inbox,
    ));
    *out = ServiceHandle::of_box(held);
    code
}

/// The same with an inbox that has so many places, 1 to 65,536.
#[unsafe(no_mangle)]
pub extern "C" fn fulwethi_raw_service_open_with(
    of: ServiceHandle,
    alloc: Global,
    station: u8,
    pgn: u32,
    max_len: u32,
    places: u32,
    port: &mut u64,
    inbox: &mut InboxHandle,
    out: &mut ServiceHandle,
) -> u32
    requires { IsSome of.live }
    ensures { IsServed opened_code (IsOpenedIn places (record { 0 = station }) (read_pgn pgn) max_len port.old port.new inbox.old.post inbox.new.post) of.live out.new.live result }
{
    let mut held = of.into_box();
    let code = opened_code(open_in(
        alloc,
        &mut held,
        places,
        Address(station),
        pgn,
        max_len,
        port,
        inbox,
    ));
    *out = ServiceHandle::of_box(held);
    code
}

fn opened_code(opened: Option<Result<(), NotMade>>) -> u32
    ensures { result ≡ opened_code opened }
{
    match opened {
        Some(made) => made_code(made),
        None => BAD_PLACES,
    }
}

// None: an inbox can't have so many places.
fn open_in(
    alloc: Global,
    live: &mut Live,
    places: u32,
    station: Address,
    pgn: u32,
    max_len: u32,
    port: &mut u64,
    inbox: &mut InboxHandle,
) -> Option<Result<(), NotMade>>
    ensures { IsOpenedIn places station (read_pgn pgn) max_len port.old port.new inbox.old.post inbox.new.post live.old live.new result }
{
    let Some(places) = Places::new(places as usize) else {
        return None;
    };
    Some(open(alloc, live, station, pgn, max_len, places, port, inbox))
}

fn open(
    alloc: Global,
    live: &mut Live,
    station: Address,
    pgn: u32,
    max_len: u32,
    places: Places,
    port: &mut u64,
    inbox: &mut InboxHandle,
) -> Result<(), NotMade>
    ensures { IsOpened station (read_pgn pgn) max_len places port.old port.new inbox.old.post inbox.new.post live.old live.new result }
{
    match read_pgn(pgn) {
        Ok(pgn) => open_at(alloc, live, station, pgn, max_len, places, port, inbox),
        Err(cause) => Err(NotMade::Refused(cause)),
    }
}

// The place of the inbox is made before the port is opened, so that nothing is left of a port without one.
fn open_at(
    alloc: Global,
    live: &mut Live,
    station: Address,
    pgn: Pgn,
    max_len: u32,
    places: Places,
    port: &mut u64,
    inbox: &mut InboxHandle,
) -> Result<(), NotMade>
    ensures { IsOpenedAt station pgn max_len places port.old port.new inbox.old.post inbox.new.post live.old live.new result }
{
    if let Some(cause) = open_cause(live, station) {
        return Err(cause);
    }
    let post = Post {
        inbox: None,
        held: None,
        rest: VecDeque::new(alloc),
    };
    let Ok(mut held) = Box::new(alloc, post) else {
        return Err(NotMade::OutOfMemory);
    };
    let opened = live.open_port_with(station, pgn, max_len, places)?;
    *port = opened.port().number;
    held.inbox = Some(opened);
    *inbox = InboxHandle::of_box(held);
    Ok(())
}

// Why a port isn't opened, except for want of memory.
fn open_cause(live: &Live, station: Address) -> Option<NotMade>
    ensures { MatchOption result ((pgn max_len : ℕ) → IsOpenCause live.now station pgn max_len OutOfMemory) (λ e. (pgn max_len : ℕ) → IsOpenCause live.now station pgn max_len e) }
{
    match live.segment().open_refusal(station) {
        Some(refusal) => return Some(NotMade::Refused(refusal)),
        None => {}
    }
    if live.calls().len() >= MOST_CALLS {
        return Some(NotMade::Refused(Refusal::TraceFull));
    }
    None
}

/// Closes the port of an inbox, which has what was not received yet.
#[unsafe(no_mangle)]
pub extern "C" fn fulwethi_raw_service_close(
    of: ServiceHandle,
    inbox: InboxHandle,
    out: &mut ServiceHandle,
    inbox_out: &mut InboxHandle,
) -> u32
    requires service { IsSome of.live }
    requires inbox { IsSome inbox.post }
    ensures { IsServed (value_code not_made_code) (λ before after answer. (p : Post) × (q : Post) × (inbox.post ≡ Some p) × (inbox_out.new.post ≡ Some q) × IsClosed p q before after answer) of.live out.new.live result }
{
    let mut held = of.into_box();
    let mut post = inbox.into_box();
    let code = made_code(close(&mut held, &mut post));
    *out = ServiceHandle::of_box(held);
    *inbox_out = InboxHandle::of_box(post);
    code
}

fn close(live: &mut Live, post: &mut Post) -> Result<(), NotMade>
    ensures { IsClosed post.old post.new live.old live.new result }
{
    let Some(inbox) = &mut post.inbox else {
        return Err(NotMade::Refused(Refusal::NotThisSegment));
    };
    match live.close_on(inbox) {
        Ok(closed) => {
            post.rest = VecDeque::from(closed.rest);
            Ok(())
        }
        Err(refused) => Err(refused),
    }
}
