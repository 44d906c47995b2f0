//! Whether clients and inboxes had what the record of a service says.
ghost use Rattle.std.specs.Prelude.{◌≡◌, IsSome};
ghost use Rattle.fulwethi_service.specs.Served.{IsServed};
ghost use Rattle.fulwethi_service.specs.Compared.{agrees_code, IsClientCompared, IsInboxCompared, IsCompared};

use crate::client_handle::ClientHandle;
use crate::desk::Desk;
use crate::inbox_handle::InboxHandle;
use crate::post::Post;
use crate::service_handle::ServiceHandle;
use c_parts::{DONE, cause_code};
use live_segment::{Live, Refusal, client_agrees, inbox_agrees};

/// Whether a client is the service's, and submitted and read what the record says.
#[unsafe(no_mangle)]
pub extern "C" fn fulwethi_raw_service_compare_client(
    of: ServiceHandle,
    client: ClientHandle,
    out: &mut ServiceHandle,
    client_out: &mut ClientHandle,
) -> u32
    requires service { IsSome of.live }
    requires client { IsSome client.desk }
    ensures { IsServed agrees_code (IsCompared IsClientCompared client.desk client_out.new.desk) of.live out.new.live result }
{
    let held = of.into_box();
    let desk = client.into_box();
    let code = agrees_code(compare_desk(&held, &desk));
    *out = ServiceHandle::of_box(held);
    *client_out = ClientHandle::of_box(desk);
    code
}

/// Whether an inbox is the service's, and received what the record says.
#[unsafe(no_mangle)]
pub extern "C" fn fulwethi_raw_service_compare_inbox(
    of: ServiceHandle,
    inbox: InboxHandle,
    out: &mut ServiceHandle,
    inbox_out: &mut InboxHandle,
) -> u32
    requires service { IsSome of.live }
    requires inbox { IsSome inbox.post }
    ensures { IsServed agrees_code (IsCompared IsInboxCompared inbox.post inbox_out.new.post) of.live out.new.live result }
{
    let held = of.into_box();
    let post = inbox.into_box();
    let code = agrees_code(compare_post(&held, &post));
    *out = ServiceHandle::of_box(held);
    *inbox_out = InboxHandle::of_box(post);
    code
}

fn agrees_code(agrees: bool) -> u32
    ensures { result ≡ agrees_code agrees }
{
    if agrees {
        return DONE;
    }
    cause_code(Refusal::NotThisSegment)
}

fn compare_desk(live: &Live, desk: &Desk) -> bool
    ensures { IsClientCompared live.now desk.now result }
{
    let Some(client) = &desk.client else {
        return false;
    };
    client_agrees(live, client)
}

fn compare_post(live: &Live, post: &Post) -> bool
    ensures { IsInboxCompared live.now post.now result }
{
    let Some(inbox) = &post.inbox else {
        return false;
    };
    inbox_agrees(live, inbox)
}
