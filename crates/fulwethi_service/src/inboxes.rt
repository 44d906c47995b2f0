//! Inboxes, each for one thread of an application at a time.
ghost use Rattle.std.specs.Prelude.{◌≡◌, ◌≢◌, ◌≤◌, ◌<◌, ◌⊎◌, ◌++◌, length, drop, Some, None, IsSome};
ghost use Rattle.c_parts.specs.Calls.{IsMadeOn};
ghost use Rattle.fulwethi_service.specs.declared.inboxes.Received.TheVariants as received;
ghost use Rattle.fulwethi_service.specs.Codes.{received_code};
ghost use Rattle.fulwethi_service.specs.Shown.{shown_delivery};
ghost use Rattle.fulwethi_service.specs.Inboxes.{IsReceived};

use crate::inbox_handle::InboxHandle;
use crate::post::Post;
use crate::shown::{CMessage, show_delivery};
use c_parts::{DONE, NO_MEMORY, NOTHING, TOO_LITTLE_ROOM};
use live_segment::Delivery;

/// There is no message, and none will come.
const CLOSED: u32 = 75;

/// What became of a call to receive.
#[derive(Clone, Copy)]
pub enum Received {
    /// A message was copied out.
    Taken,
    /// There is no message.
    Nothing,
    /// There is no message, and the port is closed: none will come.
    Closed,
    /// The message has more bytes than there is room for, and stays.
    TooLittleRoom,
    /// There was no memory, and it stays.
    OutOfMemory,
}

/// Receives the next message, and copies its bytes to the front of the room. If they are too many, `message` has their number, and the
/// message stays.
#[unsafe(no_mangle)]
pub extern "C" fn fulwethi_raw_inbox_receive(
    of: InboxHandle,
    room: &mut [u8],
    message: &mut CMessage,
    out: &mut InboxHandle,
) -> u32
    requires { IsSome of.post }
    ensures { IsMadeOn received_code (IsReceived room.old room.new message.old message.new) of.post out.new.post result }
{
    let mut held = of.into_box();
    let code = received_code(receive(&mut held, room, message));
    *out = InboxHandle::of_box(held);
    code
}

fn received_code(received: Received) -> u32
    ensures { result ≡ received_code received }
{
    match received {
        Received::Taken => DONE,
        Received::Nothing => NOTHING,
        Received::Closed => CLOSED,
        Received::TooLittleRoom => TOO_LITTLE_ROOM,
        Received::OutOfMemory => NO_MEMORY,
    }
}

fn receive(post: &mut Post, room: &mut [u8], message: &mut CMessage) -> Received
    ensures { IsReceived room.old room.new message.old message.new post.old post.new result }
{
    if let Some(delivery) = post.held.take() {
        return copy_out(&mut post.held, delivery, room, message);
    }
    if !post.rest.is_empty() {
        let Some(delivery) = post.rest.pop_front() else {
            unreachable!();
        };
        return copy_out(&mut post.held, delivery, room, message);
    }
    let Some(inbox) = &mut post.inbox else {
        return Received::Nothing;
    };
    // Whether the port was closed is looked at first: nothing comes into the ring afterwards.
    let is_shut = inbox.is_shut() && !inbox.is_closed();
    match inbox.try_receive() {
        Ok(Some(delivery)) => copy_out(&mut post.held, delivery, room, message),
        Ok(None) => nothing(is_shut),
        Err(_) => Received::OutOfMemory,
    }
}

// No message is there; none will come if the port is known to be closed.
fn nothing(is_shut: bool) -> Received
    ensures { (result ≡ received.Nothing) ⊎ (result ≡ received.Closed) }
{
    if is_shut {
        return Received::Closed;
    }
    Received::Nothing
}

// Copies a delivery out, or holds it.
fn copy_out(
    held: &mut Option<Delivery>,
    delivery: Delivery,
    room: &mut [u8],
    message: &mut CMessage,
) -> Received
    requires { held.old ≡ None }
    ensures message { message.new ≡ shown_delivery delivery }
    ensures taken { result ≡ received.Taken → (held.new ≡ None) × (length delivery.bytes ≤ length room.old) × (room.new ≡ delivery.bytes ++ drop (length delivery.bytes) room.old) }
    ensures kept { result ≢ received.Taken → (result ≡ received.TooLittleRoom) × (held.new ≡ Some delivery) × (length room.old < length delivery.bytes) × (room.new ≡ room.old) }
{
    *message = show_delivery(&delivery);
    let len = delivery.bytes.len();
    if room.len() < len {
        *held = Some(delivery);
        return Received::TooLittleRoom;
    }
    room[..len].copy_from_slice(delivery.bytes.as_slice());
    Received::Taken
}

/// Frees an inbox, with what was not received.
#[unsafe(no_mangle)]
pub extern "C" fn fulwethi_raw_inbox_free(of: InboxHandle)
    requires { IsSome of.post }
{
    drop(of.into_box());
}
