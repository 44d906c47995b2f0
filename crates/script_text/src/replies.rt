//! Replies, and the frames and events below them.
ghost use Rattle.std.specs.Prelude.{◌≡◌, ◌++◌, OnOk, codes};
ghost use Rattle.script_text.specs.Parts.{line, port_text};
ghost use Rattle.script_text.specs.Replies.{message_text, frame_text, given_text, ended_text, outcome_text, refusal_text, end_text, reply_line, put_line, event_line, put_lines, event_lines, drove_line};

use crate::parts::{put_between, put_port, put_spaced};
use bus_frame::Frame;
use message_events::{Bytes, Event, Events};
use pgn_ids::{Address, Pgn};
use port_table::PortId;
use segment_law::{DriveEnd, Refusal, Reply};
use std::alloc::AllocError;
use text_digits::{put_bytes, put_decimal, put_digits, put_text};
use tp_wire::Outcome;

fn put_refusal(out: &mut Vec<u8>, cause: Refusal) -> Result<(), AllocError>
    ensures { OnOk result (out.new.items ≡ out.old.items ++ refusal_text cause) }
{
    put_text(out, "refused ")?;
    put_decimal(out, u64::from(cause.number()))?;
    put_text(out, " ")?;
    put_text(out, cause.name())
}

/// The line of a text, which is put before its line feed as it is.
pub fn print_text(out: &mut Vec<u8>, text: &str) -> Result<(), AllocError>
    ensures { OnOk result (out.new.items ≡ out.old.items ++ line text.now) }
{
    put_text(out, text)?;
    put_text(out, "\n")
}

/// The line of a refusal: its number, 1 to 30, and its name.
pub fn print_refused(out: &mut Vec<u8>, cause: Refusal) -> Result<(), AllocError>
    ensures { OnOk result (out.new.items ≡ out.old.items ++ line (refusal_text cause)) }
{
    put_refusal(out, cause)?;
    put_text(out, "\n")
}

/// The line of a reply. The events of a call that was done have lines of their own.
#[tactic(auto, unfolding(crate::specs::Replies::reply_line))]
pub fn print_reply(out: &mut Vec<u8>, reply: &Reply) -> Result<(), AllocError>
    ensures { OnOk result (out.new.items ≡ out.old.items ++ reply_line reply.now) }
{
    match reply {
        Reply::Opened(port) => {
            put_text(out, "opened ")?;
            put_port(out, *port)?;
            put_text(out, "\n")
        }
        Reply::Sent(number) => {
            put_text(out, "sent ")?;
            put_decimal(out, *number)?;
            put_text(out, "\n")
        }
        Reply::Refused(cause) => print_refused(out, *cause),
        Reply::Done(_) => print_text(out, "done"),
    }
}

fn put_frame(out: &mut Vec<u8>, frame: &Frame) -> Result<(), AllocError>
    ensures { OnOk result (out.new.items ≡ out.old.items ++ frame_text frame.now) }
{
    put_digits(out, 16, 8, u64::from(frame.id().raw()))?;
    put_spaced(out, frame.bytes())
}

/// The line of a frame that was put on the bus: its identifier and bytes, hexadecimal.
#[tactic(auto, unfolding(crate::specs::Replies::put_line))]
pub fn print_put(out: &mut Vec<u8>, frame: &Frame) -> Result<(), AllocError>
    ensures { OnOk result (out.new.items ≡ out.old.items ++ put_line frame.now) }
{
    put_text(out, "  put ")?;
    put_frame(out, frame)?;
    put_text(out, "\n")
}

/// The lines of frames that were put on the bus, one each, in their order.
pub fn print_frames(out: &mut Vec<u8>, frames: &[Frame]) -> Result<(), AllocError>
    ensures { OnOk result (out.new.items ≡ out.old.items ++ put_lines frames.now) }
{
    for frame in frames {
        print_put(out, frame)?;
    }
    Ok(())
}

fn put_message(out: &mut Vec<u8>, pgn: Pgn, bytes: &Bytes) -> Result<(), AllocError>
    ensures { OnOk result (out.new.items ≡ out.old.items ++ message_text pgn bytes.now) }
{
    put_digits(out, 16, 5, u64::from(pgn.raw()))?;
    put_text(out, " ")?;
    put_decimal(out, bytes.len() as u64)?;
    put_text(out, " ")?;
    put_bytes(out, bytes.as_slice())
}

/// The line of a port.
pub fn print_port(out: &mut Vec<u8>, port: PortId) -> Result<(), AllocError>
    ensures { OnOk result (out.new.items ≡ out.old.items ++ line (codes "port " ++ port_text port)) }
{
    put_text(out, "port ")?;
    put_port(out, port)?;
    put_text(out, "\n")
}

#[tactic(auto, unfolding(crate::specs::Replies::given_text))]
fn put_given(
    out: &mut Vec<u8>,
    port: PortId,
    from: Address,
    to: Address,
    pgn: Pgn,
    bytes: &Bytes,
) -> Result<(), AllocError>
    ensures { OnOk result (out.new.items ≡ out.old.items ++ given_text port from to pgn bytes.now) }
{
    put_port(out, port)?;
    put_text(out, " ")?;
    put_between(out, from, to)?;
    put_message(out, pgn, bytes)
}

/// The name of an outcome, with the reason of an abort.
pub fn put_outcome(out: &mut Vec<u8>, outcome: Outcome) -> Result<(), AllocError>
    ensures { OnOk result (out.new.items ≡ out.old.items ++ outcome_text outcome) }
{
    match outcome {
        Outcome::Acknowledged => put_text(out, "Acknowledged"),
        Outcome::Broadcast => put_text(out, "Broadcast"),
        Outcome::Aborted(reason) => {
            put_text(out, "Aborted ")?;
            put_decimal(out, u64::from(reason))
        }
        Outcome::TimedOut => put_text(out, "TimedOut"),
        Outcome::Overrun => put_text(out, "Overrun"),
        Outcome::Cancelled => put_text(out, "Cancelled"),
        Outcome::Unreachable => put_text(out, "Unreachable"),
    }
}

#[tactic(auto, unfolding(crate::specs::Replies::ended_text))]
fn put_ended(
    out: &mut Vec<u8>,
    from: Address,
    to: Address,
    number: u64,
    outcome: Outcome,
) -> Result<(), AllocError>
    ensures { OnOk result (out.new.items ≡ out.old.items ++ ended_text from to number outcome) }
{
    put_between(out, from, to)?;
    put_decimal(out, number)?;
    put_text(out, " ")?;
    put_outcome(out, outcome)
}

/// The line of a message that a port was given, begun by two spaces.
pub fn print_given(
    out: &mut Vec<u8>,
    port: PortId,
    from: Address,
    to: Address,
    pgn: Pgn,
    bytes: &Bytes,
) -> Result<(), AllocError>
    ensures { OnOk result (out.new.items ≡ out.old.items ++ line (codes "  given " ++ given_text port from to pgn bytes.now)) }
{
    put_text(out, "  given ")?;
    put_given(out, port, from, to, pgn, bytes)?;
    put_text(out, "\n")
}

/// The line of a message's outcome, with no spaces before it. The number is the message's in its lane.
pub fn print_outcome(
    out: &mut Vec<u8>,
    from: Address,
    to: Address,
    number: u64,
    outcome: Outcome,
) -> Result<(), AllocError>
    ensures { OnOk result (out.new.items ≡ out.old.items ++ line (codes "outcome " ++ ended_text from to number outcome)) }
{
    put_text(out, "outcome ")?;
    put_ended(out, from, to, number, outcome)?;
    put_text(out, "\n")
}

/// The line of an event.
#[tactic(auto, unfolding(crate::specs::Replies::event_line))]
fn print_event(out: &mut Vec<u8>, event: &Event) -> Result<(), AllocError>
    ensures { OnOk result (out.new.items ≡ out.old.items ++ event_line event.now) }
{
    match event {
        Event::Given {
            port,
            from,
            to,
            pgn,
            bytes,
        } => print_given(out, *port, *from, *to, *pgn, bytes),
        Event::Outcome {
            from,
            to,
            number,
            outcome,
        } => {
            put_text(out, "  ")?;
            print_outcome(out, *from, *to, *number, *outcome)
        }
    }
}

/// The lines of the events of one call, one each, in their order.
pub fn print_events(out: &mut Vec<u8>, events: &Events) -> Result<(), AllocError>
    ensures { OnOk result (out.new.items ≡ out.old.items ++ event_lines events.now) }
{
    for event in events {
        print_event(out, event)?;
    }
    Ok(())
}

fn put_end(out: &mut Vec<u8>, end: DriveEnd) -> Result<(), AllocError>
    ensures { OnOk result (out.new.items ≡ out.old.items ++ end_text end) }
{
    match end {
        DriveEnd::Turns => put_text(out, "turns"),
        DriveEnd::Idle => put_text(out, "idle"),
        DriveEnd::Refused(cause) => put_refusal(out, cause),
        DriveEnd::OutOfMemory => put_text(out, "no memory"),
    }
}

/// The line of a drive: its turns and how it ended.
#[tactic(auto, unfolding(crate::specs::Replies::drove_line))]
pub fn print_drove(out: &mut Vec<u8>, turns: u64, end: DriveEnd) -> Result<(), AllocError>
    ensures { OnOk result (out.new.items ≡ out.old.items ++ drove_line turns end) }
{
    put_text(out, "drove ")?;
    put_decimal(out, turns)?;
    put_text(out, " ")?;
    put_end(out, end)?;
    put_text(out, "\n")
}
