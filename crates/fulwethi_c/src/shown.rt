//! Frames, events and numbers as they are written for C.
ghost use Rattle.std.specs.Prelude.{◌≡◌, slice_get};
ghost use Rattle.c_parts.specs.Codes.{found_code, value_code};
ghost use Rattle.c_parts.specs.Calls.{IsWritten};
ghost use Rattle.fulwethi_c.specs.Codes.{error_code, front_code};
ghost use Rattle.fulwethi_c.specs.Shown.{shown_event, shown_lane};
ghost use Rattle.fulwethi_c.specs.Calls.{IsFrameWritten, IsEventWritten};

use crate::codes::error_code;
use bus_frame::Frame;
use c_parts::{CFrame, DONE, NOTHING, outcome_number, outcome_reason, show_frame};
use one_station::{Event, LaneSight, Node, NodeError, PortId};

/// The next event. `kind` 1: a message at port `number`, of `len` bytes. `kind` 2: the outcome of message `number`, 1 to 7,
/// and the reason of its abort.
#[repr(C)]
#[derive(Drop)]
pub struct CEvent {
    pub kind: u32,
    pub from: u32,
    pub to: u32,
    pub pgn: u32,
    pub number: u64,
    pub len: u64,
    pub outcome: u32,
    pub reason: u32,
}

/// What is seen of a lane: `in_doubt` is 1 if it is in doubt, else 0.
#[repr(C)]
#[derive(Drop)]
pub struct CLane {
    pub pending: u64,
    pub in_doubt: u32,
}

pub(crate) fn write_port(answer: Result<PortId, NodeError>, port: &mut u64) -> u32
    ensures code { result ≡ value_code error_code answer }
    ensures written { IsWritten (λ id. id.number) port.old port.new answer }
{
    match answer {
        Ok(id) => {
            *port = id.number;
            DONE
        }
        Err(error) => error_code(error),
    }
}

pub(crate) fn write_number(answer: Result<u64, NodeError>, number: &mut u64) -> u32
    ensures code { result ≡ value_code error_code answer }
    ensures written { IsWritten (λ sent. sent) number.old number.new answer }
{
    match answer {
        Ok(sent) => {
            *number = sent;
            DONE
        }
        Err(error) => error_code(error),
    }
}

pub(crate) fn write_frame(answer: Result<Option<Frame>, NodeError>, frame: &mut CFrame) -> u32
    ensures code { result ≡ front_code answer }
    ensures written { IsFrameWritten frame.old frame.new answer }
{
    match answer {
        Ok(Some(next)) => {
            *frame = show_frame(&next);
            DONE
        }
        Ok(None) => NOTHING,
        Err(error) => error_code(error),
    }
}

pub(crate) fn write_event(node: &Node, event: &mut CEvent) -> u32
    ensures code { result ≡ found_code (slice_get node.now.events 0) }
    ensures written { IsEventWritten event.old event.new (slice_get node.now.events 0) }
{
    match node.next_event() {
        Some(next) => {
            *event = show_event(next);
            DONE
        }
        None => NOTHING,
    }
}

fn show_event(event: &Event) -> CEvent
    ensures { result ≡ shown_event event.now }
{
    match event {
        Event::Given {
            port,
            from,
            to,
            pgn,
            bytes,
        } => CEvent {
            kind: 1,
            from: from.0 as u32,
            to: to.0 as u32,
            pgn: pgn.raw(),
            number: port.number,
            len: bytes.len() as u64,
            outcome: 0,
            reason: 0,
        },
        Event::Outcome {
            from,
            to,
            number,
            outcome,
        } => CEvent {
            kind: 2,
            from: from.0 as u32,
            to: to.0 as u32,
            pgn: 0,
            number: *number,
            len: 0,
            outcome: outcome_number(outcome),
            reason: outcome_reason(outcome),
        },
    }
}

pub(crate) fn show_lane(lane: &LaneSight) -> CLane
    ensures { result ≡ shown_lane lane.now }
{
    CLane {
        pending: lane.pending as u64,
        in_doubt: u32::from(lane.in_doubt),
    }
}
