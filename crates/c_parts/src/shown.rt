//! Frames, outcomes and numbers as they are written for C.
ghost use Rattle.std.specs.Prelude.{◌≡◌, ◌≤◌, ◌++◌, ◌-◌, length, replicate};
ghost use Rattle.c_parts.specs.Codes.{found_code};
ghost use Rattle.c_parts.specs.Shown.{shown_frame, shown_counts, outcome_number, outcome_reason};
ghost use Rattle.c_parts.specs.Calls.{IsTickWritten};

use crate::codes::{DONE, NOTHING};
use bus_frame::Frame;
use segment_law::Counts;
use tp_wire::Outcome;

/// How many bytes a frame has at most, and what stands behind them if there are fewer.
const FRAME_BYTES: usize = 8;

const FILLING: u8 = 0;

/// A frame: its identifier of 29 bits, and `len` bytes, 0 to 8. If the frame is shown, its other bytes are 0.
#[repr(C)]
#[derive(Drop)]
pub struct CFrame {
    pub id: u32,
    pub len: u32,
    pub bytes: [u8; 8],
}

/// What was counted: frames on the bus, messages that were given, and messages by their outcome.
#[repr(C)]
#[derive(Drop)]
pub struct CCounts {
    pub frames: u64,
    pub malformed: u64,
    pub given: u64,
    pub acknowledged: u64,
    pub broadcast: u64,
    pub aborted: u64,
    pub timed_out: u64,
    pub overrun: u64,
    pub cancelled: u64,
    pub unreachable: u64,
}

/// A frame for C.
pub fn show_frame(next: &Frame) -> CFrame
    ensures { result ≡ shown_frame next.now }
{
    let bytes = next.bytes();
    CFrame {
        id: next.id().raw(),
        len: bytes.len() as u32,
        bytes: filled_up(bytes),
    }
}

// At most eight bytes, and zeros behind them. Most frames have eight, which are copied without a call.
fn filled_up(bytes: &[u8]) -> [u8; 8]
    requires { length bytes.now ≤ 8 }
    ensures { result ≡ bytes.now ++ replicate (8 - length bytes.now) 0 }
{
    if let Some(whole) = bytes.as_array::<8>() {
        return *whole;
    }
    let mut kept = [FILLING; FRAME_BYTES];
    kept[..bytes.len()].copy_from_slice(bytes);
    kept
}

/// Counts for C.
pub fn show_counts(counts: &Counts) -> CCounts
    ensures { result ≡ shown_counts counts.now }
{
    CCounts {
        frames: counts.frames,
        malformed: counts.malformed,
        given: counts.given,
        acknowledged: counts.acknowledged,
        broadcast: counts.broadcast,
        aborted: counts.aborted,
        timed_out: counts.timed_out,
        overrun: counts.overrun,
        cancelled: counts.cancelled,
        unreachable: counts.unreachable,
    }
}

/// The number of an outcome, from 1.
pub fn outcome_number(outcome: &Outcome) -> u32
    ensures { result ≡ outcome_number outcome.now }
{
    match outcome {
        Outcome::Acknowledged => 1,
        Outcome::Broadcast => 2,
        Outcome::Aborted(_) => 3,
        Outcome::TimedOut => 4,
        Outcome::Overrun => 5,
        Outcome::Cancelled => 6,
        Outcome::Unreachable => 7,
    }
}

/// The reason of an abort; of another outcome 0.
pub fn outcome_reason(outcome: &Outcome) -> u32
    ensures { result ≡ outcome_reason outcome.now }
{
    match outcome {
        Outcome::Acknowledged => 0,
        Outcome::Broadcast => 0,
        Outcome::Aborted(reason) => *reason as u32,
        Outcome::TimedOut => 0,
        Outcome::Overrun => 0,
        Outcome::Cancelled => 0,
        Outcome::Unreachable => 0,
    }
}

/// Writes a tick, if there is one, and returns `DONE` or `NOTHING`.
pub fn write_tick(answer: Option<u64>, tick: &mut u64) -> u32
    ensures code { result ≡ found_code answer }
    ensures written { IsTickWritten tick.old tick.new answer }
{
    match answer {
        Some(due) => {
            *tick = due;
            DONE
        }
        None => NOTHING,
    }
}
