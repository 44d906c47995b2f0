//! Messages to all.
use super::{FIRST, LAST, Left, Step, does};
use lane_core::*;
use pgn_ids::Address;
use tp_wire::Outcome;

const BAM: u32 = 0x1CEC_FF21;

const DT: u32 = 0x1CEB_FF21;

const ANNOUNCEMENT: [u8; 8] = [0x20, 9, 0, 2, 0xFF, 0xCA, 0xFE, 0];

// The three frames of a message to all, each 50 ticks after the one before. Then the lane settles at once, whatever the outcome.
const TO_ALL: [Step; 18] = [
    Step::Refuse(0, PumpRefused::NothingToSend),
    Step::Push(1),
    Step::Push(2),
    Step::Push(3),
    Step::Pump(0, Left::Queued(BAM, ANNOUNCEMENT)),
    Step::Refuse(49, PumpRefused::NotYet),
    Step::Miss(0, 50),
    Step::Miss(49, 1),
    Step::Miss(50, 0),
    Step::Pump(50, Left::Queued(DT, FIRST)),
    Step::Overrun(Left::Nothing),
    Step::Refuse(99, PumpRefused::NotYet),
    Step::Pump(100, Left::LastQueued(DT, LAST, 1, Outcome::Broadcast)),
    Step::Miss(100, 0),
    Step::Pump(100, Left::Queued(BAM, ANNOUNCEMENT)),
    Step::QueuesAbort(2, false),
    Step::Cancel(2, Left::Ended(2, Outcome::Cancelled)),
    Step::Pump(101, Left::Queued(BAM, ANNOUNCEMENT)),
];

#[test]
fn broadcast_waits_for_its_gaps(rt: HostRuntime) {
    does(&rt, rt.alloc(), Address::GLOBAL, &TO_ALL);
}
