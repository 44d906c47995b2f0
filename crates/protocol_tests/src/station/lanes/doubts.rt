//! A lane in doubt: how it settles, and how it becomes unreachable.
use super::{CM_TO_35, CM_TO_80, DT_TO_35, Left, REQUEST_TO_35, REQUEST_TO_80, RTS, Step, does};
use crate::means::{Cm, Means};
use lane_core::*;
use pgn_ids::Address;
use tp_wire::Outcome;

// The first message is sent to its last packet, and its end of message acknowledgement doesn't come in time. One before its time is no CTS.
// The second message waits for the Acknowledgement; the late end of message acknowledgement is not of it. The answer to the second Request of
// the first round arrives in the second one.
const SETTLED: [Step; 32] = [
    Step::Push(1),
    Step::Push(2),
    Step::Push(3),
    Step::Pump(0, Left::Queued(CM_TO_35, RTS)),
    Step::Refuse(0, PumpRefused::NothingToSend),
    Step::Hear(Means::Cm(Cm::End(9, 2)), 0, Left::Nothing),
    Step::Hear(Means::Cm(Cm::Cts(2, 1)), 0, Left::Nothing),
    Step::Pump(0, Left::Packets(DT_TO_35)),
    Step::Due(1249, false),
    Step::Fire(1250, Left::Aborted(CM_TO_35, 3, 1, Outcome::TimedOut)),
    Step::Pump(1250, Left::Request(REQUEST_TO_35, 0xEC)),
    Step::Hear(Means::Cm(Cm::End(9, 2)), 1250, Left::Nothing),
    Step::Refuse(1250, PumpRefused::NothingToSend),
    Step::Fire(2500, Left::Request(REQUEST_TO_35, 0xEC)),
    Step::Overrun(Left::Nothing),
    Step::Answer(0xEC00),
    Step::Pump(2500, Left::Queued(CM_TO_35, RTS)),
    Step::QueuesAbort(2, true),
    Step::QueuesAbort(3, false),
    Step::Cancel(2, Left::Aborted(CM_TO_35, 250, 2, Outcome::Cancelled)),
    Step::Pump(2500, Left::Request(REQUEST_TO_35, 0xEB)),
    Step::Answer(0xEC00),
    Step::Refuse(2500, PumpRefused::NothingToSend),
    Step::Answer(0xEB00),
    Step::Pump(2500, Left::Queued(CM_TO_35, RTS)),
    Step::Refuse(2500, PumpRefused::NothingToSend),
    Step::Hear(Means::Cm(Cm::End(9, 2)), 2500, Left::Nothing),
    Step::Hear(Means::Cm(Cm::Cts(2, 1)), 2500, Left::Nothing),
    Step::Pump(2500, Left::Packets(DT_TO_35)),
    Step::Hear(
        Means::Cm(Cm::End(9, 2)),
        2600,
        Left::Ended(3, Outcome::Acknowledged),
    ),
    // The lane stays settled.
    Step::Push(4),
    Step::Pump(2600, Left::Queued(CM_TO_35, RTS)),
];

#[test]
fn lane_settles_after_a_timeout(rt: HostRuntime) {
    does(&rt, rt.alloc(), Address(0x35), &SETTLED);
}

// The second message finds no answer. The third is cancelled in its round, which ends without an outcome, and the next one asks anew.
const UNREACHABLE: [Step; 19] = [
    Step::Push(1),
    Step::Push(2),
    Step::Pump(0, Left::Queued(CM_TO_80, RTS)),
    Step::Fire(1250, Left::Aborted(CM_TO_80, 3, 1, Outcome::TimedOut)),
    Step::Pump(1250, Left::Request(REQUEST_TO_80, 0xEC)),
    Step::Due(2499, false),
    Step::Fire(2500, Left::Request(REQUEST_TO_80, 0xEC)),
    Step::Fire(3750, Left::Request(REQUEST_TO_80, 0xEC)),
    Step::Fire(5000, Left::Ended(2, Outcome::Unreachable)),
    Step::Due(u64::MAX, false),
    Step::Waiting(0),
    Step::Push(3),
    Step::Pump(5000, Left::Request(REQUEST_TO_80, 0xEC)),
    Step::Cancel(3, Left::Ended(3, Outcome::Cancelled)),
    Step::Fire(6250, Left::Request(REQUEST_TO_80, 0xEC)),
    Step::Fire(7500, Left::Request(REQUEST_TO_80, 0xEC)),
    Step::Fire(8750, Left::Nothing),
    Step::Push(4),
    Step::Pump(8750, Left::Request(REQUEST_TO_80, 0xEC)),
];

#[test]
fn silent_node_is_unreachable(rt: HostRuntime) {
    does(&rt, rt.alloc(), Address(0x80), &UNREACHABLE);
}
