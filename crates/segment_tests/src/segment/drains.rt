//! Drains of as many turns as are enough. A test ends if a call finds no memory.
use super::calls::{A, B, PlainCall};
use super::played::{Step, does};

// 21 sends nine bytes. With two stations a frame that nobody answers counts 3, a packet 7 more and 1 for its pump, and its two resends as
// much again: (2 + 2 * 2) * 11 and 4 for the end. Before it come 1 for a pump and 3 + 11 for the RTS, which 35 misses. 21 takes it, and after
// 1,250 ticks its timer fires. The abort is put, and both take it.
//
// The next message waits until 21 has settled by a Request, which may be repeated twice: 1 for a pump, and three times 1 for a timer and
// 3 + 3 for the Request. Then seven frames are put, each of which both take, by three pumps.
const AFTER_A_MISS: [Step; 18] = [
    Step::Left(0),
    Step::Open(4000),
    Step::Send(B, 9, 1),
    Step::Left(85),
    Step::Quiet(PlainCall::Pump(B)),
    Step::Left(84),
    Step::Quiet(PlainCall::Transmit(A)),
    Step::Left(83),
    Step::Quiet(PlainCall::Miss),
    Step::Left(71),
    Step::Rest(6),
    Step::Left(0),
    Step::Ended((0, 1, 0)),
    Step::Send(B, 9, 2),
    Step::Left(22 + 85),
    Step::Rest(24),
    Step::Left(0),
    Step::Ended((1, 1, 1)),
];

#[test]
fn enough_turns_after_a_missed_frame(rt: HostRuntime) {
    does(&rt, rt.alloc(), &AFTER_A_MISS);
}
