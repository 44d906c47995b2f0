//! The first tick at which a segment has something to do by itself.
use super::calls::{A, B, PlainCall};
use super::played::{Step, does};
use pgn_ids::Address;

// 21 announces nine bytes to all at tick 7, and its first packet may follow 50 ticks later. 35 waits for that packet too, until tick 757
// (SAE J1939-21, T1).
const BEFORE_A_PACKET: [Step; 14] = [
    Step::Next(None),
    Step::Quiet(PlainCall::Tick(7)),
    Step::Next(None),
    Step::Open(4000),
    Step::Send(Address::GLOBAL, 9, 1),
    Step::Next(Some(7)),
    Step::Quiet(PlainCall::Pump(Address::GLOBAL)),
    Step::Next(Some(7)),
    Step::Quiet(PlainCall::Transmit(A)),
    Step::Next(Some(7)),
    Step::Quiet(PlainCall::Take(A)),
    Step::Next(Some(7)),
    Step::Quiet(PlainCall::Take(B)),
    Step::Next(Some(57)),
];

#[test]
fn next_tick(rt: HostRuntime) {
    does(&rt, rt.alloc(), &BEFORE_A_PACKET);
}
