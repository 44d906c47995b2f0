//! What no clause says: that each call can succeed.
use crate::checks::same;
use tick_timers::*;

#[test]
fn clock_stops_at_its_end(rt: HostRuntime) {
    let mut clock = Clock::new();
    let start = clock.now();
    let answers = [clock.advance(u64::MAX), clock.advance(0), clock.advance(1)];
    same(&rt, answers, [Ok(()), Ok(()), Err(ClockEnd)]);
    same(&rt, [start, clock.now()], [0, u64::MAX]);
}

// When a timer started, of how many ticks it is, a tick, and whether it is due at that.
const DUE: [(u64, u64, u64, bool); 5] = [
    (100, T1, 849, false),
    (100, T1, 850, true),
    (100, 0, 99, false),
    (100, 0, 100, true),
    (u64::MAX, T2, u64::MAX, false),
];

#[test]
fn timer_is_due_with_its_last_tick(rt: HostRuntime) {
    for (place, (started, ticks, now, is_due)) in DUE.iter().enumerate() {
        let timer = Timer::start(*started, *ticks);
        same(&rt, (place, timer.is_due(*now)), (place, *is_due));
    }
}

#[test]
fn a_gap_is_missing_until_its_last_tick(rt: HostRuntime) {
    let gap = Timer::start(100, BROADCAST_GAP);
    let missing = [gap.missing(100), gap.missing(149), gap.missing(151)];
    same(&rt, missing, [50, 1, 0]);
}
