//! What the lanes of a station cost.
ghost use Rattle.std.specs.Prelude.{◌≡◌, ◌+◌, ◌-◌, ◌*◌, drop, slice_get};
ghost use Rattle.lane_core.specs.Probe.{most_requests};
ghost use Rattle.record_law.specs.Counting.{up_to_last};
ghost use Rattle.work_law.specs.Work.{request_cost, standing_work, round_work, doubt_work, later_work, idle_work, lane_work, lane_work_at, lanes_work};
ghost use Rattle.segment_work.specs.Terms.{turn_terms, at, turn_of};

use crate::frames::said_work;
use crate::messages::{broadcast_work, message_work, state_work};
use crate::rates::{each, plain};
use crate::saturating::{exact, plus, times};
use lane_core::{Lane, MOST_REQUESTS, Standing, UnderWay};
use pgn_ids::Address;
use segment_core::Segment;
use station_lanes::Lanes;

// A Request, and the timer for its answer.
#[tactic(auto, unfolding(work_law::specs::Work::request_cost))]
fn asking_work(segment: &Segment, from: Address, to: Address) -> u64
    ensures { result ≡ up_to_last ((turn_terms segment.now).rates.fire + request_cost (turn_terms segment.now) from.0 to.0) }
{
    plus(each(), said_work(segment, plain(segment), from, to))
}

// The Requests of a round of which so many were queued.
fn requests_work(segment: &Segment, from: Address, to: Address, count: u8) -> u64
    ensures { result ≡ up_to_last ((most_requests - count) * ((turn_terms segment.now).rates.fire + request_cost (turn_terms segment.now) from.0 to.0)) }
{
    let left = u64::from(MOST_REQUESTS.saturating_sub(count));
    times(exact(left), asking_work(segment, from, to))
}

// The rest of a round of Requests.
fn standing_work(segment: &Segment, from: Address, to: Address, standing: Standing) -> u64
    ensures { result ≡ up_to_last (standing_work (turn_terms segment.now) from.0 to.0 standing) }
{
    match standing {
        Standing::Probing { count, timer: _ } => {
            plus(requests_work(segment, from, to, count), each())
        }
        _ => 0,
    }
}

// A whole round of Requests.
#[tactic(auto, unfolding(work_law::specs::Work::round_work))]
fn round_work(segment: &Segment, from: Address, to: Address) -> u64
    ensures { result ≡ up_to_last (round_work (turn_terms segment.now) from.0 to.0) }
{
    if to == Address::GLOBAL {
        return 0;
    }
    plus(each(), requests_work(segment, from, to, 0))
}

// The round of a lane that is in doubt.
fn doubt_work(segment: &Segment, from: Address, to: Address, standing: Standing) -> u64
    ensures { result ≡ up_to_last (doubt_work (turn_terms segment.now) from.0 to.0 standing) }
{
    match standing {
        Standing::InDoubt => round_work(segment, from, to),
        _ => 0,
    }
}

// The message at a place of a lane, if there is one, before which there may be a round.
fn turn_work(segment: &Segment, from: Address, to: Address, lane: &Lane, i: usize) -> u64
    ensures { result ≡ up_to_last (at (turn_of (turn_terms segment.now) from.0 to.0) (slice_get lane.now.pending i)) }
{
    match lane.pending(i) {
        None => 0,
        Some(message) => plus(
            round_work(segment, from, to),
            message_work(segment, from, to, message),
        ),
    }
}

// The messages of a lane behind the front one.
#[tactic(auto, using(crate::proofs::Sums::below_steps, crate::proofs::Sums::over_rest))]
fn later_work(segment: &Segment, from: Address, to: Address, lane: &Lane) -> u64
    ensures { result ≡ up_to_last (later_work (turn_terms segment.now) from.0 to.0 (drop 1 lane.now.pending)) }
{
    let mut total = 0;
    for i in 0..lane.pending_len().saturating_sub(1) {
        let turn = turn_work(segment, from, to, lane, 1 + i);
        total = plus(total, turn);
    }
    total
}

// The messages of a lane, if none of them is under way.
#[tactic(auto, using(crate::proofs::Fronts::idle_is))]
fn idle_work(segment: &Segment, from: Address, to: Address, lane: &Lane) -> u64
    ensures { result ≡ up_to_last (idle_work (turn_terms segment.now) from.0 to.0 lane.now.standing lane.now.pending) }
{
    match lane.pending(0) {
        None => 0,
        Some(message) => {
            let doubt = doubt_work(segment, from, to, lane.standing());
            let front = message_work(segment, from, to, message);
            plus(plus(doubt, front), later_work(segment, from, to, lane))
        }
    }
}

// A lane.
#[tactic(auto, unfolding(work_law::specs::Work::lane_work))]
fn lane_work(segment: &Segment, lane: &Lane) -> u64
    ensures { result ≡ up_to_last (lane_work (turn_terms segment.now) lane.now) }
{
    let (from, to) = (lane.from(), lane.to());
    let standing = standing_work(segment, from, to, lane.standing());
    let later = later_work(segment, from, to, lane);
    match lane.under_way() {
        UnderWay::Nothing => plus(idle_work(segment, from, to, lane), standing),
        UnderWay::Broadcast(state) => {
            let broadcast = broadcast_work(segment, state.left());
            plus(plus(broadcast, later), standing)
        }
        UnderWay::Connection(state) => {
            let connection = state_work(segment, state);
            plus(plus(connection, later), standing)
        }
    }
}

// The lane to an address, if there is one.
fn lane_work_at(segment: &Segment, lanes: &Lanes, to: Address) -> u64
    ensures { result ≡ up_to_last (lane_work_at (turn_terms segment.now) lanes.now to.0) }
{
    match lanes.get(to) {
        None => 0,
        Some(lane) => lane_work(segment, lane),
    }
}

/// The lanes of a station.
#[tactic(auto, using(crate::proofs::Sums::below_steps))]
pub(crate) fn lanes_work(segment: &Segment, lanes: &Lanes) -> u64
    ensures { result ≡ up_to_last (lanes_work (turn_terms segment.now) lanes.now) }
{
    let mut total = 0;
    for to in 0..usize::from(Address::GLOBAL.0) + 1 {
        let lane = lane_work_at(segment, lanes, Address(to as u8));
        total = plus(total, lane);
    }
    total
}
