//! The work on a segment, and the turns of a drain.
ghost use Rattle.std.specs.Prelude.{◌≡◌, ◌^◌, ◌<◌, ◌≤◌, ◌-◌, slice_get};
ghost use Rattle.record_law.specs.Counting.{up_to_last};
ghost use Rattle.work_law.specs.Work.{station_work, sum_over};
ghost use Rattle.segment_drain.specs.Enough.{calls_left, enough_turns};
ghost use Rattle.segment_work.specs.Terms.{turn_terms, at};

use crate::bus::bus_work;
use crate::frames::queue_work;
use crate::lanes::lanes_work;
use crate::saturating::{exact, plus, times};
use crate::sessions::sessions_work;
use segment_core::Segment;
use station_core::Station;

// A station.
fn station_work(segment: &Segment, station: &Station) -> u64
    ensures { result ≡ up_to_last (station_work (turn_terms segment.now) station.now) }
{
    let queue = queue_work(segment, station.queue());
    let lanes = lanes_work(segment, station.lanes());
    let sessions = sessions_work(segment, station.sessions());
    plus(plus(queue, lanes), sessions)
}

// The station at a place, if there is one.
fn station_work_at(segment: &Segment, i: usize) -> u64
    ensures { result ≡ up_to_last (at (station_work (turn_terms segment.now)) (slice_get segment.now.stations i)) }
{
    match segment.stations().get(i) {
        None => 0,
        Some(station) => station_work(segment, station),
    }
}

// All stations.
#[tactic(auto, using(crate::proofs::Sums::below_steps, crate::proofs::Sums::over_all))]
fn stations_work(segment: &Segment) -> u64
    ensures { result ≡ up_to_last (sum_over (station_work (turn_terms segment.now)) segment.now.stations) }
{
    let mut total = 0;
    for i in 0..segment.stations().len() {
        let station = station_work_at(segment, i);
        total = plus(total, station);
    }
    total
}

/// How many calls may be left to be done on a segment, up to the last value of `u64`.
///
/// It is the work on the segment where each frame that is put or taken, each pump and each timer that fires counts one. Each of
/// these calls takes some of it away, and only a Send, an Inject and a TakeAgain add to it. It is 0 at rest.
#[tactic(auto, using(crate::proofs::Works::calls_left_is))]
pub fn work(segment: &Segment) -> u64
    ensures { result ≡ up_to_last (calls_left segment.now) }
{
    plus(stations_work(segment), bus_work(segment))
}

/// How many turns of a drain are enough, up to the last value of `u64`: with so many it doesn't end after its turns.
pub fn enough_turns(segment: &Segment) -> u64
    ensures value { result ≡ up_to_last (enough_turns segment.now) }
    ensures enough { result < 2 ^ 64 - 1 → enough_turns segment.now ≤ result }
{
    plus(times(exact(2), work(segment)), exact(2))
}
