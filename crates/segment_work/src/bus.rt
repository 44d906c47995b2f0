//! What the frames on the bus cost.
ghost use Rattle.std.specs.Prelude.{◌≡◌, ◌<◌, ◌≤◌, length};
ghost use Rattle.bus_order.specs.Bus.{bus_len, cursor_at};
ghost use Rattle.bus_order.specs.Kept.{IsSound};
ghost use Rattle.record_law.specs.Counting.{up_to_last};
ghost use Rattle.work_law.specs.Work.{ahead_work, bus_work};
ghost use Rattle.segment_work.specs.Terms.{turn_terms};

use crate::frames::waits_work;
use crate::rates::{taker, takers};
use crate::saturating::plus;
use bus_order::BusLog;
use segment_core::Segment;

// How many frames a station has taken or passed over.
#[tactic(auto, using(bus_order::proofs::Steps::read_within))]
fn taken(bus: &BusLog, i: usize) -> u64
    requires { i < length bus.now.cursors }
    ensures value { result ≡ (cursor_at bus.now i).place }
    ensures within { result ≤ bus_len bus.now }
    ensures sound { IsSound bus.now }
{
    bus.len() - bus.waiting(i)
}

// What is on the bus past the cursor of a station.
#[tactic(auto, using(crate::proofs::Sums::below_steps, crate::proofs::Terms::on_length, crate::proofs::Buses::ahead_is))]
fn ahead_work(segment: &Segment, i: usize) -> u64
    requires { i < length (turn_terms segment.now).on }
    ensures { result ≡ up_to_last (ahead_work (turn_terms segment.now) segment.now.bus i) }
{
    let bus = segment.bus();
    let own = taker(segment, i);
    let first = taken(bus, i);
    let mut total = 0;
    for k in 0..bus.waiting(i) {
        let frame = waits_work(segment, own, bus.frame(first + k + 1));
        total = plus(total, frame);
    }
    total
}

/// What is on the bus past the cursors of all stations.
#[tactic(auto, using(crate::proofs::Sums::below_steps))]
pub(crate) fn bus_work(segment: &Segment) -> u64
    ensures { result ≡ up_to_last (bus_work (turn_terms segment.now) segment.now.bus) }
{
    let mut total = 0;
    for i in 0..takers(segment) {
        let ahead = ahead_work(segment, i);
        total = plus(total, ahead);
    }
    total
}
