//! What each call counts, and what answers, sessions and holds cost.
ghost use Rattle.std.specs.Prelude.{◌≡◌, ◌<◌, length};
ghost use Rattle.segment_law.specs.Segment.{Segment as State};
ghost use Rattle.record_law.specs.Counting.{up_to_last};
ghost use Rattle.work_law.specs.Work.{own_at, plain, open_work, end_work, hold_work, rts_work, packet_work};
ghost use Rattle.segment_work.specs.Terms.{turn_terms};

use crate::saturating::{exact, plus, times};
use pgn_ids::Address;
use segment_core::Segment;

/// Each frame that is put or taken, each pump and each timer that fires counts one.
#[tactic(auto, unfolding(crate::specs::Terms::turn_terms))]
pub(crate) fn each() -> u64
    ensures put { (seg : State) → result ≡ up_to_last (turn_terms seg).rates.put }
    ensures take { (seg : State) → result ≡ up_to_last (turn_terms seg).rates.take }
    ensures pump { (seg : State) → result ≡ up_to_last (turn_terms seg).rates.pump }
    ensures fire { (seg : State) → result ≡ up_to_last (turn_terms seg).rates.fire }
{
    1
}

/// How many stations take each frame.
#[tactic(auto, unfolding(crate::specs::Terms::turn_terms), using(crate::proofs::Terms::on_length))]
pub(crate) fn takers(segment: &Segment) -> usize
    ensures { result ≡ length (turn_terms segment.now).on }
{
    segment.stations().len()
}

/// The address of one of them.
#[tactic(auto, using(crate::proofs::Terms::on_length, crate::proofs::Terms::own_is))]
pub(crate) fn taker(segment: &Segment, i: usize) -> Address
    requires { i < length (turn_terms segment.now).on }
    ensures { result.0 ≡ own_at (turn_terms segment.now) i }
{
    segment.stations()[i].address()
}

/// A frame that nobody answers.
#[tactic(auto, unfolding(work_law::specs::Work::plain))]
pub(crate) fn plain(segment: &Segment) -> u64
    ensures { result ≡ up_to_last (plain (turn_terms segment.now)) }
{
    plus(each(), times(exact(takers(segment) as u64), each()))
}

/// A timer, and the abort that it sends: an incoming connection, or the end of one.
pub(crate) fn timed_work(segment: &Segment) -> u64
    ensures opened { result ≡ up_to_last (open_work (turn_terms segment.now)) }
    ensures end { result ≡ up_to_last (end_work (turn_terms segment.now)) }
{
    plus(each(), plain(segment))
}

/// A hold.
#[tactic(auto, unfolding(crate::specs::Terms::turn_terms))]
pub(crate) fn hold_work(segment: &Segment) -> u64
    ensures { result ≡ up_to_last (hold_work (turn_terms segment.now)) }
{
    exact(2 + segment.stations().len() as u64)
}

/// An RTS.
pub(crate) fn rts_work(segment: &Segment) -> u64
    ensures { result ≡ up_to_last (rts_work (turn_terms segment.now)) }
{
    plus(
        plus(plain(segment), timed_work(segment)),
        hold_work(segment),
    )
}

/// A packet.
pub(crate) fn packet_work(segment: &Segment, to: Address) -> u64
    ensures { result ≡ up_to_last (packet_work (turn_terms segment.now) to.0) }
{
    if to == Address::GLOBAL {
        return 0;
    }
    plus(plain(segment), hold_work(segment))
}
