//! What messages cost, those under way and those that have not begun.
ghost use Rattle.std.specs.Prelude.{◌≡◌, ℕ, ◌≤◌, if◌then◌else◌, length};
ghost use Rattle.record_law.specs.Counting.{up_to_last};
ghost use Rattle.tp_wire.specs.declared.constants.TheConstants.{ETP_MAX_SIZE};
ghost use Rattle.bam_session.specs.Sending.{packets_left};
ghost use Rattle.originator.specs.Link.{Link};
ghost use Rattle.work_law.specs.Work.{packet_cost, dpo_cost, out_work, state_work, broadcast_work, message_work};
ghost use Rattle.segment_work.specs.Terms.{turn_terms};

use crate::frames::said_work;
use crate::rates::{each, packet_work, plain, rts_work, timed_work};
use crate::saturating::{exact, plus, times};
use lane_core::{Pending, kind_for};
use originator::{MOST_RESENDS, OutState};
use pgn_ids::Address;
use seg_cut::packets;
use segment_core::Segment;
use tp_wire::Kind;

// A packet that is queued, and the pump that does it.
#[tactic(auto, unfolding(work_law::specs::Work::packet_cost))]
fn packet_cost(segment: &Segment, from: Address, to: Address) -> u64
    ensures { result ≡ up_to_last (packet_cost (turn_terms segment.now) from.0 to.0) }
{
    plus(
        each(),
        said_work(segment, packet_work(segment, to), from, to),
    )
}

// The data packet offset of a window.
fn dpo_cost(segment: &Segment, kind: Kind) -> u64
    ensures { result ≡ up_to_last (dpo_cost (turn_terms segment.now) kind) }
{
    match kind {
        Kind::Tp => 0,
        Kind::Etp => plain(segment),
    }
}

// A connection whose packets before one were queued, and that has had so many resends.
#[tactic(auto, unfolding(work_law::specs::Work::out_work))]
fn out_work(
    segment: &Segment,
    kind: Kind,
    from: Address,
    to: Address,
    len: u32,
    unsent: u32,
    resends: u8,
) -> u64
    ensures { (link : Link) → link.kind ≡ kind → link.from ≡ from.0 → link.to ≡ to.0 → link.len ≡ len → result ≡ up_to_last (out_work (turn_terms segment.now) link unsent resends) }
{
    let packet = packet_cost(segment, from, to);
    let dpo = dpo_cost(segment, kind);
    let all = u64::from(packets(len));
    let unqueued = (all + 1).saturating_sub(u64::from(unsent));
    let rounds = MOST_RESENDS.saturating_sub(resends);
    let first = times(exact(unqueued), plus(packet, dpo));
    let again = times(
        exact(u64::from(rounds)),
        plus(times(exact(all), packet), dpo),
    );
    plus(plus(first, again), timed_work(segment))
}

/// A connection under way.
#[tactic(auto, using(crate::proofs::UnderWays::state_work_is))]
pub(crate) fn state_work(segment: &Segment, state: &OutState) -> u64
    ensures { result ≡ up_to_last (state_work (turn_terms segment.now) state.now) }
{
    let (kind, from, to) = (state.kind(), state.from(), state.to());
    let out = out_work(
        segment,
        kind,
        from,
        to,
        state.len(),
        state.unsent(),
        state.resends(),
    );
    let repeated = u64::from(state.repeated());
    let packets = times(exact(repeated), packet_cost(segment, from, to));
    let dpo = announced_work(segment, state.announces_again(), kind);
    plus(out, plus(packets, dpo))
}

// The data packet offset of a window, if it is queued once more.
fn announced_work(segment: &Segment, is_announced: bool, kind: Kind) -> u64
    ensures { result ≡ up_to_last (if is_announced then dpo_cost (turn_terms segment.now) kind else 0) }
{
    if is_announced {
        dpo_cost(segment, kind)
    } else {
        0
    }
}

/// So many packets of a broadcast, each with the pump that queues it.
#[tactic(auto, unfolding(work_law::specs::Work::broadcast_work))]
pub(crate) fn broadcast_work(segment: &Segment, left: u32) -> u64
    ensures { (len next : ℕ) → left ≡ packets_left len next → result ≡ up_to_last (broadcast_work (turn_terms segment.now) len next) }
{
    times(exact(u64::from(left)), plus(each(), plain(segment)))
}

/// A message that has not begun.
#[tactic(auto, unfolding(work_law::specs::Work::message_work))]
pub(crate) fn message_work(segment: &Segment, from: Address, to: Address, message: &Pending) -> u64
    requires { length message.now.bytes ≤ ETP_MAX_SIZE }
    ensures { result ≡ up_to_last (message_work (turn_terms segment.now) from.0 to.0 message.now) }
{
    let len = message.bytes.len() as u32;
    if to == Address::GLOBAL {
        let bam = plus(each(), said_work(segment, each(), from, to));
        return plus(bam, broadcast_work(segment, packets(len)));
    }
    let rts = plus(each(), said_work(segment, rts_work(segment), from, to));
    let out = out_work(segment, kind_for(len), from, to, len, 1, 0);
    plus(rts, out)
}
