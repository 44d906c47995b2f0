//! What frames cost: those that wait, those in a queue, and those that are still to be written.
ghost use Rattle.std.specs.Prelude.{◌≡◌, ℕ, ◌<◌, ◌+◌, if◌then◌else◌, length};
ghost use Rattle.record_law.specs.Counting.{up_to_last};
ghost use Rattle.tp_wire.specs.declared.wire.Wire.TheVariants.{Cm};
ghost use Rattle.work_law.specs.Work.{own_at, hears as hears_of, wire_work, look_work, waits_work, bus_frame_work, frame_work, queue_work, said_work};
ghost use Rattle.segment_work.specs.Terms.{turn_terms, at};

use crate::rates::{each, packet_work, plain, rts_work, taker, takers};
use crate::saturating::plus;
use bus_frame::Frame;
use pgn_ids::{Address, read_id};
use segment_core::Segment;
use tp_wire::{CmFrame, Wire, read};
use tx_queue::TxQueue;

// What another node sends, to this one or to all.
fn hears(own: Address, from: Address, to: Address) -> bool
    ensures { result ≡ hears_of own.0 from.0 to.0 }
{
    from != own && (to == own || to == Address::GLOBAL)
}

// What a connection management frame costs at a station that looks at it.
fn cm_work(segment: &Segment, frame: &CmFrame) -> u64
    ensures { (to : ℕ) → result ≡ up_to_last (wire_work (turn_terms segment.now) (Cm frame.now) to) }
{
    match frame {
        CmFrame::Rts { .. } => rts_work(segment),
        CmFrame::EtpRts { .. } => rts_work(segment),
        CmFrame::Bam { .. } => each(),
        _ => 0,
    }
}

// What a frame costs at a station that looks at it.
fn wire_work(segment: &Segment, wire: &Wire<'_>, to: Address) -> u64
    ensures { result ≡ up_to_last (wire_work (turn_terms segment.now) wire.now to.0) }
{
    match wire {
        Wire::Cm(frame) => cm_work(segment, frame),
        Wire::Packet { .. } => packet_work(segment, to),
        Wire::Request { .. } => plain(segment),
        _ => 0,
    }
}

// A frame at a station that takes it.
#[tactic(auto, unfolding(work_law::specs::Work::look_work))]
fn look_work(segment: &Segment, own: Address, frame: &Frame) -> u64
    ensures { result ≡ up_to_last (look_work (turn_terms segment.now) own.0 frame.now) }
{
    let meaning = read_id(frame.id());
    if !hears(own, meaning.from, meaning.to) {
        return 0;
    }
    match read(frame) {
        None => 0,
        Some((wire, _from, to)) => wire_work(segment, &wire, to),
    }
}

/// A frame that a station has still to take, if there is one.
pub(crate) fn waits_work(segment: &Segment, own: Address, frame: Option<Frame>) -> u64
    ensures { result ≡ up_to_last (at (waits_work (turn_terms segment.now) own.0) frame) }
{
    match frame {
        None => 0,
        Some(frame) => plus(each(), look_work(segment, own, &frame)),
    }
}

// A frame on the bus that no station has taken.
#[tactic(auto, unfolding(work_law::specs::Work::bus_frame_work), using(crate::proofs::Sums::below_steps))]
fn bus_frame_work(segment: &Segment, frame: &Frame) -> u64
    ensures { result ≡ up_to_last (bus_frame_work (turn_terms segment.now) frame.now) }
{
    let mut total = 0;
    for i in 0..takers(segment) {
        let waits = waits_work(segment, taker(segment, i), Some(*frame));
        total = plus(total, waits);
    }
    total
}

// A frame that is still to be put, if there is one.
#[tactic(auto, unfolding(work_law::specs::Work::frame_work))]
fn frame_work(segment: &Segment, frame: Option<Frame>) -> u64
    ensures { result ≡ up_to_last (at (frame_work (turn_terms segment.now)) frame) }
{
    match frame {
        None => 0,
        Some(frame) => plus(each(), bus_frame_work(segment, &frame)),
    }
}

/// The frames of a queue.
#[tactic(auto, using(crate::proofs::Sums::below_steps, crate::proofs::Sums::over_all))]
pub(crate) fn queue_work(segment: &Segment, queue: &TxQueue) -> u64
    ensures { result ≡ up_to_last (queue_work (turn_terms segment.now) queue.now) }
{
    let mut total = 0;
    for i in 0..queue.len() {
        let frame = frame_work(segment, queue.get(i));
        total = plus(total, frame);
    }
    total
}

// What a frame costs at a station if it hears it.
fn heard_work(own: Address, from: Address, to: Address, work: u64) -> u64
    ensures { (w : ℕ) → work ≡ up_to_last w → result ≡ up_to_last (if hears_of own.0 from.0 to.0 then w else 0) }
{
    if hears(own, from, to) { work } else { 0 }
}

// The same at the station at a place, which takes it in any case.
fn told_work(segment: &Segment, work: u64, from: Address, to: Address, i: usize) -> u64
    requires { i < length (turn_terms segment.now).on }
    ensures { (w : ℕ) → work ≡ up_to_last w
        → result ≡ up_to_last ((turn_terms segment.now).rates.take + (if hears_of (own_at (turn_terms segment.now) i) from.0 to.0 then w else 0)) }
{
    plus(each(), heard_work(taker(segment, i), from, to, work))
}

/// A frame that is written from one address to another, and costs so much at each station that looks at it.
#[tactic(auto, using(crate::proofs::Sums::below_steps))]
pub(crate) fn said_work(segment: &Segment, work: u64, from: Address, to: Address) -> u64
    ensures { (w : ℕ) → work ≡ up_to_last w → result ≡ up_to_last (said_work (turn_terms segment.now) w from.0 to.0) }
{
    let mut total = 0;
    for i in 0..takers(segment) {
        let told = told_work(segment, work, from, to, i);
        total = plus(total, told);
    }
    plus(each(), total)
}
