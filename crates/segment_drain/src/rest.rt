//! Whether nothing is left to be done.
ghost use Rattle.std.specs.Prelude.{◌≡◌, ◌+◌, ◌^◌, ◌<◌, List, false};
ghost use Rattle.std.specs.Bool.{OnTrue};
ghost use Rattle.pgn_ids.specs.declared.address.Address.{Address};
ghost use Rattle.bus_order.specs.Bus.{bus_len};
ghost use Rattle.segment_law.specs.Calls.{applied};
ghost use Rattle.segment_law.specs.Record.{Record, StandsAt};
ghost use Rattle.segment_law.specs.Segment.{Segment as State};
ghost use Rattle.segment_law.specs.declared.call.Call.{Call};
ghost use Rattle.work_law.specs.Rest.{HasRested, AllEnded};
ghost use Rattle.segment_drain.specs.Calm.{AreCalm, AreUnpaused, is_pause};
ghost use Rattle.segment_drain.specs.Enough.{longest_time};
ghost use Rattle.segment_drain.specs.Rested.{rests, IsAtRest};

use crate::choosing::next_tick;
use segment_core::Segment;
use work_law::what_has_stopped_rests;

/// Whether nothing is left to be done: all queues are empty, no frame waits for a station, no lane has anything to queue, and no
/// Pump, Transmit, Take or Fire could be done at any later tick, up to the clock's last.
///
/// Then no session is open, no message is pending, no lane asks, and each message that was sent has its outcome, unless the clock is
/// within 1,250 ticks of its last, or all places of the bus are used.
pub fn has_rested(segment: &Segment) -> bool
    ensures value { result ≡ rests segment.now }
    ensures rest { (addresses : List Address) (steps : Record) → StandsAt addresses steps segment.now → OnTrue result (IsAtRest steps segment.now) }
    ensures all { (addresses : List Address) (steps : Record) → StandsAt addresses steps segment.now
        → segment.now.now + longest_time < 2 ^ 64 → bus_len segment.now.bus + 1 < 2 ^ 64 → OnTrue result (HasRested segment.now × AllEnded steps) }
    ensures calm { (addresses : List Address) (steps : Record) → StandsAt addresses steps segment.now
        → segment.now.now + longest_time < 2 ^ 64 → bus_len segment.now.bus + 1 < 2 ^ 64 → AreUnpaused segment.now → OnTrue result (AreCalm segment.now) }
{
    // A law, for the last clause: the call does nothing.
    what_has_stopped_rests();
    segment.is_idle() && next_tick(segment).is_none()
}

/// A law: no call but a Pause leaves a paused port or a session on hold where there was none.
///
/// So a segment at rest without a paused port stays calm through every Open, Close, Send and Drain. It does nothing.
pub fn calm_stays()
    ensures { (seg : State) (call : Call) → is_pause call ≡ false → AreCalm seg → AreCalm (applied seg call).0 }
{}
