//! Counting the events of calls.
ghost use Rattle.std.specs.Prelude.{◌≡◌, []};
ghost use Rattle.segment_law.specs.Segment.{plus, counted_outcome, counted_event, counted, counted_frame, counted_look, counted_repeat};

use segment_law::Counts;
use station_core::{Event, Events};
use tp_wire::Outcome;

// One more, up to the last value.
fn one_more(n: u64) -> u64
    ensures { result ≡ plus n 1 }
{
    n.saturating_add(1)
}

/// Counts a frame that was put on the bus.
#[inline]
pub fn count_frame(counts: &mut Counts)
    ensures { counts.new ≡ counted_frame counts.old }
{
    counts.frames = one_more(counts.frames);
}

/// Counts a frame that a station took again.
#[inline]
pub fn count_repeat(counts: &mut Counts)
    ensures { counts.new ≡ counted_repeat counts.old }
{
    counts.repeated = one_more(counts.repeated);
}

// Counts a message by its outcome.
fn count_outcome(counts: &mut Counts, outcome: Outcome)
    ensures { counts.new ≡ counted_outcome counts.old outcome }
{
    match outcome {
        Outcome::Acknowledged => counts.acknowledged = one_more(counts.acknowledged),
        Outcome::Broadcast => counts.broadcast = one_more(counts.broadcast),
        Outcome::Aborted(_) => counts.aborted = one_more(counts.aborted),
        Outcome::TimedOut => counts.timed_out = one_more(counts.timed_out),
        Outcome::Overrun => counts.overrun = one_more(counts.overrun),
        Outcome::Cancelled => counts.cancelled = one_more(counts.cancelled),
        Outcome::Unreachable => counts.unreachable = one_more(counts.unreachable),
    }
}

// Counts an event.
fn count_event(counts: &mut Counts, event: &Event)
    ensures { counts.new ≡ counted_event counts.old event.now }
{
    match event {
        Event::Given { .. } => counts.given = one_more(counts.given),
        Event::Outcome { outcome, .. } => count_outcome(counts, *outcome),
    }
}

// Counts events, one by one.
fn count_all(counts: &mut Counts, events: &[Event])
    ensures { counts.new ≡ counted counts.old events.now }
{
    for event in events {
        count_event(counts, event);
    }
}

/// Counts the events of a call.
#[inline(always)]
pub fn count_events(counts: &mut Counts, events: &Events)
    ensures { counts.new ≡ counted counts.old events.now }
{
    let Some(first) = events.get(0) else {
        return;
    };
    count_event(counts, first);
    count_all(counts, events.rest());
}

/// Counts a station's look at a frame, which it may find malformed, and the events of the call.
#[inline(always)]
pub fn count_look(counts: &mut Counts, is_malformed: bool, told: &Events)
    ensures { counts.new ≡ counted (counted_look counts.old is_malformed) told.now }
{
    if !is_malformed {
        return count_events(counts, told);
    }
    counts.malformed = one_more(counts.malformed);
    count_events(counts, told)
}
