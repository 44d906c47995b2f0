//! What a station does if it finds no memory for the frames that it takes.
use live_segment::{Live, Reply, Turn, WorkerCall};
use pgn_ids::Address;
use tx_queue::MAX_FRAMES;

/// How many turns a worker tries in vain to take a frame for want of memory, before its station misses what waits for it.
pub const MEMORY_TRIES: u64 = 1_000;

/// Advances the clock by so many ticks, and returns how many calls that was.
pub(crate) fn tick(live: &mut Live, n: u64) -> u64 {
    match live.apply(WorkerCall::Tick { n }) {
        Ok(Reply::Done(_)) => 1,
        Ok(_) | Err(_) => 0,
    }
}

// Whether a station has taken nothing in a turn before which frames waited for it, though its queue has a place: then its Take
// found no memory. A turn frees no place of the queue, and a full one takes nothing.
fn is_starved(live: &Live, station: Address, waited: u64, done: &Turn) -> bool {
    let segment = live.segment();
    waited > 0
        && segment.waiting(station) == waited
        && segment.queue_len(station) < MAX_FRAMES
        && !done.ended
}

// Whether nothing is to be done on the segment but that a station takes what waits for it.
fn rests_but_for(live: &Live, station: Address) -> bool {
    let segment = live.segment();
    live.addresses().iter().all(|address| segment.queue_len(*address) == 0
        && segment.next_pump(*address).is_none()
        && (address.0 == station.0 || segment.waiting(*address) == 0))
}

// The station misses the frames that wait for it. If there is no memory for that either, the clock must advance, so that timers end the messages to
// this station: it advances by a tick if nothing else drives it, since it doesn't by itself while a frame waits. If frames wait for another station
// too, that one may have found no memory either. So the clock then advances once in `MEMORY_TRIES` turns, too slowly to end what the others have
// under way.
fn miss(live: &mut Live, station: Address, tried: u64, is_timed: bool) -> (u64, bool) {
    let n = live.segment().waiting(station);
    match live.apply(WorkerCall::Overrun { station, n }) {
        Ok(Reply::Done(_)) => return (1, true),
        Ok(_) => return (0, false),
        Err(_) => {}
    }
    if !is_timed && (tried % MEMORY_TRIES == 0 || rests_but_for(live, station)) {
        return (tick(live, 1), false);
    }
    (0, false)
}

/// A turn of a station's worker that has tried so many turns in vain to take a frame. Returns also how many it has tried then. `is_timed`: the
/// segment's clock follows another.
pub(crate) fn relieved_turn(
    live: &mut Live,
    station: Address,
    tried: u64,
    is_timed: bool,
) -> (Turn, u64) {
    let waited = live.segment().waiting(station);
    let mut done = live.station_turn(station);
    if !is_starved(live, station, waited, &done) {
        return (done, 0);
    }
    let tried = tried.saturating_add(1);
    if tried < MEMORY_TRIES {
        return (done, tried);
    }
    let (calls, is_missed) = miss(live, station, tried, is_timed);
    done.calls = done.calls.saturating_add(calls);
    (done, if is_missed { 0 } else { tried })
}
