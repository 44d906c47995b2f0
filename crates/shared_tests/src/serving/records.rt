//! A full record ends every worker; those that cut the record never meet a full one.
use super::{A, Open, R, told, two};
use crate::calls::is_done;
use crate::checks::same;
use segment_shared::{
    Cutting, Live, MOST_CALLS, Piece, PieceKeeper, SharedSegment, WorkerCall, WorkerEnd,
    bus_worker, cutting_bus_worker, cutting_station_worker, station_worker,
};
use std::process::Abort;
use std::sync::Wait;
use std::sync::atomic::{AtomicU64, Ordering};

// Has so many calls stored.
fn fill(rt: &impl Abort, live: &mut Live, calls: usize) {
    for _ in 0..calls {
        is_done(rt, live.apply(WorkerCall::Tick { n: 1 }));
    }
}

// Counts the pieces and their calls. It takes the lock when it is given one: if a worker kept the lock, it would wait
// for ever.
struct Counter<'a, T> {
    rt: &'a T,
    shared: &'a SharedSegment,
    pieces: AtomicU64,
    calls: AtomicU64,
}

impl<T> Drop for Counter<'_, T> {
    fn drop(self) {
        let Counter {
            rt: _,
            shared: _,
            pieces: _,
            calls: _,
        } = self;
    }
}

impl<'a, T: Wait> Counter<'a, T> {
    fn new(rt: &'a T, shared: &'a SharedSegment) -> Counter<'a, T> {
        Counter {
            rt,
            shared,
            pieces: AtomicU64::new(0),
            calls: AtomicU64::new(0),
        }
    }

    // How many pieces there are, how many calls they have, and how many are stored.
    fn counted(&self) -> (u64, u64, u64) {
        let pieces = self.pieces.load(Ordering::SeqCst);
        let calls = self.calls.load(Ordering::SeqCst);
        (
            pieces,
            calls,
            self.shared.lock(self.rt).calls().len() as u64,
        )
    }
}

impl<T: Wait> PieceKeeper for Counter<'_, T> {
    fn keep(&self, piece: Piece) {
        let cuts = self.shared.lock(self.rt).cuts();
        if cuts >= piece.number {
            self.pieces.fetch_add(1, Ordering::SeqCst);
        }
        self.calls
            .fetch_add(piece.calls.len() as u64, Ordering::SeqCst);
    }
}

// The bus's worker makes the last call of the record, and both workers end as they find it full.
fn end_at_a_full_record(rt: &(impl Abort + Wait), shared: &SharedSegment) {
    let gate = Open::new();
    let bus = bus_worker(rt, shared, &gate, 10);
    same(rt, told(bus), (1, WorkerEnd::RecordFull));
    let passed = gate.passed();
    let station = station_worker(rt, shared, A, &gate, 10);
    same(rt, told(station), (0, WorkerEnd::RecordFull));
    same(rt, gate.passed(), passed.saturating_add(1));
}

// A worker that cuts hands all calls out, and continues.
fn cut_a_full_record(rt: &(impl Abort + Wait), shared: &SharedSegment) {
    let gate = Open::new();
    let keeper = Counter::new(rt, shared);
    let cutting = Cutting {
        keeper: &keeper,
        at: usize::MAX,
    };
    let station = cutting_station_worker(rt, shared, R, &gate, &cutting, 3);
    same(rt, told(station), (0, WorkerEnd::Turns));
    same(rt, keeper.counted(), (1, MOST_CALLS as u64, 0));
}

#[test]
fn idle_workers_end_at_a_full_record(rt: HostRuntime) {
    let mut live = two(&rt, rt.alloc());
    fill(&rt, &mut live, MOST_CALLS - 1);
    let shared = SharedSegment::share(live);
    end_at_a_full_record(&rt, &shared);
    cut_a_full_record(&rt, &shared);
    drop(shared);
}

// In each turn the bus's worker makes one call, and in each turn that finds seven it cuts first. The calls that are left are cut in a turn of a station.
fn cut_every_seven(rt: &(impl Abort + Wait), shared: &SharedSegment) {
    let gate = Open::new();
    let keeper = Counter::new(rt, shared);
    let mut cutting = Cutting {
        keeper: &keeper,
        at: 7,
    };
    let bus = cutting_bus_worker(rt, shared, &gate, &cutting, 100);
    same(rt, bus.end, WorkerEnd::Turns);
    let (pieces, calls, stored) = keeper.counted();
    same(rt, (pieces, calls.saturating_add(stored)), (14, bus.calls));
    cutting.at = 0;
    let station = cutting_station_worker(rt, shared, A, &gate, &cutting, 3);
    same(rt, told(station), (0, WorkerEnd::Turns));
    same(rt, keeper.counted(), (15, bus.calls, 0));
}

#[test]
fn workers_cut_the_record_in_time(rt: HostRuntime) {
    let shared = SharedSegment::share(two(&rt, rt.alloc()));
    cut_every_seven(&rt, &shared);
    drop(shared);
}
