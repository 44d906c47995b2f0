//! A stop of one call ends every worker.
use super::{A, Hand, Open, R, told, two};
use crate::checks::same;
use segment_shared::{
    Cutting, Gate, SharedSegment, WorkerEnd, bus_worker, clocked_bus_worker,
    clocked_station_worker, cutting_bus_worker, cutting_station_worker, station_worker,
};
use std::process::Abort;
use std::sync::Wait;
use std::sync::atomic::{AtomicU64, Ordering};

// Stops the segment at a turn of the worker that it holds at its gate, and counts how many it lets pass.
struct Stopping<'a, T> {
    rt: &'a T,
    shared: &'a SharedSegment,
    passed: AtomicU64,
}

impl<T> Drop for Stopping<'_, T> {
    fn drop(self) {
        let Stopping {
            rt: _,
            shared: _,
            passed: _,
        } = self;
    }
}

/// At which turn it stops the segment.
const STOP: u64 = 5;

impl<T: Wait> Gate for Stopping<'_, T> {
    fn pass(&self, _worker: u8, turn: u64) {
        if turn == STOP {
            self.shared.stop(self.rt);
        }
        self.passed.fetch_add(1, Ordering::SeqCst);
    }
}

// A worker that is held at its gate ends in the turn for which the gate lets it go.
fn stop_from_a_gate(rt: &(impl Abort + Wait), shared: &SharedSegment) {
    let gate = Stopping {
        rt,
        shared,
        passed: AtomicU64::new(0),
    };
    let station = station_worker(rt, shared, A, &gate, u64::MAX);
    same(rt, told(station), (0, WorkerEnd::Stopped));
    same(rt, gate.passed.load(Ordering::SeqCst), STOP);
}

// Each other worker of the segment, of each form, passes its gate once more.
fn end_all(rt: &(impl Abort + Wait), shared: &SharedSegment) {
    let gate = Open::new();
    let hand = Hand::new();
    hand.set(1_000);
    let cutting = Cutting {
        keeper: &hand,
        at: 1,
    };
    let most = u64::MAX;
    let ends = [
        station_worker(rt, shared, R, &gate, most),
        bus_worker(rt, shared, &gate, most),
        cutting_station_worker(rt, shared, R, &gate, &cutting, most),
        cutting_bus_worker(rt, shared, &gate, &cutting, most),
        clocked_station_worker(rt, shared, R, &gate, &cutting, &hand, most),
        clocked_bus_worker(rt, shared, &gate, &cutting, &hand, most),
    ];
    for tally in &ends {
        same(rt, told(*tally), (0, WorkerEnd::Stopped));
    }
    same(rt, gate.passed(), 6);
}

#[test]
fn one_stop_ends_each_worker_within_a_turn(rt: HostRuntime) {
    let shared = SharedSegment::share(two(&rt, rt.alloc()));
    stop_from_a_gate(&rt, &shared);
    end_all(&rt, &shared);
    drop(shared);
}
