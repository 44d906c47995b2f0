//! Workers that serve for long: how they end, how they cut the record, and the clocks that they follow.
mod clocks;
mod records;
mod stops;

use crate::checks::got;
use pgn_ids::Address;
use segment_shared::{Clock, Gate, Live, Piece, PieceKeeper, Tally, WorkerEnd};
use std::alloc::Global;
use std::process::Abort;
use std::sync::atomic::{AtomicU64, Ordering};

const A: Address = Address(0x21);

const R: Address = Address(0x35);

// A segment with the stations 21 and 35.
fn two(rt: &impl Abort, alloc: Global) -> Live {
    got(rt, Live::new(alloc, &[A, R]))
}

/// Lets all pass, and counts how often.
#[derive(Drop)]
pub(crate) struct Open {
    passed: AtomicU64,
}

impl Open {
    pub(crate) fn new() -> Open {
        Open {
            passed: AtomicU64::new(0),
        }
    }

    fn passed(&self) -> u64 {
        self.passed.load(Ordering::SeqCst)
    }
}

impl Gate for Open {
    fn pass(&self, _worker: u8, _turn: u64) {
        self.passed.fetch_add(1, Ordering::SeqCst);
    }
}

// A clock that stands until it is set, and a keeper that lets pieces go.
#[derive(Drop)]
struct Hand {
    at: AtomicU64,
}

impl Hand {
    fn new() -> Hand {
        Hand {
            at: AtomicU64::new(0),
        }
    }

    fn set(&self, at: u64) {
        self.at.store(at, Ordering::SeqCst);
    }
}

impl Clock for Hand {
    fn now(&self) -> u64 {
        self.at.load(Ordering::SeqCst)
    }
}

impl PieceKeeper for Hand {
    fn keep(&self, _piece: Piece) {}
}

// How many calls a worker made, and why it ended.
fn told(tally: Tally) -> (u64, WorkerEnd) {
    (tally.calls, tally.end)
}
