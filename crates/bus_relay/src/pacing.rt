//! The pace of a relay, and the numbers of the workers.
use pgn_ids::Address;
use segment_threads::{Board, Gate};
use std::sync::atomic::Ordering;
use std::thread;

/// The gate of one segment's workers: they have numbers from `first` on, the stations in the order of their addresses, and then the
/// bus, so that workers of two segments have different numbers.
#[derive(Drop)]
pub(crate) struct Numbered<'g, 's, G> {
    pub(crate) gate: &'g G,
    pub(crate) stations: &'s [Address],
    pub(crate) first: u8,
}

impl<G> Numbered<'_, '_, G> {
    fn number_of(&self, worker: u8) -> u8 {
        let mut number = self.first;
        for station in self.stations {
            if station.0 == worker {
                return number;
            }
            number = number.saturating_add(1);
        }
        number
    }
}

impl<G: Gate> Gate for Numbered<'_, '_, G> {
    fn pass(&self, worker: u8, turn: u64) {
        self.gate.pass(self.number_of(worker), turn);
    }
}

/// The gate of the relay's workers, behind that of the caller. Their turns take next to no time, so they would otherwise use up all
/// of them before the first segment gave anything. So none is ahead of the workers of the segments on average, until the first
/// segment gives nothing more.
#[derive(Drop)]
pub(crate) struct RelayPace<'g, 'b, G> {
    pub(crate) gate: &'g G,
    pub(crate) board: &'b Board,
    pub(crate) workers: u64,
    pub(crate) first: u8,
}

impl<G> RelayPace<'_, '_, G> {
    fn is_ahead(&self, turn: u64) -> bool {
        let board = self.board;
        board.passed.load(Ordering::SeqCst) < turn.saturating_mul(self.workers)
            && board.quiet.load(Ordering::SeqCst) == 0
            && board.ended.load(Ordering::SeqCst) < self.workers
            && !board.stops()
    }
}

impl<G: Gate> Gate for RelayPace<'_, '_, G> {
    fn pass(&self, worker: u8, turn: u64) {
        self.gate.pass(self.first.saturating_add(worker), turn);
        for _ in 0..u64::MAX {
            if !self.is_ahead(turn) {
                return;
            }
            thread::yield_now();
        }
    }
}
