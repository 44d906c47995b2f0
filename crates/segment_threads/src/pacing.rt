//! The pace of the workers.
use crate::jobs::Board;
use segment_shared::Gate;
use std::sync::atomic::Ordering;
use std::thread;

/// How many turns a worker may be ahead.
const AHEAD: u64 = 16;

/// How often a worker that is ahead looks again, at each turn.
const MOST_LOOKS: u64 = 64;

/// The gate that the workers pass, behind that of the caller: a worker that is ahead of the senders or of the other workers lets
/// them run. A turn with nothing to do takes next to no time, so a worker would otherwise use up all its turns before a thread
/// that has to wait for a processor made its first. `senders` is how many threads submit messages, `relays` how many relays submit
/// messages that others were given, and `workers` how many workers there are.
#[derive(Drop)]
pub struct Pace<'a, G> {
    pub gate: &'a G,
    pub board: &'a Board,
    pub senders: u64,
    pub workers: u64,
    pub relays: u64,
}

impl<G> Pace<'_, G> {
    // Whether a worker at this turn is ahead of a sender that has messages to submit, or of the other workers on an average. None is once all are to end.
    fn is_ahead(&self, turn: u64) -> bool {
        let turn = turn.saturating_sub(AHEAD);
        turn > 0
            && !self.board.stops()
            && (self.board.sent.load(Ordering::SeqCst) < self.senders
                || self.board.passed.load(Ordering::SeqCst) < turn.saturating_mul(self.workers))
    }
}

impl<G: Gate> Gate for Pace<'_, G> {
    fn pass(&self, worker: u8, turn: u64) {
        self.gate.pass(worker, turn);
        self.board.passed.fetch_add(1, Ordering::SeqCst);
        for _ in 0..MOST_LOOKS {
            if !self.is_ahead(turn) {
                return;
            }
            thread::yield_now();
        }
    }
}
