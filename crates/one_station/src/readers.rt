//! The readers of a node, which take no memory.
ghost use Rattle.std.specs.Prelude.{◌≡◌, ℕ, List, length};
ghost use Rattle.segment_law.specs.Calls.{called};
ghost use Rattle.segment_law.specs.Readers.{lane_seen, queue_len};
ghost use Rattle.segment_law.specs.declared.call.Call.TheVariants.{Send};
ghost use Rattle.segment_state.specs.Answers.{refusal_of};

use crate::node::Node;
use pgn_ids::Address;
use segment_core::{Call, Counts, LaneSight, Refusal};

impl Node {
    /// Its counts, each up to the last value of `u64`.
    pub fn counts(&self) -> Counts
        ensures { result ≡ self.now.segment.counts }
    {
        self.segment.counts()
    }

    /// The sight of its lane to a destination: how many messages wait or are under way, and whether it is in doubt after one that
    /// failed.
    pub fn lane(&self, to: Address) -> LaneSight
        ensures { result ≡ lane_seen self.now.segment self.now.address to }
    {
        self.segment.lane(self.address, to)
    }

    /// How many frames wait in its transmit queue, at most 64.
    pub fn queue_len(&self) -> usize
        ensures { result ≡ queue_len self.now.segment self.now.address }
    {
        self.segment.queue_len(self.address)
    }

    /// Why a call on its segment would be refused: the first of its causes, or none.
    pub fn refusal(&self, call: &Call) -> Option<Refusal>
        ensures { result ≡ refusal_of (called self.now.segment call.now) }
    {
        self.segment.refusal(call)
    }

    /// Why `send` of so many bytes to a destination would be refused, whatever they are and whatever the PGN.
    pub fn send_refusal(&self, to: Address, len: usize) -> Option<Refusal>
        ensures { (pgn : ℕ) (bytes : List ℕ) → length bytes ≡ len → result ≡ refusal_of (called self.now.segment (Send self.now.address to pgn bytes)) }
    {
        self.segment.send_refusal(self.address, to, len)
    }
}
