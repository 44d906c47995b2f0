//! Why a call would be refused, looked for without a step and without memory.
ghost use Rattle.std.specs.Prelude.{◌≡◌, ℕ, List, length};
ghost use Rattle.segment_law.specs.Calls.{called};
ghost use Rattle.segment_law.specs.declared.call.Call.TheVariants.{Open, Send};
ghost use Rattle.segment_state.specs.Answers.{refusal_of};

use crate::segment::Segment;
use pgn_ids::Address;
use segment_law::{Call, Refusal};

impl Segment {
    /// Why a call would be refused: the first of its causes, or `None` if `apply` makes the call or finds no memory for
    /// it. It takes no memory.
    pub fn refusal(&self, call: &Call) -> Option<Refusal>
        ensures { result ≡ refusal_of (called self.now call.now) }
    {
        self.state.refusal(call)
    }

    /// Why a Send of so many bytes from a station to a destination would be refused, whatever they are and whatever the
    /// PGN. It takes no memory.
    pub fn send_refusal(&self, from: Address, to: Address, len: usize) -> Option<Refusal>
        ensures { (pgn : ℕ) (bytes : List ℕ) → length bytes ≡ len → result ≡ refusal_of (called self.now (Send from to pgn bytes)) }
    {
        self.state.send_refusal(from, to, len)
    }

    /// Why an Open at a station would be refused, whatever its PGN and length: the address isn't a station's, or the
    /// station has 16 open ports or no number left. It takes no memory.
    pub fn open_refusal(&self, station: Address) -> Option<Refusal>
        ensures { (pgn max_len : ℕ) → result ≡ refusal_of (called self.now (Open station pgn max_len)) }
    {
        self.state.open_refusal(station)
    }
}
