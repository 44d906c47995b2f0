//! A broadcast being sent as plain data.
ghost use Rattle.std.specs.Prelude.{◌≡◌, ◌↔◌, IsTrue};

use crate::outgoing::BamOut;
use pgn_ids::Address;
use std::marker::Model;
use tick_timers::Timer;

/// What the state of a broadcast being sent was. Unlike the state itself it needn't be spent.
#[derive(Debug, Drop)]
pub struct BamOutImage {
    from: Address,
    len: u32,
    next: u8,
    gap: Timer,
}

impl Model for BamOutImage {
    ghost use Rattle.bam_session.specs.States.{Outgoing};

    ghost Value = { Outgoing };

    ghost view = { λ i. record { from = i.from.0; len = i.len; next = i.next; gap = i.gap } };
}

impl BamOut {
    /// The state as plain data. It takes no memory.
    pub fn image(&self) -> BamOutImage
        ensures { result ≡ self.now }
    {
        BamOutImage {
            from: self.from,
            len: self.len,
            next: self.next,
            gap: self.gap,
        }
    }
}

impl BamOutImage {
    /// Whether it is that of a state.
    pub fn is_of(&self, state: &BamOut) -> bool
        ensures { IsTrue result ↔ (self.now ≡ state.now) }
    {
        self.from.0 == state.from.0
            && self.len == state.len
            && self.next == state.next
            && is_same_timer(self.gap, state.gap)
    }
}

// Whether two timers are equal.
fn is_same_timer(a: Timer, b: Timer) -> bool
    ensures { IsTrue result ↔ (a ≡ b) }
{
    a == b
}
