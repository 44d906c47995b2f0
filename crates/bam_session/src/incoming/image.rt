//! The state of a receiver of a message to all as plain data.
ghost use Rattle.std.specs.Prelude.{◌≡◌, ◌↔◌, IsTrue, IfOk};

use super::BamIn;
use pgn_ids::{Address, WirePgn};
use seg_cut::Join;
use std::alloc::{AllocError, Global};
use std::marker::Model;
use tick_timers::Timer;

/// The value of a `BamIn`, as plain data, which needn't be spent.
#[derive(Debug, Drop)]
pub struct BamInImage {
    from: Address,
    pgn: WirePgn,
    join: Join,
    timer: Timer,
}

impl Model for BamInImage {
    ghost use Rattle.bam_session.specs.States.{Incoming};

    ghost Value = { Incoming };

    ghost view = { λ s. record { from = s.from.0; pgn = s.pgn; join = s.join; timer = s.timer } };
}

impl BamIn {
    /// Its value, as plain data.
    pub fn image(&self, alloc: Global) -> Result<BamInImage, AllocError>
        ensures { IfOk result (λ image. image ≡ self.now) }
    {
        let join = self.join.image(alloc)?;
        Ok(BamInImage {
            from: self.from,
            pgn: self.pgn,
            join,
            timer: self.timer,
        })
    }
}

impl BamInImage {
    /// Whether it is an image of this state. It takes no memory.
    pub fn is_of(&self, state: &BamIn) -> bool
        ensures { IsTrue result ↔ (self.now ≡ state.now) }
    {
        self.from.0 == state.from.0
            && self.pgn == state.pgn
            && self.join.is_of(&state.join)
            && self.timer == state.timer
    }
}
