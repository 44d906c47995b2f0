//! A receiver as plain data.
ghost use Rattle.std.specs.Prelude.{◌≡◌, ◌↔◌, IsTrue, IfOk};

use super::Receiver;
use crate::stage::Stage;
use crate::unfinished::UnfinishedImage;
use std::alloc::{AllocError, Global};
use std::marker::Model;
use tick_timers::Timer;

/// The value of a `Receiver`, as plain data, which needn't be spent.
#[derive(Debug, Drop)]
pub struct ReceiverImage {
    message: UnfinishedImage,
    stage: Stage,
    timer: Timer,
}

impl Model for ReceiverImage {
    ghost use Rattle.responder.specs.declared.in_state.InState.{InState};

    ghost Value = { InState };

    ghost use Rattle.responder.specs.Image.{state_at};

    ghost view = { λ s. state_at s.message s.stage s.timer };
}

impl Receiver {
    /// Its value, as plain data.
    pub fn image(&self, alloc: Global) -> Result<ReceiverImage, AllocError>
        ensures { IfOk result (λ image. image ≡ self.now) }
    {
        let message = self.message.image(alloc)?;
        Ok(ReceiverImage {
            message,
            stage: self.stage,
            timer: self.timer,
        })
    }
}

impl ReceiverImage {
    /// Whether it is an image of this receiver. It takes no memory.
    #[tactic(auto, using(crate::proofs::Images::image_parts))]
    pub fn is_of(&self, receiver: &Receiver) -> bool
        ensures { IsTrue result ↔ (self.now ≡ receiver.now) }
    {
        self.stage == receiver.stage
            && self.timer == receiver.timer
            && self.message.is_of(&receiver.message)
    }
}
