//! The frames of a queue as plain data.
ghost use Rattle.std.specs.Prelude.{◌≡◌, ◌↔◌, IfOk, IsTrue};

use crate::TxQueue;
use bus_frame::Frame;
use std::alloc::{AllocError, Global};
use std::marker::Model;

/// The frames that were in a queue, in their order.
#[derive(Debug, Drop)]
pub struct QueueImage {
    frames: Vec<Frame>,
}

impl Model for QueueImage {
    ghost use Rattle.std.specs.Prelude.{List};
    ghost use Rattle.bus_frame.specs.Frames.{CanFrame};

    ghost Value = { List CanFrame };

    ghost view = { λ i. i.frames.items };
}

impl TxQueue {
    /// Its frames as plain data. It takes memory for as many as there are.
    pub fn image(&self, alloc: Global) -> Result<QueueImage, AllocError>
        ensures { IfOk result (λ image. image ≡ self.now) }
    {
        let mut frames = Vec::with_capacity(alloc, self.frames.len())?;
        for i in 0..self.frames.len() {
            frames.push(self.frames[i])?;
        }
        Ok(QueueImage { frames })
    }
}

impl QueueImage {
    /// Whether these are the frames of a queue. It takes no memory.
    pub fn is_of(&self, queue: &TxQueue) -> bool
        ensures { IsTrue result ↔ (self.now ≡ queue.now) }
    {
        if self.frames.len() != queue.frames.len() {
            return false;
        }
        for i in 0..self.frames.len() {
            if !is_same(&self.frames[i], &queue.frames[i]) {
                return false;
            }
        }
        true
    }
}

// Whether two frames are equal.
fn is_same(a: &Frame, b: &Frame) -> bool
    ensures { IsTrue result ↔ (a.now ≡ b.now) }
{
    a.id().raw() == b.id().raw() && a.bytes() == b.bytes()
}
