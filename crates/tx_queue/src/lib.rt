//! The transmit queue of a station: the frames that it has still to put on the bus, first in, first out.
#![tactic(auto)]

ghost use Rattle.std.specs.Prelude.{◌≡◌, ◌<◌, ◌≤◌, ◌↔◌, [], length, slice_get, IfOk, IsErr, IsTrue, OnErr, OnOk};
ghost use Rattle.tx_queue.specs.Queue.{queue_limit, free_places, front, behind, queued};

mod image;

use bus_frame::Frame;
pub use image::QueueImage;
use std::alloc::{AllocError, Global};
use std::collections::VecDeque;
use std::marker::Model;
use thiserror::Error;

/// How many frames a queue holds at most.
pub const MAX_FRAMES: usize = 64;

/// 64 frames wait already.
#[derive(Clone, Copy, Debug, PartialEq, Eq, Error)]
#[error("the transmit queue holds 64 frames")]
pub struct TxFull;

/// At most 64 frames. The memory for all of them is taken when the queue is made, and at no other time.
#[derive(Debug, Drop)]
pub struct TxQueue {
    frames: VecDeque<Frame>,
}

impl Model for TxQueue {
    ghost use Rattle.std.specs.Prelude.{List, length, ◌≤◌};
    ghost use Rattle.std.specs.VecDeque.{deque_capacity};
    ghost use Rattle.bus_frame.specs.Frames.{CanFrame};
    ghost use Rattle.tx_queue.specs.Queue.{queue_limit};

    ghost Value = { List CanFrame };

    ghost view = { λ q. q.frames.items };

    ghost invariant = { λ q. (length q.frames.items ≤ queue_limit) × (queue_limit ≤ deque_capacity q.frames) };
}

impl TxQueue {
    /// A queue with no frame in it and room for 64.
    pub fn new(alloc: Global) -> Result<TxQueue, AllocError>
        ensures { IfOk result (λ queue. queue ≡ []) }
    {
        Ok(TxQueue {
            frames: VecDeque::with_capacity(alloc, MAX_FRAMES)?,
        })
    }

    /// Queues a frame behind all others. Refused exactly if 64 are in the queue, which is then unchanged.
    pub fn push(&mut self, frame: Frame) -> Result<(), TxFull>
        ensures ok { OnOk result (self.new ≡ queued self.old frame) }
        ensures full { IsErr result ↔ (length self.old ≡ queue_limit) }
        ensures err { OnErr result (self.new ≡ self.old) }
    {
        if self.frames.len() == MAX_FRAMES {
            return Err(TxFull);
        }
        self.push_free(frame);
        Ok(())
    }

    /// Queues a frame behind all others if there is a free place.
    #[inline]
    pub fn push_free(&mut self, frame: Frame)
        requires { length self.old < queue_limit }
        ensures { self.new ≡ queued self.old frame }
    {
        self.frames.push_back_reserved(frame);
    }

    /// Takes the frame that was queued first, or None if the queue is empty.
    pub fn pop(&mut self) -> Option<Frame>
        ensures popped { result ≡ front self.old }
        ensures left { self.new ≡ behind self.old }
    {
        self.frames.pop_front()
    }

    /// The frame that `pop` would take.
    pub fn front(&self) -> Option<Frame>
        ensures { result ≡ front self.now }
    {
        self.frames.front().copied()
    }

    /// The frame that `pop` would take after so many others.
    pub fn get(&self, i: usize) -> Option<Frame>
        ensures { result ≡ slice_get self.now i }
    {
        self.frames.get(i).copied()
    }

    /// How many more frames it has room for.
    pub fn free(&self) -> usize
        ensures value { result ≡ free_places self.now }
        ensures within { length self.now ≤ queue_limit }
    {
        MAX_FRAMES - self.frames.len()
    }

    /// How many frames are in it.
    pub fn len(&self) -> usize
        ensures value { result ≡ length self.now }
        ensures within { result ≤ queue_limit }
    {
        self.frames.len()
    }

    /// Whether no frame is in it.
    pub fn is_empty(&self) -> bool
        ensures { IsTrue result ↔ (length self.now ≡ 0) }
    {
        self.frames.is_empty()
    }
}
