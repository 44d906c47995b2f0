//! The state of a join as plain data, which a join itself is.
ghost use Rattle.std.specs.Prelude.{◌≡◌, ◌↔◌, IsTrue, IfOk};

use super::Join;
use std::alloc::{AllocError, Global};

impl Join {
    /// A copy of this join, with as much room. It takes that memory in one block.
    pub fn image(&self, alloc: Global) -> Result<Join, AllocError>
        ensures { IfOk result (λ image. image ≡ self.now) }
    {
        let mut bytes = Vec::with_capacity(alloc, self.bytes.capacity())?;
        for byte in &self.bytes {
            bytes.push_reserved(*byte);
        }
        Ok(Join {
            size: self.size,
            next: self.next,
            room: self.room,
            bytes,
        })
    }

    /// Whether it is an image of this join. It takes no memory.
    pub fn is_of(&self, join: &Join) -> bool
        ensures { IsTrue result ↔ (self.now ≡ join.now) }
    {
        self.size == join.size
            && self.next == join.next
            && self.room == join.room
            && self.front() == join.front()
    }
}
