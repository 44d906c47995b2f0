//! A call, and its owner.
ghost use Rattle.std.specs.Prelude.{◌≡◌, IfOk};

use segment_law::Call;
use std::alloc::{AllocError, Global};

/// A stored call, with the client whose message it sends; no other call is anybody's.
#[derive(Debug, Drop)]
pub struct Stored {
    pub by: Option<u64>,
    pub call: Call,
}

impl Stored {
    // A copy of the stored call.
    pub(crate) fn copy(&self, alloc: Global) -> Result<Stored, AllocError>
        ensures { IfOk result (λ s. s ≡ self.now) }
    {
        Ok(Stored {
            by: self.by,
            call: self.call.copy(alloc)?,
        })
    }
}
