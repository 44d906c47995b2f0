//! Why a call on a shared segment isn't made, and what becomes of a submission.
ghost use Rattle.std.specs.Prelude.{◌≡◌};
ghost use Rattle.live_segment.specs.declared.refused.NotMade.TheVariants.{OutOfMemory};

use segment_law::Refusal;
use std::alloc::AllocError;
use thiserror::Error;

/// Why a call on a shared segment isn't made.
#[derive(Clone, Copy, Debug, PartialEq, Eq, Error)]
pub enum NotMade {
    /// It is refused.
    #[error("the call is refused")]
    Refused(Refusal),
    /// There was no memory.
    #[error("out of memory")]
    OutOfMemory,
}

impl From<AllocError> for NotMade {
    ghost from_gives = { λ _ e. e ≡ OutOfMemory };

    fn from(_error: AllocError) -> NotMade {
        NotMade::OutOfMemory
    }
}

/// What became of a client's front submission.
#[derive(Clone, Copy, Debug, PartialEq, Eq)]
pub enum Accepted {
    /// There is no submission, or no client has this number.
    Empty,
    /// Each place for its note that is known to be free is owed to an accepted message.
    Owed,
    /// It stays.
    Refused(Refusal),
    /// It is sent, with this number.
    Sent(u64),
}
