//! Why a call isn't done.
ghost use Rattle.std.specs.Prelude.{◌≡◌};
ghost use Rattle.segment_state.specs.Answers.{stop_for, stop_of as stop_of_station, first_refusal};
ghost use Rattle.segment_state.specs.declared.stop.Stop.TheVariants.{OutOfMemory};

use segment_law::Refusal;
use station_core::{Refused, Stopped};
use std::alloc::AllocError;

/// Why a call isn't done, and changes nothing.
#[derive(Clone, Copy, PartialEq, Eq)]
pub enum Stop {
    /// It is refused.
    Refused(Refusal),
    /// It found no memory.
    OutOfMemory,
}

impl From<AllocError> for Stop {
    ghost from_gives = { λ _ stop. stop ≡ OutOfMemory };

    fn from(_: AllocError) -> Stop {
        Stop::OutOfMemory
    }
}

/// How a call ends that a station refuses.
pub(crate) fn refused(cause: Refused) -> Stop
    ensures { result ≡ stop_for cause }
{
    Stop::Refused(Refusal::of(cause))
}

/// How a call ends that a station doesn't do.
pub(crate) fn stop_of(stopped: Stopped) -> Stop
    ensures { result ≡ stop_of_station stopped }
{
    match stopped {
        Stopped::Refused(cause) => Stop::Refused(Refusal::of(cause)),
        Stopped::OutOfMemory => Stop::OutOfMemory,
    }
}

/// The refusal of a call that a station would refuse for this cause, if for any.
pub(crate) fn refusal_by(first: Option<Refused>) -> Option<Refusal>
    ensures { result ≡ first_refusal first }
{
    match first {
        None => None,
        Some(cause) => Some(Refusal::of(cause)),
    }
}
