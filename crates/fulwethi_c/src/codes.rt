//! The code that a call returns to C: 0 if it is done, 1 to 30 for the number of its refusal, and those below.
ghost use Rattle.std.specs.Prelude.{◌≡◌};
ghost use Rattle.fulwethi_c.specs.Codes.{error_code, refusal_code, done_code, fed_code, missed_code, taken_code, new_code};

use c_parts::{CLOCK_PASSED, DONE, NO_MEMORY, NOTHING, TOO_LITTLE_ROOM, cause_code};
use one_station::{Fed, Missed, NewRefused, NodeError, Refusal, TakeError};

pub(crate) const WITHOUT_ROOM: u32 = 70;

pub(crate) const PASSED_BY: u32 = 71;

pub(crate) const NOT_ENDED: u32 = 72;

/// The service's own codes are those up to 76.
pub(crate) const STARTING: u32 = 77;

/// The number of the refusal `BadAddresses`.
const BAD_ADDRESS: u32 = 13;

/// The code of a call that isn't done.
pub(crate) fn error_code(error: NodeError) -> u32
    ensures { result ≡ error_code error }
{
    match error {
        NodeError::Refused(cause) => cause_code(cause),
        NodeError::ClockPassed => CLOCK_PASSED,
        NodeError::Starting(_) => STARTING,
        NodeError::OutOfMemory => NO_MEMORY,
    }
}

/// The code of a call that would be refused, or wouldn't.
pub(crate) fn refusal_code(refusal: Option<Refusal>) -> u32
    ensures { result ≡ refusal_code refusal }
{
    match refusal {
        None => DONE,
        Some(cause) => cause_code(cause),
    }
}

/// The code of a call that is done, or isn't.
pub(crate) fn done_code(done: Result<(), NodeError>) -> u32
    ensures { result ≡ done_code done }
{
    match done {
        Ok(()) => DONE,
        Err(error) => error_code(error),
    }
}

/// The code of a frame that was fed: `WITHOUT_ROOM` if it was looked at so, `PASSED_BY` if it wasn't looked at.
pub(crate) fn fed_code(fed: Result<Fed, NodeError>) -> u32
    ensures { result ≡ fed_code fed }
{
    match fed {
        Ok(Fed::Taken) => DONE,
        Ok(Fed::WithoutRoom) => WITHOUT_ROOM,
        Ok(Fed::PassedBy) => PASSED_BY,
        Err(error) => error_code(error),
    }
}

/// The code of frames that were missed: `NOT_ENDED` if what was under way has yet to end.
pub(crate) fn missed_code(missed: Missed) -> u32
    ensures { result ≡ missed_code missed }
{
    match missed {
        Missed::Ended => DONE,
        Missed::Waits => NOT_ENDED,
    }
}

/// The code of an event that was taken, or wasn't.
pub(crate) fn taken_code(taken: Result<usize, TakeError>) -> u32
    ensures { result ≡ taken_code taken }
{
    match taken {
        Ok(_) => DONE,
        Err(TakeError::Nothing) => NOTHING,
        Err(TakeError::TooLittleRoom(_)) => TOO_LITTLE_ROOM,
    }
}

/// The code of a node that was made, or wasn't.
pub(crate) fn new_code(made: Result<(), NewRefused>) -> u32
    ensures { result ≡ new_code made }
{
    match made {
        Ok(()) => DONE,
        Err(NewRefused::BadAddresses) => BAD_ADDRESS,
        Err(NewRefused::OutOfMemory) => NO_MEMORY,
    }
}
