//! The codes that the calls of the service return to C.
ghost use Rattle.std.specs.Prelude.{◌≡◌};
ghost use Rattle.c_parts.specs.Codes.{value_code};
ghost use Rattle.fulwethi_service.specs.Codes.{not_made_code, reply_code, clock_code};

use c_parts::{CLOCK_PASSED, DONE, NO_MEMORY, cause_code};
use live_segment::{NotMade, Reply};
use std::alloc::AllocError;

/// The code of a call that isn't made.
pub(crate) fn not_made_code(cause: NotMade) -> u32
    ensures { result ≡ not_made_code cause }
{
    match cause {
        NotMade::Refused(cause) => cause_code(cause),
        NotMade::OutOfMemory => NO_MEMORY,
    }
}

/// The code of a call that is made, or isn't.
pub(crate) fn made_code(made: Result<(), NotMade>) -> u32
    ensures { result ≡ value_code not_made_code made }
{
    match made {
        Ok(()) => DONE,
        Err(cause) => not_made_code(cause),
    }
}

/// The code of a call that is answered, or finds no memory.
pub(crate) fn reply_code(reply: Result<Reply, AllocError>) -> u32
    ensures { result ≡ reply_code reply }
{
    match reply {
        Ok(Reply::Refused(cause)) => cause_code(cause),
        Ok(Reply::Opened(_)) => DONE,
        Ok(Reply::Sent(_)) => DONE,
        Ok(Reply::Done(_)) => DONE,
        Err(_) => NO_MEMORY,
    }
}

/// The code of a clock that advances, or is past the tick.
pub(crate) fn clock_code(asked: Option<Result<Reply, AllocError>>) -> u32
    ensures { result ≡ clock_code asked }
{
    match asked {
        Some(reply) => reply_code(reply),
        None => CLOCK_PASSED,
    }
}
