//! The code that a call returns to C: 0 if it is done, 1 to 30 for the number of its refusal, and those below.
ghost use Rattle.std.specs.Prelude.{◌≡◌};
ghost use Rattle.segment_law.specs.Refusals.{refusal_number};

use segment_law::Refusal;

/// The call is done.
pub const DONE: u32 = 0;

/// Memory was refused.
pub const NO_MEMORY: u32 = 64;

/// There is nothing that could be written.
pub const NOTHING: u32 = 65;

/// The clock is at a later tick.
pub const CLOCK_PASSED: u32 = 67;

/// The message has more bytes than there is room for.
pub const TOO_LITTLE_ROOM: u32 = 68;

/// The code of a call that is refused.
pub fn cause_code(cause: Refusal) -> u32
    ensures { result ≡ refusal_number cause }
{
    cause.number() as u32
}
