//! The line of what a segment counted.
ghost use Rattle.std.specs.Prelude.{◌≡◌, ◌++◌, OnOk};
ghost use Rattle.script_text.specs.Counts.{counted, frame_counts, ended_counts, given_up_counts, counts_line, relayed_line};

use segment_law::Counts;
use std::alloc::AllocError;
use text_digits::{put_decimal, put_text};

fn put_count(out: &mut Vec<u8>, name: &str, n: u64) -> Result<(), AllocError>
    ensures { OnOk result (out.new.items ≡ out.old.items ++ counted name.now n) }
{
    put_text(out, name)?;
    put_text(out, " ")?;
    put_decimal(out, n)
}

fn put_frame_counts(out: &mut Vec<u8>, counts: Counts) -> Result<(), AllocError>
    ensures { OnOk result (out.new.items ≡ out.old.items ++ frame_counts counts) }
{
    put_count(out, "frames", counts.frames)?;
    put_count(out, " malformed", counts.malformed)?;
    put_count(out, " repeated", counts.repeated)?;
    put_count(out, " given", counts.given)
}

fn put_ended_counts(out: &mut Vec<u8>, counts: Counts) -> Result<(), AllocError>
    ensures { OnOk result (out.new.items ≡ out.old.items ++ ended_counts counts) }
{
    put_count(out, " Acknowledged", counts.acknowledged)?;
    put_count(out, " Broadcast", counts.broadcast)?;
    put_count(out, " Aborted", counts.aborted)?;
    put_count(out, " TimedOut", counts.timed_out)
}

fn put_given_up_counts(out: &mut Vec<u8>, counts: Counts) -> Result<(), AllocError>
    ensures { OnOk result (out.new.items ≡ out.old.items ++ given_up_counts counts) }
{
    put_count(out, " Overrun", counts.overrun)?;
    put_count(out, " Cancelled", counts.cancelled)?;
    put_count(out, " Unreachable", counts.unreachable)
}

/// The line of what was counted, each count behind its name.
#[tactic(auto, unfolding(crate::specs::Counts::counts_line))]
pub fn print_counts(out: &mut Vec<u8>, counts: Counts) -> Result<(), AllocError>
    ensures { OnOk result (out.new.items ≡ out.old.items ++ counts_line counts) }
{
    put_frame_counts(out, counts)?;
    put_ended_counts(out, counts)?;
    put_given_up_counts(out, counts)?;
    put_text(out, "\n")
}

/// The line of a relay: how many messages it received, how many of them it submitted, and how many it left.
#[tactic(auto, unfolding(crate::specs::Counts::relayed_line))]
pub fn print_relayed(
    out: &mut Vec<u8>,
    pulled: u64,
    pushed: u64,
    left: u64,
) -> Result<(), AllocError>
    ensures { OnOk result (out.new.items ≡ out.old.items ++ relayed_line pulled pushed left) }
{
    put_count(out, "relayed", pulled)?;
    put_count(out, "", pushed)?;
    put_count(out, "", left)?;
    put_text(out, "\n")
}
