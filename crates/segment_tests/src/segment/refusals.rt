//! The causes as they are printed.
use crate::checks::same;
use segment_law::*;
use std::process::Abort;

fn is_cause(rt: &impl Abort, cause: Refusal, number: u8, name: &str) {
    same(rt, (cause.number(), cause.name()), (number, name));
}

#[test]
fn causes_have_numbers_and_names(rt: HostRuntime) {
    is_cause(&rt, Refusal::IdTooLarge, 1, "IdTooLarge");
    is_cause(&rt, Refusal::NothingToTake, 18, "NothingToTake");
    is_cause(&rt, Refusal::NotThisSegment, 30, "NotThisSegment");
}
