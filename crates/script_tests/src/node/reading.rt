//! Lines read one after another, up to a reader that fails.
use crate::checks::{got, holds};
use crate::readers::Breaking;
use line_faults::Cause;
use line_runs::{Limits, next_line};
use std::io::{BufRead, BufReader};
use std::process::Abort;

// The line of this number is this one. The test ends if memory is refused.
fn reads<R: BufRead>(
    rt: &impl Abort,
    number: u64,
    reader: &mut R,
    line: &mut Vec<u8>,
    expected: &[u8],
) {
    match next_line(&Limits::of_script(), number, reader, line) {
        Err(Cause::OutOfMemory) => panic!(rt; "error: no memory"),
        read => holds(rt, read == Ok(true)),
    }
    holds(rt, line.as_slice() == expected);
}

#[test]
fn lines_are_read_up_to_the_end(rt: HostRuntime) {
    let mut line = Vec::new(rt.alloc());
    let mut reader: &[u8] = b"counts\n\nstate";
    reads(&rt, 1, &mut reader, &mut line, b"counts");
    reads(&rt, 2, &mut reader, &mut line, b"");
    reads(&rt, 3, &mut reader, &mut line, b"state");
    holds(
        &rt,
        next_line(&Limits::of_script(), 4, &mut reader, &mut line) == Ok(false),
    );
}

#[test]
fn a_failed_read_is_told(rt: HostRuntime) {
    let mut line = Vec::new(rt.alloc());
    let mut reader = got(&rt, BufReader::new(rt.alloc(), Breaking { text: b"now\n" }));
    reads(&rt, 1, &mut reader, &mut line, b"now");
    let failed = Err(Cause::ReadFailed);
    holds(
        &rt,
        next_line(&Limits::of_script(), 2, &mut reader, &mut line) == failed,
    );
}
