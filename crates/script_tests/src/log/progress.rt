//! The report on how far a log is read.
use crate::checks::{got, same};
use read_progress::Progress;
use std::alloc::Global;
use std::cell::Cell;
use std::io;
use std::io::{Error, ErrorKind, Read};
use std::process::Abort;
use std::time::{Clock, Duration};

/// A clock that advances by so many milliseconds each time that it is read, and fails in the end.
#[derive(Drop)]
struct Steps<'a> {
    now: &'a Cell<u64>,
    step: u64,
    end: u64,
}

impl Clock for Steps<'_> {
    fn monotonic(&self) -> io::Result<Duration> {
        let now = self.now.get();
        if now >= self.end {
            return Err(Error::from(ErrorKind::Other));
        }
        self.now.set(now.saturating_add(self.step));
        Ok(Duration::from_millis(now))
    }

    fn since_1970(&self) -> io::Result<Duration> {
        self.monotonic()
    }
}

// The reports while six times 1,500,000 bytes are read of 9,000,000.
fn told(rt: &impl Abort, alloc: Global) -> Vec<u8> {
    let now = Cell::new(0);
    let clock = Steps {
        now: &now,
        step: 400,
        end: 2_000,
    };
    let mut buf = Vec::new(alloc);
    got(rt, buf.resize(1_500_000, 0));
    let mut told = Vec::new(alloc);
    let mut reader = got(
        rt,
        Progress::new(alloc, io::repeat(7), &clock, &mut told, 9_000_000),
    );
    for _ in 0..6 {
        let n = got(rt, reader.read(buf.as_mut_slice()));
        same(rt, n, 1_500_000);
    }
    drop(reader);
    told
}

#[test]
fn what_is_read_is_told(rt: HostRuntime) {
    let alloc = rt.alloc();
    // Nothing is reported before a second has passed, and nothing if the clock fails.
    let expected = b"\rread 4 of 9 MB\rread 6 of 9 MB".as_slice();
    let first = told(&rt, alloc);
    if first.as_slice() == expected {
        return;
    }
    // If memory is refused, a report is missing.
    let again = told(&rt, alloc);
    same(&rt, again.as_slice(), expected);
}
