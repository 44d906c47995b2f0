//! Readers and writers that fail in the middle of a log.
use crate::checks::{got, holds, same};
use crate::readers::Breaking;
use bus_decode::{Cause, Counts, Decoded, Options, Wanted, run_decode};
use std::alloc::Global;
use std::io;
use std::io::{BufRead, BufReader, Error, ErrorKind, Write};

fn all(alloc: Global) -> Options {
    Options {
        pgns: Wanted::all(alloc),
        from: Wanted::all(alloc),
        to: Wanted::all(alloc),
        most: 1_785,
        singles: true,
        strict: false,
        json: false,
        frames: false,
        explain: false,
        summary: false,
        quiet: false,
    }
}

/// Reads a log; what that promises is no business of a test's proof.
fn read<R: BufRead, W: Write>(alloc: Global, reader: &mut R, writer: &mut W) -> Decoded {
    run_decode(alloc, &all(alloc), reader, writer)
}

/// Takes so many writes, and fails then.
#[derive(Drop)]
struct Failing {
    writes: u64,
}

impl Write for Failing {
    fn write(&mut self, buf: &[u8]) -> io::Result<usize> {
        if self.writes == 0 {
            return Err(Error::from(ErrorKind::StorageFull));
        }
        self.writes -= 1;
        Ok(buf.len())
    }

    fn flush(&mut self) -> io::Result<()> {
        Ok(())
    }
}

const THREE: &str =
    "(1.000000) can0 18FEF100#01\n(2.000000) can0 18FEF100#02\n(3.000000) can0 18FEF100#03\n";

#[test]
fn a_failed_read_ends_the_log(rt: HostRuntime) {
    let alloc = rt.alloc();
    let breaking = Breaking {
        text: b"\n(1.000000) can0 18FEF10",
    };
    let mut reader = got(&rt, BufReader::new(alloc, breaking));
    let decoded = read(alloc, &mut reader, &mut io::sink());
    let fault = decoded.fault.expect(&rt, "a fault");
    if fault.cause != Cause::OutOfMemory {
        same(&rt, fault.cause, Cause::ReadFailed);
        same(&rt, fault.line, 2);
        let counts = Counts {
            lines: 1,
            passed: 1,
            ..Counts::none()
        };
        holds(&rt, decoded.counts == counts);
    }
    same(&rt, decoded.status(), 1);
}

#[test]
fn a_failed_write_ends_the_log(rt: HostRuntime) {
    let alloc = rt.alloc();
    let mut writer = Failing { writes: 1 };
    let mut reader = THREE.as_bytes();
    let decoded = read(alloc, &mut reader, &mut writer);
    let fault = decoded.fault.expect(&rt, "a fault");
    if fault.cause != Cause::OutOfMemory {
        same(&rt, fault.cause, Cause::WriteFailed);
        same(&rt, fault.line, 2);
    }
}
