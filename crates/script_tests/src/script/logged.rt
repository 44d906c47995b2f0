//! A script whose frames are logged, and writers that fail.
use crate::checks::same;
use bus_script::{Cause, run_logged};
use std::io;
use std::io::{Error, ErrorKind, Write};

/// A broadcast that begins at 7 ms, and a frame of a foreign node.
const BROADCAST: &str = "stations 21 35\n\
open 35 FECA 4000\n\
tick 7\n\
send 21 FF FECA 010203040506070809\n\
drive 21 FF 3\n\
inject 18FEF100 0102\n\
transmit 21\n";

/// Refuses each write.
#[derive(Drop)]
struct Full {}

impl Write for Full {
    fn write(&mut self, _buf: &[u8]) -> io::Result<usize> {
        Err(Error::from(ErrorKind::StorageFull))
    }

    fn flush(&mut self) -> io::Result<()> {
        Ok(())
    }
}

#[test]
fn a_failed_write_to_either_ends_the_run(rt: HostRuntime) {
    let alloc = rt.alloc();
    let mut reader = BROADCAST.as_bytes();
    let to_log = run_logged(alloc, &mut reader, &mut Full {}, &mut io::sink());
    let mut reader = BROADCAST.as_bytes();
    let to_rest = run_logged(alloc, &mut reader, &mut io::sink(), &mut Full {});
    for (ran, line) in [(to_log, 5), (to_rest, 1)] {
        let fault = ran.fault.expect(&rt, "a fault");
        if fault.cause != Cause::OutOfMemory && !ran.memory_refused {
            same(&rt, fault.cause, Cause::WriteFailed);
            same(&rt, fault.line, line);
        }
        same(&rt, ran.status(), 1);
    }
}
