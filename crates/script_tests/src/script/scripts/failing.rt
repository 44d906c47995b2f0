//! Readers and writers that fail, and what is flushed.
use super::{fault_line, many};
use crate::checks::{got, holds, same};
use crate::readers::Breaking;
use bus_script::{Cause, run_script};
use std::cell::Cell;
use std::io;
use std::io::{BufReader, Error, ErrorKind, Read, Write};

#[test]
fn a_failed_read_ends_the_script(rt: HostRuntime) {
    let alloc = rt.alloc();
    let mut out = got(&rt, many(alloc, b' ', 0));
    let breaking = Breaking {
        text: b"stations 21\ntick 5\nti",
    };
    let mut reader = got(&rt, BufReader::new(alloc, breaking));
    let ran = run_script(alloc, &mut reader, &mut out);
    let fault = ran.fault.expect(&rt, "a fault");
    if fault.cause != Cause::OutOfMemory {
        same(&rt, fault.cause, Cause::ReadFailed);
        same(&rt, fault.line, 3);
        same(&rt, ran.status(), 1);
        let told = got(&rt, fault_line(alloc, fault));
        same(&rt, told.as_str(), "line 3: read failed");
    }
}

/// Takes so many writes, and fails then; the room for what it takes is made beforehand.
#[derive(Drop)]
struct Failing {
    writes: u64,
    taken: Vec<u8>,
}

impl Write for Failing {
    fn write(&mut self, buf: &[u8]) -> io::Result<usize> {
        if self.writes == 0 {
            return Err(Error::from(ErrorKind::StorageFull));
        }
        self.writes -= 1;
        self.taken.write(buf)
    }

    fn flush(&mut self) -> io::Result<()> {
        Ok(())
    }
}

#[test]
fn a_failed_write_ends_the_script(rt: HostRuntime) {
    let alloc = rt.alloc();
    let mut writer = Failing {
        writes: 1,
        taken: got(&rt, Vec::with_capacity(alloc, 5)),
    };
    let script = b"stations 21\n\ntick 5\ntick 6";
    let ran = run_script(alloc, &mut script.as_slice(), &mut writer);
    let fault = ran.fault.expect(&rt, "a fault");
    if fault.cause != Cause::OutOfMemory && !ran.memory_refused {
        same(&rt, fault.cause, Cause::WriteFailed);
        same(&rt, ran.status(), 1);
        let told = got(&rt, fault_line(alloc, fault));
        same(&rt, told.as_str(), "write failed");
        same(&rt, writer.taken.as_slice(), b"done\n".as_slice());
    }
}

/// Gives a line only if all replies to the lines before were flushed.
#[derive(Drop)]
struct Asking<'a> {
    text: &'a [u8],
    owed: &'a Cell<u64>,
}

impl Read for Asking<'_> {
    fn read(&mut self, buf: &mut [u8]) -> io::Result<usize> {
        if self.owed.get() > 0 {
            return Err(Error::from(ErrorKind::Other));
        }
        let Some((byte, rest)) = self.text.split_first() else {
            return Ok(0);
        };
        let Some(place) = buf.first_mut() else {
            return Ok(0);
        };
        *place = *byte;
        self.text = rest;
        if *byte == b'\n' {
            self.owed.set(1);
        }
        Ok(1)
    }
}

/// Counts a flush as the reply that is owed.
#[derive(Drop)]
struct Answering<'a> {
    owed: &'a Cell<u64>,
}

impl Write for Answering<'_> {
    fn write(&mut self, buf: &[u8]) -> io::Result<usize> {
        Ok(buf.len())
    }

    fn flush(&mut self) -> io::Result<()> {
        self.owed.set(0);
        Ok(())
    }
}

#[test]
fn a_reply_is_flushed_before_the_next_line_is_read(rt: HostRuntime) {
    let owed = Cell::new(0);
    let asking = Asking {
        text: b"stations 21\ntick 5\ntick 6\n",
        owed: &owed,
    };
    let mut reader = got(&rt, BufReader::new(rt.alloc(), asking));
    let mut writer = Answering { owed: &owed };
    let ran = run_script(rt.alloc(), &mut reader, &mut writer);
    let refused = ran
        .fault
        .is_some_and(|fault| fault.cause == Cause::OutOfMemory);
    holds(&rt, refused || ran.fault.is_none());
}
