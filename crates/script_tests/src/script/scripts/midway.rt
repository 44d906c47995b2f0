//! A read or a write that fails once in the middle of a script: what was printed until then stays, and nothing is printed from then on.
use crate::checks::{got, holds, same};
use bus_script::{Cause, Ran, run_script};
use std::alloc::{AllocError, Global};
use std::io;
use std::io::{BufReader, Error, ErrorKind, Read, Write};

/// A vector with room for what is written to it, so that no write to it fails.
fn roomy(alloc: Global) -> Result<Vec<u8>, AllocError> {
    let mut bytes = Vec::new(alloc);
    if bytes.reserve(64).is_err() {
        bytes.reserve(64)?;
    }
    Ok(bytes)
}

/// Whether memory was refused, so that the run is to be made again.
fn found_no_memory(ran: &Ran) -> bool {
    ran.memory_refused
        || ran
            .fault
            .is_some_and(|fault| fault.cause == Cause::OutOfMemory)
}

/// Four lines; the third begins at byte 19.
const LINES: &[u8] = b"stations 21\ntick 5\ntick 6\ntick 7\n";

/// Gives a byte at a time; one read fails, and those after it don't.
#[derive(Drop)]
struct FailsOnce<'a> {
    text: &'a [u8],
    reads_before: u64,
    has_failed: bool,
    kind: ErrorKind,
}

impl Read for FailsOnce<'_> {
    fn read(&mut self, buf: &mut [u8]) -> io::Result<usize> {
        if self.reads_before == 0 && !self.has_failed {
            self.has_failed = true;
            return Err(Error::from(self.kind));
        }
        let Some((byte, rest)) = self.text.split_first() else {
            return Ok(0);
        };
        let Some(place) = buf.first_mut() else {
            return Ok(0);
        };
        *place = *byte;
        self.text = rest;
        self.reads_before = self.reads_before.saturating_sub(1);
        Ok(1)
    }
}

/// The lines, a byte at a time, of which the read behind so many fails.
fn lines_failing(
    alloc: Global,
    reads_before: u64,
    kind: ErrorKind,
) -> io::Result<BufReader<FailsOnce<'static>, Global>> {
    let failing = FailsOnce {
        text: LINES,
        reads_before,
        has_failed: false,
        kind,
    };
    BufReader::new(alloc, failing)
}

/// The lines, a byte at a time, so that what each prints is flushed before the next one is read.
fn slow_lines(alloc: Global) -> io::Result<BufReader<FailsOnce<'static>, Global>> {
    lines_failing(alloc, u64::MAX, ErrorKind::Other)
}

/// Runs the lines with one read that fails, and again if memory was refused.
fn run_failing(alloc: Global, reads_before: u64, kind: ErrorKind, out: &mut Vec<u8>) -> Ran {
    for _ in 0..2 {
        out.clear();
        let Ok(mut reader) = lines_failing(alloc, reads_before, kind) else {
            continue;
        };
        let ran = run_script(alloc, &mut reader, out);
        if !found_no_memory(&ran) {
            return ran;
        }
    }
    Ran {
        fault: None,
        memory_refused: true,
    }
}

#[test]
fn nothing_is_printed_after_a_failed_read(rt: HostRuntime) {
    let alloc = rt.alloc();
    let mut out = got(&rt, roomy(alloc));
    for reads_before in [19, 22, 25] {
        let ran = run_failing(alloc, reads_before, ErrorKind::Other, &mut out);
        let told = ran.fault.expect(&rt, "a fault");
        same(&rt, told.line, 3);
        same(&rt, told.cause, Cause::ReadFailed);
        same(&rt, ran.status(), 1);
        same(&rt, out.as_slice(), b"done\ndone\n".as_slice());
    }
}

#[test]
fn an_interrupted_read_is_made_again(rt: HostRuntime) {
    let alloc = rt.alloc();
    let mut out = got(&rt, roomy(alloc));
    let ran = run_failing(alloc, 22, ErrorKind::Interrupted, &mut out);
    holds(&rt, ran.fault.is_none());
    same(&rt, out.as_slice(), b"done\ndone\ndone\ndone\n".as_slice());
}

/// Holds what was written; one write or one flush fails, and those after it don't.
#[derive(Drop)]
struct RefusesOnce {
    writes: u64,
    flushes: u64,
    refused_write: u64,
    refused_flush: u64,
    taken: Vec<u8>,
}

impl Write for RefusesOnce {
    fn write(&mut self, buf: &[u8]) -> io::Result<usize> {
        self.writes = self.writes.saturating_add(1);
        if self.writes == self.refused_write {
            return Err(Error::from(ErrorKind::StorageFull));
        }
        self.taken.write(buf)
    }

    fn flush(&mut self) -> io::Result<()> {
        self.flushes = self.flushes.saturating_add(1);
        if self.flushes == self.refused_flush {
            return Err(Error::from(ErrorKind::StorageFull));
        }
        Ok(())
    }
}

/// Runs the lines with one write or flush that fails, and again if memory was refused.
fn run_refused(alloc: Global, write: u64, flush: u64) -> io::Result<(Ran, RefusesOnce)> {
    let mut reader = slow_lines(alloc)?;
    let mut writer = RefusesOnce {
        writes: 0,
        flushes: 0,
        refused_write: write,
        refused_flush: flush,
        taken: roomy(alloc)?,
    };
    let mut ran = run_script(alloc, &mut reader, &mut writer);
    if found_no_memory(&ran) {
        writer.writes = 0;
        writer.flushes = 0;
        writer.taken.clear();
        let mut reader = slow_lines(alloc)?;
        ran = run_script(alloc, &mut reader, &mut writer);
    }
    Ok((ran, writer))
}

#[test]
fn nothing_is_written_after_a_failed_write(rt: HostRuntime) {
    let alloc = rt.alloc();
    for (write, flush, taken) in [(2, 0, "done\n"), (0, 2, "done\ndone\n")] {
        let (ran, writer) = got(&rt, run_refused(alloc, write, flush));
        let told = ran.fault.expect(&rt, "a fault");
        same(&rt, told.cause, Cause::WriteFailed);
        same(&rt, ran.status(), 1);
        same(&rt, writer.writes, 2);
        same(&rt, writer.taken.as_slice(), taken.as_bytes());
    }
}
