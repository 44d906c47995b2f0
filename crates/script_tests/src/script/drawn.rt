//! Scripts and logs that are drawn, and readers and writers that fail.
use crate::checks::{got, holds, same};
use crate::readers::Breaking;
use line_faults::Cause;
use log_drawing::{Drawn, Options, draw_log};
use script_drawing::draw_script;
use std::alloc::Global;
use std::io;
use std::io::{BufRead, BufReader, Error, ErrorKind, Write};
use std::process::Abort;

const BROADCAST: &str = "stations 35 21\n\
open 35 FECA 1785\n\
send 21 FF FECA 010203040506070809\n\
drive 21 FF 3\n\
inject 18FEF100 0102\n";

/// Refuses each write.
#[derive(Drop)]
struct Full {}

impl Write for Full {
    fn write(&mut self, _buf: &[u8]) -> io::Result<usize> {
        Err(Error::from(ErrorKind::StorageFull))
    }

    fn flush(&mut self) -> io::Result<()> {
        Ok(())
    }
}

#[test]
fn a_write_that_fails_ends_a_drawing(rt: HostRuntime) {
    let mut reader = BROADCAST.as_bytes();
    let ran = draw_script(rt.alloc(), &mut reader, &mut Full {});
    holds(&rt, ran.fault.is_some_and(|fault| fault.line == 1));
    same(&rt, ran.status(), 1);
}

const LOG: &str = "(1.000000) can0 1CECFF21#20090002FFCAFE00\n\
(1.010000) can0 1CEBFF2\n\
(1.050000) can0 1CEBFF21#0101020304050607\n";

const ANNOUNCED: &str =
    "sequenceDiagram\n  21->>all: (0000000001.000000) BAM 9 bytes in 2 packets\n";

/// A log whose frames are all drawn.
fn draw<R: BufRead, W: Write, E: Write>(
    alloc: Global,
    reader: &mut R,
    writer: &mut W,
    errors: &mut E,
) -> Drawn {
    let options = Options {
        pair: None,
        from: None,
        to: None,
        iface: None,
        others: false,
        strict: false,
    };
    draw_log(alloc, &options, reader, writer, errors)
}

/// Ends the test if the drawing didn't end so. It may find no memory before, and false is returned then.
fn ended_by(rt: &impl Abort, drawn: &Drawn, line: u64, cause: Cause) -> bool {
    let fault = drawn.fault.expect(rt, "a fault");
    if fault.cause == Cause::OutOfMemory {
        return false;
    }
    same(rt, fault.cause, cause);
    same(rt, fault.line, line);
    true
}

#[test]
fn a_write_that_fails_ends_the_drawing_of_a_log(rt: HostRuntime) {
    let alloc = rt.alloc();
    let mut told = got(&rt, Vec::with_capacity(alloc, 64));
    let mut reader = LOG.as_bytes();
    let drawn = draw(alloc, &mut reader, &mut Full {}, &mut told);
    same(&rt, drawn.status(), 1);
    if ended_by(&rt, &drawn, 1, Cause::WriteFailed) {
        holds(&rt, told.is_empty());
    }
}

#[test]
fn a_wrong_line_that_cannot_be_told_ends_the_drawing_of_a_log(rt: HostRuntime) {
    let alloc = rt.alloc();
    let mut text = got(&rt, Vec::with_capacity(alloc, 128));
    let mut reader = LOG.as_bytes();
    let drawn = draw(alloc, &mut reader, &mut text, &mut Full {});
    if ended_by(&rt, &drawn, 2, Cause::WriteFailed) {
        holds(&rt, text.as_slice() == ANNOUNCED.as_bytes());
    }
}

#[test]
fn a_read_that_fails_leaves_out_the_packets_before_it(rt: HostRuntime) {
    let alloc = rt.alloc();
    let mut text = got(&rt, Vec::with_capacity(alloc, 128));
    let mut told = got(&rt, Vec::with_capacity(alloc, 64));
    let broken = Breaking {
        text: LOG.as_bytes(),
    };
    let mut reader = got(&rt, BufReader::new(alloc, broken));
    let drawn = draw(alloc, &mut reader, &mut text, &mut told);
    if ended_by(&rt, &drawn, 4, Cause::ReadFailed) {
        holds(&rt, text.as_slice() == ANNOUNCED.as_bytes());
        holds(
            &rt,
            told.as_slice() == "line 2: not a log line\n".as_bytes(),
        );
    }
}
