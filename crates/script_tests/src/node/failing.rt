//! Readers and writers that fail, and a wrong line at which memory is refused.
use crate::checks::{got, same};
use crate::readers::Breaking;
use bus_node::{LineCounts, Node, run_node};
use line_faults::Cause;
use log_text::Iface;
use pgn_ids::Address;
use std::alloc::Global;
use std::io;
use std::io::{BufReader, Error, ErrorKind, Write};
use std::process::Abort;

// A node of address 21 on bus0.
fn node(rt: &impl Abort, alloc: Global) -> Node {
    got(rt, Node::new(alloc, Address(0x21), Iface::bus0(), 0))
}

#[test]
fn a_failed_read_ends_the_run(rt: HostRuntime) {
    let alloc = rt.alloc();
    let mut node = node(&rt, alloc);
    let breaking = Breaking {
        text: b"open FECA 9\nco",
    };
    let mut reader = got(&rt, BufReader::new(alloc, breaking));
    let mut out = got(&rt, Vec::with_capacity(alloc, 64));
    let ran = run_node(alloc, &mut node, &mut reader, &mut out);
    let fault = ran.fault.expect(&rt, "a fault");
    if fault.cause != Cause::OutOfMemory && !ran.memory_refused {
        same(&rt, fault.cause, Cause::ReadFailed);
        same(&rt, fault.line, 2);
        same(&rt, ran.status(), 1);
        same(&rt, out.as_slice(), b"opened 21.1\n".as_slice());
    }
}

/// Takes no write.
#[derive(Drop)]
struct Refusing;

impl Write for Refusing {
    fn write(&mut self, _buf: &[u8]) -> io::Result<usize> {
        Err(Error::from(ErrorKind::StorageFull))
    }

    fn flush(&mut self) -> io::Result<()> {
        Ok(())
    }
}

#[test]
fn a_failed_write_ends_the_run(rt: HostRuntime) {
    let alloc = rt.alloc();
    let mut node = node(&rt, alloc);
    let ran = run_node(alloc, &mut node, &mut b"\ncounts".as_slice(), &mut Refusing);
    let fault = ran.fault.expect(&rt, "a fault");
    if fault.cause != Cause::OutOfMemory && !ran.memory_refused {
        same(&rt, fault.cause, Cause::WriteFailed);
        same(&rt, fault.line, 2);
    }
}

#[test]
fn a_wrong_line_is_passed_over(rt: HostRuntime) {
    let alloc = rt.alloc();
    let mut node = node(&rt, alloc);
    let mut out = got(&rt, Vec::with_capacity(alloc, 64));
    let ran = run_node(alloc, &mut node, &mut b"\nstop\n".as_slice(), &mut out);
    if let Some(fault) = ran.fault {
        same(&rt, fault.cause, Cause::OutOfMemory);
        return;
    }
    if !ran.memory_refused {
        same(&rt, ran.counts, LineCounts { lines: 2, wrong: 1 });
        same(&rt, ran.status(), 1);
        same(&rt, out.as_slice(), b"line 2: unknown command\n".as_slice());
    }
}
