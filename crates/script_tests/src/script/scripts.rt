//! Scripts with their exact text. A run that is refused memory is made again, so that the tests pass whichever one allocation
//! is refused.
mod failing;
mod limits;
mod midway;

use crate::checks::{got, holds, same};
use bus_script::{Cause, Ran, ScriptFault, run_script};
use std::alloc::{AllocError, Global};
use std::process::Abort;

/// Runs a script, and again if memory was refused: the text printed until then may say nothing false.
fn ran(rt: &impl Abort, alloc: Global, script: &[u8], out: &mut Vec<u8>, text: &str) -> Ran {
    let mut reader = script;
    let first = run_script(alloc, &mut reader, out);
    // A vector refuses a write only for want of memory.
    let refused = first.fault.is_some_and(|fault| {
        fault.cause == Cause::OutOfMemory || fault.cause == Cause::WriteFailed
    });
    if refused && !first.memory_refused {
        holds(rt, text.as_bytes().starts_with(out.as_slice()));
    }
    if !refused && !first.memory_refused {
        return first;
    }
    out.clear();
    let mut reader = script;
    run_script(alloc, &mut reader, out)
}

/// A script prints a text, and its fault has this line.
pub(crate) fn shows(rt: &impl Abort, alloc: Global, script: &[u8], text: &str, fault: &str) {
    let mut out = Vec::new(alloc);
    let ran = ran(rt, alloc, script, &mut out, text);
    same(rt, out.as_slice(), text.as_bytes());
    // A run that always reports refused memory promises nothing: this run was refused none.
    holds(rt, !ran.memory_refused);
    match ran.fault {
        None => {
            same(rt, ran.status(), 0);
            same(rt, fault, "");
        }
        Some(told) => {
            same(rt, ran.status(), 1);
            let told = got(rt, fault_line(alloc, told));
            same(rt, told.as_str(), fault);
        }
    }
}

/// The line of a fault, made again if memory was refused.
fn fault_line(alloc: Global, fault: ScriptFault) -> Result<String, AllocError> {
    match format!(in alloc; "{fault}") {
        Ok(line) => Ok(line),
        Err(_) => Ok(format!(in alloc; "{fault}")?),
    }
}

/// The most bytes that a test puts behind those of `many`.
const BEHIND: usize = 8193;

/// So many equal bytes, with room for those that a test puts behind them.
fn many(alloc: Global, byte: u8, count: usize) -> Result<Vec<u8>, AllocError> {
    let mut bytes = Vec::new(alloc);
    let room = count.saturating_add(1 + BEHIND);
    if bytes.reserve(room).is_err() {
        bytes.reserve(room)?;
    }
    bytes.resize(count, byte)?;
    Ok(bytes)
}
