//! How a run ended, and a gate that holds nobody.
use crate::checks::{got, holds, same};
use bus_live::{Cause, Gate, LiveFault, LiveRan};
use std::alloc::Global;
use std::process::Abort;

/// More turns than any of the scripts needs.
pub(crate) const MANY_TURNS: u64 = 1_000_000;

/// Lets each worker pass at once.
#[derive(Drop)]
pub(crate) struct OpenGate {}

impl Gate for OpenGate {
    fn pass(&self, _worker: u8, _turn: u64) {}
}

/// Whether this is why a run ended before its end.
pub(crate) fn ended_by(ran: LiveRan, cause: Cause) -> bool {
    match ran.fault {
        Some(LiveFault::Script(fault)) => fault.cause == cause,
        _ => false,
    }
}

/// A run ended with this status and wrote this text.
pub(crate) fn wrote(rt: &impl Abort, ran: LiveRan, status: u8, text: &[u8], meant: &str) {
    same(rt, ran.status(), status);
    holds(rt, text == meant.as_bytes());
}

/// A run ended at a fault, and this is its line.
pub(crate) fn is_told(rt: &impl Abort, alloc: Global, ran: LiveRan, meant: &str) {
    let fault = got(rt, ran.fault.ok_or("no fault"));
    let line = got(rt, format!(in alloc; "{fault}"));
    same(rt, line.as_str(), meant);
}
