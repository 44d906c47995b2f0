//! A script of two segments run by threads.
ghost use Rattle.std.specs.Prelude.{IfSome, IfOk};
ghost use Rattle.script_segments.specs.Plan.{plan_of};
ghost use Rattle.script_segments.specs.Names.{IsNamed};
ghost use Rattle.script_segments.specs.Gateway.{plans_of, planned};
ghost use Rattle.bus_relay.specs.Ending.{CameTo, Ended};
ghost use Rattle.bus_relay.specs.Known.{IsKnown, CameOfKnown};

use crate::crews::crews_of;
use crate::known::Known;
use crate::settling::tell_end;
use crate::threads::run_shared;
use script_runs::{LiveRan, Lost, Told, read_script, tell_refused, tell_run};
use script_segments::{Gateway, Names, Passage, Setup, names_of};
use segment_threads::{Gate, Inbox, Live, SharedSegment};
use std::alloc::Global;
use std::io::{BufRead, Write};
use std::sync::Wait;
use std::thread::Threads;

// Runs two segments, with a relay between them if there is a passage. The early ends are looked at behind them, since each way out drops
// both, which the proof pays for.
fn run_lives<R: Threads + Wait + Sync, G: Gate + Sync>(
    rt: &R,
    alloc: Global,
    near: Live,
    far: Live,
    inboxes: Vec<Inbox>,
    far_inboxes: Vec<Inbox>,
    known: &Known,
    gate: &G,
    turns: u64,
) -> Result<Told, Lost>
    ensures { IfOk result (λ told. CameOfKnown known.now told) }
{
    let mut near = near;
    let mut far = far;
    let crews = crews_of(alloc, &mut near, &mut far, inboxes, far_inboxes, known);
    let near = SharedSegment::share(near);
    let far = SharedSegment::share(far);
    let handed = run_shared(rt, alloc, &near, &far, crews, known, gate, turns);
    let mut near = near.into_live();
    let mut far = far.into_live();
    tell_end(alloc, &mut near, &mut far, handed, known)
}

// `run_lives`, if both segments were made.
fn run_both<R: Threads + Wait + Sync, G: Gate + Sync>(
    rt: &R,
    alloc: Global,
    near: Setup,
    far: Setup,
    known: &Known,
    gate: &G,
    turns: u64,
) -> Result<Told, Lost>
    ensures { IfOk result (λ told. CameOfKnown known.now told) }
{
    let Setup {
        live,
        inboxes,
        sends: _,
        messages: _,
        refused: _,
    } = near;
    let Setup {
        live: far_live,
        inboxes: far_inboxes,
        sends: _,
        messages: _,
        refused: _,
    } = far;
    let (Some(near), Some(far)) = (live, far_live) else {
        return Err(Lost::NotThisSegment);
    };
    let near = near.into_live();
    let far = far.into_live();
    run_lives(
        rt,
        alloc,
        near,
        far,
        inboxes,
        far_inboxes,
        known,
        gate,
        turns,
    )
}

// The names of a segment, which has to be made.
fn named(alloc: Global, setup: &mut Setup) -> Result<Names, Lost>
    ensures { IfOk result (λ names. IsNamed (plan_of setup.old) names) }
{
    match names_of(alloc, setup)? {
        Some(names) => Ok(names),
        None => Err(Lost::NotThisSegment),
    }
}

// The names of both.
fn known_of(
    alloc: Global,
    near: &mut Setup,
    far: &mut Setup,
    passage: Option<Passage>,
) -> Result<Known, Lost>
    ensures { IfOk result (λ known. IsKnown (plan_of near.old) (plan_of far.old) passage known) }
{
    Ok(Known {
        near: named(alloc, near)?,
        far: named(alloc, far)?,
        passage,
    })
}

// Runs what was set up.
fn run<R: Threads + Wait + Sync, G: Gate + Sync>(
    rt: &R,
    alloc: Global,
    gateway: Gateway,
    gate: &G,
    turns: u64,
) -> Result<Told, Lost>
    ensures { IfOk result (λ told. CameTo (plans_of gateway) told.ran_out told.text.items) }
{
    let Gateway {
        before,
        mut here,
        routing,
    } = gateway;
    let Some(mut first) = before else {
        return Err(Lost::NotThisSegment);
    };
    let known = known_of(alloc, &mut first, &mut here, routing.passage())?;
    let told = run_both(rt, alloc, first, here, &known, gate, turns)?;
    Ok(told)
}

/// Reads a script of two segments and a route between them. Runs both by threads, each worker with at most so many turns, and one relay
/// from a port of the first to a station of the second. Writes what the ports of the second were given, what the relay did, and how the
/// messages of both ended.
///
/// The lines that are refused are written before the threads run. At a fault of the script nothing else is written, and the fault is
/// returned. Otherwise the text that follows is exactly the stated text of two records of calls on segments of the script's stations, for
/// each of which the headline holds, and of a relay. The relay received the first messages that the first record gave to the route's port.
/// The second record has, from its client, the first of these, in order, with their PGN and bytes, to the station that the route names.
/// Unless the turns ran out, each message of the first segment has its outcome there, and the relay received as many messages as the
/// script sends to that port, all of which the second record has, with their outcomes. If a read or a write failed or memory was refused,
/// a front of that text was written.
///
/// Nothing is promised about which calls the threads make. The outcome of a message on the first segment says nothing of the second.
///
/// The gate sees the workers by numbers from 0 on: the stations of the first segment in the order of their line, its bus, the stations and
/// the bus of the second, and then the relay's worker that receives and the one that submits.
pub fn run_relay<T: Threads + Wait + Sync, R: BufRead, W: Write, G: Gate + Sync>(
    rt: &T,
    alloc: Global,
    reader: &mut R,
    writer: &mut W,
    gate: &G,
    turns: u64,
) -> LiveRan
    ensures { IfSome (R.remaining reader.old) (λ script. Ended result (W.contents writer.old) (W.contents writer.new) (planned script)) }
{
    let mut gateway = Gateway::new(alloc);
    let read = read_script(alloc, reader, &mut gateway);
    if let Some(ran) = tell_refused(writer, gateway.here.refused.as_slice(), read) {
        return ran;
    }
    tell_run(writer, run(rt, alloc, gateway, gate, turns))
}
