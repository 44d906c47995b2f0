//! A script run by threads.
ghost use Rattle.std.specs.Prelude.{IfSome, IfOk};
ghost use Rattle.script_segments.specs.Plan.{plan_of};
ghost use Rattle.bus_live.specs.Ending.{CameOf, CameTo, Ended, planned};

use pgn_ids::Address;
use script_runs::{LiveRan, Lost, Told, read_script, tell_refused, tell_run};
use script_segments::{Names, Setup, names_of, text_of};
use segment_threads::{
    Board, Ends, Gate, Inbox, Live, Pace, Party, Sender, SharedSegment, finish, gather, senders_of,
    spawn_segment, watch,
};
use std::alloc::{AllocError, Global};
use std::io::{BufRead, Write};
use std::sync::Wait;
use std::thread;
use std::thread::Threads;

// The threads of the segment, and one that watches. None begins before all are made: if one can't be made, the others end at once,
// so that nobody waits for it. Returns what they hand back, and whether the bus is drained.
fn in_threads<R: Threads + Wait + Sync, G: Gate + Sync>(
    rt: &R,
    alloc: Global,
    party: Party<'_>,
    senders: Vec<Sender>,
    inboxes: Vec<Inbox>,
    pace: &Pace<'_, G>,
    turns: u64,
) -> Result<(Ends, bool), AllocError> {
    let board = pace.board;
    let room = Ends::with_room(alloc, senders.len(), inboxes.len())?;
    let parties = [party];
    let watched = parties.as_slice();
    thread::scope(
        thread::scope_env(),
        rt,
        move |scope| -> Result<(Ends, bool), AllocError> {
            let mut made = board.made.lock(rt);
            let watching = scope.spawn(move || watch(rt, watched, pace))?;
            let running = spawn_segment(scope, rt, alloc, party, senders, inboxes, pace, turns)?;
            *made = true;
            drop(made);
            let ends = gather(rt, room, running)?;
            Ok((ends, watching.join(rt)))
        },
    )
}

// The threads of what was set up, unless it has no clients for them.
fn run_shared<R: Threads + Wait + Sync, G: Gate + Sync>(
    rt: &R,
    alloc: Global,
    shared: &SharedSegment,
    stations: &[Address],
    senders: Result<Vec<Sender>, Lost>,
    inboxes: Vec<Inbox>,
    gate: &G,
    turns: u64,
) -> Result<(Ends, bool), Lost> {
    let senders = senders?;
    let board = Board::new();
    let pace = Pace {
        gate,
        board: &board,
        senders: stations.len() as u64,
        workers: (stations.len() as u64).saturating_add(1),
        relays: 0,
    };
    let party = Party { shared, stations };
    let handed = in_threads(rt, alloc, party, senders, inboxes, &pace, turns)?;
    Ok(handed)
}

// Reports on the clients and inboxes, and returns the text of what the threads left.
fn tell_end(
    alloc: Global,
    live: &mut Live,
    handed: Result<(Ends, bool), Lost>,
    names: &Names,
) -> Result<Told, Lost>
    ensures { IfOk result (λ told. CameOf names.now told) }
{
    let (ends, drained) = handed?;
    let Ends { clients, inboxes } = ends;
    if let Err(refused) = finish(live, clients, inboxes) {
        if refused.not_this_segment {
            return Err(Lost::NotThisSegment);
        }
        return Err(Lost::OutOfMemory);
    }
    let stations = names.stations.as_slice();
    let ports = names.ports.as_slice();
    let messages = names.messages.as_slice();
    let told = text_of(alloc, live, stations, ports, messages, drained)?;
    Ok(told)
}

// Runs a segment. What ends the run early is looked at behind it, since each way out drops the segment, which the proof pays for.
fn run_segment<R: Threads + Wait + Sync, G: Gate + Sync>(
    rt: &R,
    alloc: Global,
    live: Live,
    inboxes: Vec<Inbox>,
    names: &Names,
    gate: &G,
    turns: u64,
) -> Result<Told, Lost>
    ensures { IfOk result (λ told. CameOf names.now told) }
{
    let mut live = live;
    let stations = names.stations.as_slice();
    let senders = senders_of(alloc, &mut live, stations, names.messages.as_slice());
    let shared = SharedSegment::share(live);
    let handed = run_shared(rt, alloc, &shared, stations, senders, inboxes, gate, turns);
    let mut live = shared.into_live();
    tell_end(alloc, &mut live, handed, names)
}

// Runs what was set up with these names.
fn run_named<R: Threads + Wait + Sync, G: Gate + Sync>(
    rt: &R,
    alloc: Global,
    setup: Setup,
    names: &Names,
    gate: &G,
    turns: u64,
) -> Result<Told, Lost>
    ensures { IfOk result (λ told. CameOf names.now told) }
{
    let Setup {
        live,
        inboxes,
        sends: _,
        messages: _,
        refused: _,
    } = setup;
    let Some(live) = live else {
        return Err(Lost::NotThisSegment);
    };
    run_segment(rt, alloc, live.into_live(), inboxes, names, gate, turns)
}

// Runs what was set up, if there are stations.
fn run<R: Threads + Wait + Sync, G: Gate + Sync>(
    rt: &R,
    alloc: Global,
    setup: Setup,
    gate: &G,
    turns: u64,
) -> Result<Told, Lost>
    ensures { IfOk result (λ told. CameTo (plan_of setup) told.ran_out told.text.items) }
{
    let mut setup = setup;
    let Some(names) = names_of(alloc, &mut setup)? else {
        return Ok(Told {
            text: Vec::new(alloc),
            ran_out: false,
        });
    };
    let told = run_named(rt, alloc, setup, &names, gate, turns)?;
    Ok(told)
}

/// Reads a script of `stations`, `open` and `send` lines, runs it by threads, each worker with at most so many turns, and writes
/// what the ports were given and how the messages ended.
///
/// The lines that are refused are written before the threads run. At a fault of the script nothing else is written, and the fault
/// is returned. Otherwise the text that follows is exactly the stated text of a record of calls on a segment of the script's
/// stations, for which the headline holds. It has the script's ports by rising station and number, each with what that record gives
/// to it, by rising sender and destination; then the outcomes by rising sender, destination and number, and whether the turns ran
/// out. Unless they did, each message of the script has its outcome there. If a read or a write failed or memory was refused, a
/// front of that was written.
///
/// Nothing is promised about which calls the threads make.
pub fn run_live<T: Threads + Wait + Sync, R: BufRead, W: Write, G: Gate + Sync>(
    rt: &T,
    alloc: Global,
    reader: &mut R,
    writer: &mut W,
    gate: &G,
    turns: u64,
) -> LiveRan
    ensures { IfSome (R.remaining reader.old) (λ script. Ended result (W.contents writer.old) (W.contents writer.new) (planned script)) }
{
    let mut setup = Setup::new(alloc);
    let read = read_script(alloc, reader, &mut setup);
    if let Some(ran) = tell_refused(writer, setup.refused.as_slice(), read) {
        return ran;
    }
    tell_run(writer, run(rt, alloc, setup, gate, turns))
}
