//! The threads of two segments, and the relay between them.

use crate::carrying::{Account, Carrying, carry};
use crate::crews::{Crew, Crews};
use crate::known::Known;
use crate::pacing::{Numbered, RelayPace};
use script_runs::Lost;
use segment_threads::{
    Board, Ends, Gate, Pace, Party, Running, SharedSegment, gather, spawn_segment, watch,
};
use std::alloc::{AllocError, Global};
use std::sync::Wait;
use std::sync::atomic::Ordering;
use std::thread;
use std::thread::{JoinHandle, Scope, Threads};

/// What the threads of both segments hand back, what the relay did, and whether both buses are drained.
#[derive(Drop)]
pub(crate) struct Handed {
    pub(crate) near: Ends,
    pub(crate) far: Ends,
    pub(crate) carried: Option<Account>,
    pub(crate) drained: bool,
}

// What all threads of a run share: both segments, the pace of the workers of each, and that of the relay.
#[derive(Drop)]
struct Course<'a, G> {
    here: Party<'a>,
    there: Party<'a>,
    near: &'a Pace<'a, Numbered<'a, 'a, G>>,
    far: &'a Pace<'a, Numbered<'a, 'a, G>>,
    relay: &'a RelayPace<'a, 'a, G>,
    turns: u64,
}

// The threads of a segment, and room for what they hand back.
#[derive(Drop)]
struct Spawned {
    running: Running,
    room: Ends,
}

// All threads but the relay's.
#[derive(Drop)]
struct AllSpawned {
    watching: JoinHandle<bool>,
    near: Spawned,
    far: Spawned,
}

// Relays, if there is a passage. If it can't, all are to end.
fn carry_or_end<R: Threads + Wait + Sync, G: Gate + Sync>(
    rt: &R,
    alloc: Global,
    carrying: Option<Carrying>,
    course: &Course<'_, G>,
) -> Result<Option<Account>, Lost> {
    let Some(carrying) = carrying else {
        return Ok(None);
    };
    let board = course.relay.board;
    match carry(rt, alloc, carrying, board, course.relay, course.turns) {
        Ok(carried) => Ok(Some(Account::of(carried))),
        Err(error) => {
            board
                .ended
                .fetch_add(course.relay.workers, Ordering::SeqCst);
            Err(error)
        }
    }
}

// Watches both segments until all have ended.
fn watch_both<R: Threads + Wait + Sync, G: Gate + Sync>(rt: &R, course: &Course<'_, G>) -> bool {
    let parties = [course.here, course.there];
    watch(rt, parties.as_slice(), course.near)
}

fn spawn_side<'s, E, R: Threads + Wait + Sync, G: Gate + Sync>(
    scope: &Scope<'s, E>,
    rt: &'s R,
    alloc: Global,
    crew: Crew,
    party: Party<'s>,
    pace: &'s Pace<'s, G>,
    turns: u64,
) -> Result<Spawned, AllocError> {
    let Crew { senders, inboxes } = crew;
    let room = Ends::with_room(alloc, senders.len(), inboxes.len())?;
    let running = spawn_segment(scope, rt, alloc, party, senders, inboxes, pace, turns)?;
    Ok(Spawned { running, room })
}

// The threads of both segments, and one that watches.
fn spawn_all<'s, E, R: Threads + Wait + Sync, G: Gate + Sync>(
    scope: &Scope<'s, E>,
    rt: &'s R,
    alloc: Global,
    near: Crew,
    far: Crew,
    course: &'s Course<'s, G>,
) -> Result<AllSpawned, AllocError> {
    let turns = course.turns;
    let watching = scope.spawn(move || watch_both(rt, course))?;
    let near = spawn_side(scope, rt, alloc, near, course.here, course.near, turns)?;
    let far = spawn_side(scope, rt, alloc, far, course.there, course.far, turns)?;
    Ok(AllSpawned {
        watching,
        near,
        far,
    })
}

// `spawn_all`, in which none begins before all are made: if one can't be made, the others end at once, so that nobody waits for it.
fn spawn_at_once<'s, E, R: Threads + Wait + Sync, G: Gate + Sync>(
    scope: &Scope<'s, E>,
    rt: &'s R,
    alloc: Global,
    near: Crew,
    far: Crew,
    course: &'s Course<'s, G>,
) -> Result<AllSpawned, AllocError> {
    let mut made = course.near.board.made.lock(rt);
    let spawned = spawn_all(scope, rt, alloc, near, far, course)?;
    *made = true;
    Ok(spawned)
}

fn gathered<R: Threads>(rt: &R, spawned: Spawned) -> Result<Ends, AllocError> {
    let Spawned { running, room } = spawned;
    gather(rt, room, running)
}

// Waits for the threads.
fn hand_back<R: Threads>(
    rt: &R,
    spawned: AllSpawned,
    carried: Option<Account>,
) -> Result<Handed, AllocError> {
    let AllSpawned {
        watching,
        near,
        far,
    } = spawned;
    let near = gathered(rt, near)?;
    let far = gathered(rt, far)?;
    Ok(Handed {
        near,
        far,
        carried,
        drained: watching.join(rt),
    })
}

// Runs the threads of two segments, and on this one the relay.
fn run_crews<'s, E, R: Threads + Wait + Sync, G: Gate + Sync>(
    scope: &Scope<'s, E>,
    rt: &'s R,
    alloc: Global,
    crews: Crews,
    course: &'s Course<'s, G>,
) -> Result<Handed, Lost> {
    let Crews {
        near,
        far,
        carrying,
    } = crews;
    let spawned = spawn_at_once(scope, rt, alloc, near, far, course)?;
    let carried = carry_or_end(rt, alloc, carrying, course)?;
    let handed = hand_back(rt, spawned, carried)?;
    Ok(handed)
}

fn in_threads<R: Threads + Wait + Sync, G: Gate + Sync>(
    rt: &R,
    alloc: Global,
    crews: Crews,
    course: &Course<'_, G>,
) -> Result<Handed, Lost> {
    thread::scope(
        thread::scope_env(),
        rt,
        move |scope| -> Result<Handed, Lost> { run_crews(scope, rt, alloc, crews, course) },
    )
}

// The number of the worker behind so many, or the last number if there are too many.
fn number_behind(workers: u64) -> u8 {
    if workers > 255 {
        return 255;
    }
    workers as u8
}

// How many threads submit, work and relay, over both segments.
#[derive(Clone, Copy)]
struct Counts {
    senders: u64,
    workers: u64,
    relays: u64,
}

impl Counts {
    fn of(crews: &Crews, known: &Known) -> Counts {
        let senders = crews
            .near
            .senders
            .len()
            .saturating_add(crews.far.senders.len());
        let stations = known
            .near
            .stations
            .len()
            .saturating_add(known.far.stations.len());
        Counts {
            senders: senders as u64,
            workers: (stations as u64).saturating_add(2),
            relays: if crews.carrying.is_some() { 1 } else { 0 },
        }
    }
}

/// Runs two segments by threads at one pace, which no worker of either is ahead of, with a relay if there is one. Crews that weren't
/// made end it at once.
pub(crate) fn run_shared<R: Threads + Wait + Sync, G: Gate + Sync>(
    rt: &R,
    alloc: Global,
    near: &SharedSegment,
    far: &SharedSegment,
    crews: Result<Crews, Lost>,
    known: &Known,
    gate: &G,
    turns: u64,
) -> Result<Handed, Lost> {
    let crews = crews?;
    let counts = Counts::of(&crews, known);
    let here = Party {
        shared: near,
        stations: known.near.stations.as_slice(),
    };
    let there = Party {
        shared: far,
        stations: known.far.stations.as_slice(),
    };
    run_parties(rt, alloc, here, there, crews, counts, gate, turns)
}

fn run_parties<'a, R: Threads + Wait + Sync, G: Gate + Sync>(
    rt: &R,
    alloc: Global,
    here: Party<'a>,
    there: Party<'a>,
    crews: Crews,
    counts: Counts,
    gate: &'a G,
    turns: u64,
) -> Result<Handed, Lost> {
    let board = Board::new();
    let near_gate = Numbered {
        gate,
        stations: here.stations,
        first: 0,
    };
    let far_gate = Numbered {
        gate,
        stations: there.stations,
        first: number_behind((here.stations.len() as u64).saturating_add(1)),
    };
    let relay = RelayPace {
        gate,
        board: &board,
        workers: counts.workers,
        first: number_behind(counts.workers),
    };
    let near = Pace {
        gate: &near_gate,
        board: &board,
        senders: counts.senders,
        workers: counts.workers,
        relays: counts.relays,
    };
    let far = Pace {
        gate: &far_gate,
        ..near
    };
    let course = Course {
        here,
        there,
        near: &near,
        far: &far,
        relay: &relay,
        turns,
    };
    in_threads(rt, alloc, crews, &course)
}
