//! The incoming sessions of a station.
ghost use Rattle.std.specs.Prelude.{◌≡◌, ℕ, ◌<◌, ◌-◌, ◌++◌, ◌==◌, Some, None, [], IfOk, IfErr, OnOk, OnErr, length, true, option_to_list};
ghost use Rattle.std.specs.Bool.{OnTrue, OnFalse};
ghost use Rattle.std.specs.Option.{option_map};
ghost use Rattle.std.specs.FinMap as map;
ghost use Rattle.std.specs.Map.Iter.{deref_pair};
ghost use Rattle.session_table.specs.Sessions.{state_at};
ghost use Rattle.session_table.specs.DueOrder.{first_due};
ghost use Rattle.session_table.specs.declared.TheConstants.{MAX_SESSIONS};
ghost use Rattle.station_sessions.specs.Steps.{completes as completes_at, size_of};
ghost use Rattle.tp_wire.specs.declared.wire.Kind.{Kind};
ghost use Rattle.tp_wire.specs.declared.wire.Wire.TheVariants.{Packet};
ghost use Rattle.tx_queue.specs.Queue.{queue_limit};
ghost use Rattle.station_sessions.specs.Memory.{wants_memory, fires_wanting};
ghost use Rattle.station_sessions.specs.Sources.{HasNoneBetween};
ghost use Rattle.station_sessions.specs.Receiving.{Leaves, LeavesQuietly, flow_at, received, fired_at, aborted_at, unbound_at, wanted_by};
ghost use Rattle.station_sessions.specs.Ends.{IsFlowOf, IsGivenAtSeveral, IsLastAt, completes_by, ended_by};

mod due;
mod image;
mod opening;
mod sources;

use crate::concluding::{conclude, enqueue_option};
use crate::copies::make_copies;
use bus_frame::Frame;
pub use image::ReceiversImage;
use message_events::Events;
use pgn_ids::WirePgn;
use port_table::{PortSet, PortTable};
use responder::{Flow, Left};
use session_table::{Incoming, Key, OpenRefused, SessionTable};
use std::alloc::{AllocError, Global};
use std::marker::Model;
use tp_wire::{AbortReason, Wire};
use tx_queue::TxQueue;

pub(crate) type Table = SessionTable<PortSet>;

/// The incoming sessions of a station by source and kind, at most 32, each with the ports that it gives to: those that its opening
/// found, less those that were closed since.
///
/// If they are dropped, what is under way ends without a frame.
pub struct Receivers {
    alloc: Global,
    table: Table,
}

impl Model for Receivers {
    ghost use Rattle.std.specs.Prelude.{List, ℕ};
    ghost use Rattle.std.specs.Coded.{coded_list, coded_ℕ};
    ghost use Rattle.session_table.specs.Sessions.{Sessions, sessions_code};

    ghost Value = { Sessions (List ℕ) };

    ghost coded = { sessions_code (coded_list coded_ℕ) };

    ghost use Rattle.station_sessions.specs.Receiving.{NoneHeld};

    ghost view = { λ r. r.table };

    ghost invariant = { λ r. NoneHeld r.table };
}

impl Drop for Receivers {
    fn drop(self) {
        let Receivers { alloc: _, table: _ } = self;
    }
}

/// Whether a session that gives to a set of ports may grant packets: it is held while one of them is paused.
#[inline]
pub fn flow(ports: &PortTable, set: &PortSet) -> Flow
    ensures { result ≡ flow_at ports.now set.now }
{
    if ports.any_paused(set) {
        Flow::Held
    } else {
        Flow::Open
    }
}

impl Receivers {
    /// No session. It takes no memory.
    #[tactic(auto, using(crate::proofs::SessionMaps::session_maps))]
    pub fn new(alloc: Global) -> Receivers
        ensures { result ≡ map.empty }
    {
        Receivers {
            alloc,
            table: SessionTable::new(alloc),
        }
    }

    /// Whether there is no session.
    pub fn is_empty(&self) -> bool
        ensures value { result ≡ (map.len self.now == 0) }
        ensures none { OnTrue result (HasNoneBetween self.now 0 256) }
    {
        self.table.is_empty()
    }

    /// How many sessions there are beside that of a key.
    #[tactic(auto, using(crate::proofs::SessionMaps::session_lens))]
    pub fn others(&self, key: Key) -> usize
        ensures { result ≡ map.len (map.remove self.now key) }
    {
        if self.table.contains(key) {
            self.table.len().saturating_sub(1)
        } else {
            self.table.len()
        }
    }

    /// Opens a session in the place of an older one of its key, which ends without a frame, if there are fewer than 32 others
    /// (`others`). It takes memory only if there is no older one, and want of it changes nothing.
    // Always inlined, since it takes a state and a set by value.
    #[inline(always)]
    #[tactic(auto, using(crate::proofs::SessionMaps::session_maps))]
    pub fn put(&mut self, key: Key, set: PortSet, state: Incoming) -> Result<(), AllocError>
        requires { map.len (map.remove self.old key) < MAX_SESSIONS }
        ensures ok { OnOk result (self.new ≡ map.insert self.old key (Some (set, state))) }
        ensures err { OnErr result (self.new ≡ self.old) }
        ensures no_older { IfErr result (λ _. state_at self.old key ≡ None) }
    {
        match self.table.take_out(key) {
            Some((held, _set, older)) => {
                older.overrun();
                self.table.put_back(held, set, state);
                Ok(())
            }
            None => match self.table.open(key, set, state) {
                Ok(()) => Ok(()),
                Err(OpenRefused::TableFull(_set, state)) => {
                    state.overrun();
                    unreachable!()
                }
                Err(OpenRefused::OutOfMemory(_set, state)) => {
                    state.overrun();
                    Err(AllocError)
                }
            },
        }
    }

    /// Ends the session of a key without a frame; without one nothing is done.
    #[tactic(auto, using(crate::proofs::SessionMaps::session_maps))]
    pub fn end(&mut self, key: Key)
        ensures { self.new ≡ map.remove self.old key }
    {
        if let Some((_set, state)) = self.table.remove(key) {
            state.overrun();
        }
    }

    /// Takes an abort with this PGN field: it ends the session of its key, if that has this PGN.
    #[tactic(auto, using(crate::proofs::SessionMaps::session_maps))]
    pub fn abort(&mut self, key: Key, pgn: WirePgn)
        ensures { self.new ≡ aborted_at key pgn self.old }
    {
        let Some((held, set, state)) = self.table.take_out(key) else {
            return;
        };
        if state.pgn().clean() == pgn.clean() {
            state.overrun();
            self.table.end(held);
        } else {
            self.table.put_back(held, set, state);
        }
    }

    /// Frames were missed: each session ends without a frame.
    #[tactic(auto, using(crate::proofs::SessionMaps::session_maps))]
    pub fn overrun(&mut self)
        ensures { self.new ≡ map.empty }
    {
        *self = Receivers::new(self.alloc);
    }

    /// The session of a key, with the ports that it gives to.
    pub fn get(&self, key: Key) -> Option<(&PortSet, &Incoming)>
        ensures { option_map deref_pair result ≡ state_at self.now key }
    {
        self.table.get(key)
    }

    /// The first session whose timer is due at tick `now`: by source, then broadcasts first and ETP last.
    pub fn next_due(&self, now: u64) -> Option<Key>
        ensures { result ≡ first_due self.now now }
    {
        self.table.next_due(now)
    }

    /// The ports that the session of a key would give to at the step with this frame, and the size of the message in bytes; no port
    /// and 0 if it would give nothing.
    pub fn wants(&self, key: Key, wire: &Wire<'_>) -> (PortSet, u32)
        ensures { result ≡ wanted_by (state_at self.now key) wire.now }
    {
        match self.table.get(key) {
            Some((set, state)) if completes(state, wire) => (*set, size(state)),
            _ => (PortSet::empty(), 0),
        }
    }

    /// A frame of its source is taken at tick `now` by the session of a key; without one nothing is done (SAE J1939-21,
    /// TP.DT; ISO 11783-3, ETP.DT, ETP.CM_DPO). `room` says whether there is room for the next window; without room a connection
    /// ends by an abort.
    ///
    /// If the frame completes the message, this returns true, and nothing has changed yet: `complete` does what is left to do. So
    /// who has to find places for a message first looks at its frame once.
    ///
    /// What it answers is queued behind the frames of a queue. All memory is taken first: want of it changes nothing. It is asked
    /// for only with room, for a window of ETP.
    // Always inlined, and what ends a session out of line: so a packet in the middle of a message passes without a call.
    #[inline(always)]
    pub fn receive(
        &mut self,
        ports: &PortTable,
        key: Key,
        wire: &Wire<'_>,
        room: bool,
        now: u64,
        queue: &mut TxQueue,
    ) -> Result<bool, AllocError>
        requires place { length queue.old < queue_limit }
        ensures value { IfOk result (λ is_whole. is_whole ≡ completes_by (state_at self.old key) wire.now) }
        ensures part { IfOk result (λ is_whole. OnFalse is_whole (Leaves (received ports.now key wire.now room now self.old) self.new queue.old queue.new [])) }
        ensures whole { IfOk result (λ is_whole. OnTrue is_whole (self.new ≡ self.old)) }
        ensures waits { IfOk result (λ is_whole. OnTrue is_whole (queue.new ≡ queue.old)) }
        ensures last { IfOk result (λ is_whole. OnTrue is_whole (IsLastAt (state_at self.old key))) }
        ensures err { OnErr result (self.new ≡ self.old) }
        ensures kept { OnErr result (queue.new ≡ queue.old) }
        ensures room { OnErr result (room ≡ true) }
        ensures memory { OnErr result (wants_memory ports.now key wire.now room self.old ≡ true) }
    {
        let flow = self.flow_of(ports, key);
        match self.table.take(key, wire, room, flow, now, queue) {
            Left::Nothing => Ok(false),
            Left::Message => Ok(true),
            Left::Abort(reason) => {
                self.end_by(key, reason, queue);
                Ok(false)
            }
            Left::NoMemory => Err(AllocError),
        }
    }

    // Whether the session of a key may grant packets. Mostly no port is paused, and then it isn't looked up.
    #[inline(always)]
    fn flow_of(&self, ports: &PortTable, key: Key) -> Flow
        ensures { IsFlowOf (state_at self.now key) ports.now result }
    {
        if ports.has_paused() {
            self.flow_by(ports, key)
        } else {
            Flow::Open
        }
    }

    // The flow of the session of a key, from the ports that are paused.
    #[inline(never)]
    fn flow_by(&self, ports: &PortTable, key: Key) -> Flow
        ensures { IsFlowOf (state_at self.now key) ports.now result }
    {
        match self.table.get(key) {
            Some((set, _state)) => flow(ports, set),
            None => Flow::Open,
        }
    }

    /// The session of a key ends with its last packet, which `receive` left. With room the message is given at each port of the
    /// session's set, by rising number, and a connection queues the end of message acknowledgement; without room a connection ends
    /// by an abort.
    ///
    /// All memory is taken first: want of it changes nothing. It is asked for only with room, for a message that is given at two
    /// ports or more.
    #[inline(never)]
    pub fn complete(
        &mut self,
        ports: &PortTable,
        key: Key,
        packet: &[u8; 7],
        room: bool,
        queue: &mut TxQueue,
        told: &mut Events,
    ) -> Result<(), AllocError>
        requires place { length queue.old < queue_limit }
        requires silent { told.old ≡ [] }
        requires last { IsLastAt (state_at self.old key) }
        ensures ok { OnOk result ((kind : Kind) (sequence now : ℕ) → completes_by (state_at self.old key) (Packet kind sequence packet.now) ≡ true
            → Leaves (received ports.now key (Packet kind sequence packet.now) room now self.old) self.new queue.old queue.new told.new) }
        ensures err { OnErr result (self.new ≡ self.old) }
        ensures kept { OnErr result (queue.new ≡ queue.old) }
        ensures silent { OnErr result (told.new ≡ []) }
        ensures room { OnErr result (room ≡ true) }
        ensures memory { OnErr result (IsGivenAtSeveral (state_at self.old key)) }
    {
        let Some((set, state)) = self.table.get(key) else {
            unreachable!()
        };
        let copies = make_copies(self.alloc, set, room, size(state))?;
        let Some((set, state)) = self.table.remove(key) else {
            unreachable!()
        };
        conclude(
            ports.station(),
            &set,
            room,
            state,
            packet,
            copies,
            queue,
            told,
        );
        Ok(())
    }

    // The session of a key ends before its message is whole: the abort of a connection is queued.
    #[inline(never)]
    #[tactic(auto, using(crate::proofs::SessionMaps::session_maps))]
    fn end_by(&mut self, key: Key, reason: AbortReason, queue: &mut TxQueue)
        requires { length queue.old < queue_limit }
        ensures sessions { self.new ≡ map.remove self.old key }
        ensures queued { queue.new ≡ queue.old ++ option_to_list (ended_by (state_at self.old key) reason) }
    {
        if let Some((_set, state)) = self.table.remove(key) {
            enqueue_option(queue, state.end(reason));
        }
    }

    /// The timer of the session of a key fires at tick `now`; without one nothing is done. A session on hold asks again or continues,
    /// any other ends, a connection by an abort (SAE J1939-21, timers T1, T2 and Th). There is no event.
    ///
    /// Its frame is queued behind the frames of a queue. All memory is taken first, and only when a hold of ETP ends: want of it
    /// changes nothing.
    pub fn fire(
        &mut self,
        ports: &PortTable,
        key: Key,
        now: u64,
        queue: &mut TxQueue,
    ) -> Result<(), AllocError>
        requires { length queue.old < queue_limit }
        ensures ok { OnOk result (LeavesQuietly (fired_at ports.now key now self.old) self.new queue.old queue.new) }
        ensures err { OnErr result (self.new ≡ self.old) }
        ensures kept { OnErr result (queue.new ≡ queue.old) }
        ensures memory { OnErr result (fires_wanting ports.now key self.old ≡ true) }
    {
        let flow = self.flow_of(ports, key);
        match self.table.fire(key, flow, now, queue) {
            Left::Nothing => Ok(()),
            Left::Message => unreachable!(),
            Left::Abort(reason) => {
                self.end_by(key, reason, queue);
                Ok(())
            }
            Left::NoMemory => Err(AllocError),
        }
    }

    /// Takes a port out of the set of the session of a key. A session whose set is then empty ends: the abort of a
    /// connection is handed out. It takes no memory.
    #[tactic(auto, using(crate::proofs::SessionMaps::session_maps))]
    pub fn unbind(&mut self, key: Key, number: u64) -> Option<Frame>
        ensures { unbound_at key number self.old ≡ record { sessions = self.new; frame = result; events = [] } }
    {
        let (held, set, state) = self.table.take_out(key)?;
        let rest = set.without(number);
        if rest.is_empty() {
            self.table.end(held);
            state.end(AbortReason::Resources)
        } else {
            self.table.put_back(held, rest, state);
            None
        }
    }
}

// Whether the step with this frame completes the message of a session.
fn completes(state: &Incoming, wire: &Wire<'_>) -> bool
    ensures { result ≡ completes_at state.now wire.now }
{
    match state {
        Incoming::Broadcast(state) => state.completes(wire),
        Incoming::Connection(state) => state.completes(wire),
    }
}

// The size of the message of a session in bytes.
fn size(state: &Incoming) -> u32
    ensures { result ≡ size_of state.now }
{
    match state {
        Incoming::Broadcast(state) => state.size(),
        Incoming::Connection(state) => state.size(),
    }
}
