//! Sessions that open (SAE J1939-21, TP.CM_RTS, TP.CM_BAM; ISO 11783-3, ETP.CM_RTS).
ghost use Rattle.std.specs.Prelude.{◌≡◌, ◌≤◌, ◌<◌, true, None, [], length, IfOk, IsOk, OnOk, OnErr};
ghost use Rattle.pgn_ids.specs.Address.{is_one};
ghost use Rattle.session_table.specs.declared.TheConstants.{MAX_SESSIONS};
ghost use Rattle.station_sessions.specs.Opening.{is_tp_size as is_tp_size_of, is_etp_size as is_etp_size_of, refusal as refusal_of, whole_join as whole_join_of, rts_received, bam_received, opening_received};
ghost use Rattle.seg_cut.specs.Join.{held};
ghost use Rattle.seg_cut.specs.Packets.{packet_count};
ghost use Rattle.responder.specs.Room.{first_join as first_join_of};
ghost use Rattle.responder.specs.declared.flow.Flow.TheVariants.{Open, Held};
ghost use Rattle.tp_wire.specs.declared.constants.TheConstants.{ETP_MAX_WINDOW};
ghost use Rattle.tp_wire.specs.Sizes.{IsSizeOf};
ghost use Rattle.station_sessions.specs.Receiving.{LeavesQuietly};
ghost use Rattle.tx_queue.specs.Queue.{queue_limit};
ghost use Rattle.tp_wire.specs.declared.wire.Kind.TheVariants.{Tp, Etp};

use super::{Receivers, flow};
use bam_session::BamIn;
use pgn_ids::{Address, WirePgn};
use port_table::{PortSet, PortTable};
use responder::{Flow, Peer, begin, most_packets};
use seg_cut::{Join, packets};
use session_table::{Incoming, Key, MAX_SESSIONS, SessionKind};
use std::alloc::{AllocError, Global};
use tp_wire::constants::{ETP_MAX_SIZE, ETP_MAX_WINDOW, MIN_SIZE, TP_MAX_SIZE};
use tp_wire::{AbortReason, CmFrame, Kind};
use tx_queue::TxQueue;

// Whether TP carries messages of this size, and they have so many packets.
fn is_tp_size(size: u16, packet_count: u8) -> bool
    ensures value { result ≡ is_tp_size_of size packet_count }
    ensures range { result ≡ true → IsSizeOf Tp size }
{
    let size = u32::from(size);
    size >= MIN_SIZE && size <= TP_MAX_SIZE && u32::from(packet_count) == packets(size)
}

// Whether ETP carries messages of this size.
fn is_etp_size(size: u32) -> bool
    ensures value { result ≡ is_etp_size_of size }
    ensures range { result ≡ true → IsSizeOf Etp size }
{
    size > TP_MAX_SIZE && size <= ETP_MAX_SIZE
}

// Why a session for a set doesn't open beside so many others: the first that holds.
fn refusal(is_size: bool, room: bool, set: &PortSet, others: usize) -> Option<AbortReason>
    ensures value { result ≡ refusal_of is_size room set.now others }
    ensures size { result ≡ None → is_size ≡ true }
    ensures few { result ≡ None → others < MAX_SESSIONS }
    ensures room { result ≡ None → room ≡ true }
{
    if !is_size {
        return Some(AbortReason::Other);
    }
    if set.is_empty() {
        return Some(AbortReason::Resources);
    }
    if others >= MAX_SESSIONS {
        return Some(AbortReason::NoFurtherSession);
    }
    if !room {
        return Some(AbortReason::Resources);
    }
    None
}

// Room for a whole message.
fn whole_join(alloc: Global, size: u32) -> Result<Join, AllocError>
    ensures { IfOk result (λ join. join ≡ whole_join_of size) }
{
    let mut join = Join::new(alloc, size);
    join.make_room(packets(size))?;
    Ok(join)
}

// Room for the packets of a connection as it begins: in TP for all, in ETP for the first window, and on hold for none, which takes
// no memory.
fn first_join(alloc: Global, kind: Kind, size: u32, flow: Flow) -> Result<Join, AllocError>
    ensures join { IfOk result (λ join. join ≡ first_join_of kind size flow) }
    ensures whole { IfOk result (λ join. kind ≡ Tp → packet_count size ≤ join.room) }
    ensures first_window { IfOk result (λ join. kind ≡ Etp → flow ≡ Open → ETP_MAX_WINDOW ≤ join.room) }
    ensures within_window { IfOk result (λ join. kind ≡ Etp → join.room ≤ ETP_MAX_WINDOW) }
    ensures memory { IfOk result (λ join. kind ≡ Etp → flow ≡ Held → held join ≡ 0) }
    ensures on_hold { kind ≡ Etp → flow ≡ Held → IsOk result }
{
    match (kind, flow) {
        (Kind::Tp, _) => whole_join(alloc, size),
        (Kind::Etp, Flow::Open) => {
            let mut join = Join::new(alloc, size);
            join.make_room(u32::from(ETP_MAX_WINDOW))?;
            Ok(join)
        }
        (Kind::Etp, Flow::Held) => Ok(Join::new(alloc, size)),
    }
}

// The session that an RTS asks for: its kind, its sender, and how many packets a CTS may grant (`most`).
struct Asked {
    kind: Kind,
    from: Address,
    size: u32,
    is_size: bool,
    most: u8,
    pgn: WirePgn,
}

impl Receivers {
    /// Takes an RTS: its session opens with a CTS or a hold, or it is answered by an abort. Each is queued.
    fn take_rts(
        &mut self,
        own: Address,
        ports: &PortTable,
        asked: Asked,
        room: bool,
        now: u64,
        queue: &mut TxQueue,
    ) -> Result<(), AllocError>
        requires place { length queue.old < queue_limit }
        requires own { is_one own.0 ≡ true }
        requires source { is_one asked.from.0 ≡ true }
        requires size { asked.is_size ≡ true → IsSizeOf asked.kind asked.size }
        requires some { 0 < asked.most }
        requires narrow { asked.most ≤ ETP_MAX_WINDOW }
        ensures ok { OnOk result (LeavesQuietly (rts_received own ports.now asked.kind asked.is_size asked.from asked.size asked.most asked.pgn room now self.old) self.new queue.old queue.new) }
        ensures err { OnErr result (self.new ≡ self.old) }
        ensures kept { OnErr result (queue.new ≡ queue.old) }
        ensures room { OnErr result (room ≡ true) }
    {
        let Asked {
            kind,
            from,
            size,
            is_size,
            most,
            pgn,
        } = asked;
        let key = Key {
            source: from,
            kind: SessionKind::of(kind),
        };
        let set = ports.find(pgn.clean(), size);
        let peer = Peer::new(from, own, pgn);
        let others = self.others(key);
        match refusal(is_size, room, &set, others) {
            Some(reason) => {
                self.end(key);
                queue.push_free(peer.abort(kind, reason));
                Ok(())
            }
            None => {
                let flow = flow(ports, &set);
                let join = first_join(self.alloc, kind, size, flow)?;
                let (state, frame) = begin(kind, peer, most, join, flow, now);
                self.put(key, set, Incoming::Connection(state))?;
                queue.push_free(frame);
                Ok(())
            }
        }
    }

    /// Takes a BAM: its session opens or not, without a frame.
    fn take_bam(
        &mut self,
        ports: &PortTable,
        from: Address,
        size: u16,
        packet_count: u8,
        pgn: WirePgn,
        room: bool,
        now: u64,
    ) -> Result<(), AllocError>
        ensures ok { OnOk result (bam_received ports.now from size packet_count pgn room now self.old ≡ record { sessions = self.new; frame = None; events = [] }) }
        ensures err { OnErr result (self.new ≡ self.old) }
        ensures room { OnErr result (room ≡ true) }
    {
        let key = Key {
            source: from,
            kind: SessionKind::Broadcast,
        };
        let set = ports.find(pgn.clean(), u32::from(size));
        let others = self.others(key);
        match refusal(is_tp_size(size, packet_count), room, &set, others) {
            Some(_) => {
                self.end(key);
                Ok(())
            }
            None => {
                let join = whole_join(self.alloc, u32::from(size))?;
                let state = BamIn::begin(from, pgn, join, now);
                self.put(key, set, Incoming::Broadcast(state))?;
                Ok(())
            }
        }
    }

    /// The station of address `own` takes a frame that opens a session at tick `now`: an RTS or a BAM of another node. Any other is
    /// passed over. The new session replaces an older one of its kind from its source, which ends without an abort, even if the new
    /// one is refused. It opens for the ports that receive its message. A connection is answered by a CTS, a hold or an abort, which
    /// is queued behind the frames of a queue. `room` says whether there is room for it. There is no event.
    ///
    /// Want of memory changes nothing. Without room none is asked for.
    pub fn open(
        &mut self,
        own: Address,
        ports: &PortTable,
        frame: &CmFrame,
        from: Address,
        room: bool,
        now: u64,
        queue: &mut TxQueue,
    ) -> Result<(), AllocError>
        requires place { length queue.old < queue_limit }
        requires own { is_one own.0 ≡ true }
        requires source { is_one from.0 ≡ true }
        ensures ok { OnOk result (LeavesQuietly (opening_received own ports.now frame.now from room now self.old) self.new queue.old queue.new) }
        ensures err { OnErr result (self.new ≡ self.old) }
        ensures kept { OnErr result (queue.new ≡ queue.old) }
        ensures room { OnErr result (room ≡ true) }
    {
        match *frame {
            CmFrame::Rts {
                size,
                packets,
                most,
                pgn,
            } => {
                let asked = Asked {
                    kind: Kind::Tp,
                    from,
                    size: u32::from(size),
                    is_size: is_tp_size(size, packets),
                    most: most_packets(Kind::Tp, most),
                    pgn,
                };
                self.take_rts(own, ports, asked, room, now, queue)
            }
            CmFrame::Bam { size, packets, pgn } => {
                self.take_bam(ports, from, size, packets, pgn, room, now)
            }
            CmFrame::EtpRts { size, pgn } => {
                let asked = Asked {
                    kind: Kind::Etp,
                    from,
                    size,
                    is_size: is_etp_size(size),
                    most: ETP_MAX_WINDOW,
                    pgn,
                };
                self.take_rts(own, ports, asked, room, now, queue)
            }
            _ => Ok(()),
        }
    }
}
