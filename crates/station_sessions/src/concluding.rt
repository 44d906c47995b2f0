//! How an incoming session ends with its message: the message is given or refused.
ghost use Rattle.std.specs.Prelude.{◌≡◌, ℕ, ◌<◌, ◌++◌, true, length, Some, [], None, option_to_list};
ghost use Rattle.std.specs.FinMap as map;
ghost use Rattle.tx_queue.specs.Queue.{queue_limit};
ghost use Rattle.tp_wire.specs.declared.wire.Kind.{Kind};
ghost use Rattle.tp_wire.specs.declared.wire.Wire.TheVariants.{Packet};
ghost use Rattle.bam_session.specs.States.{Incoming as Coming};
ghost use Rattle.pgn_ids.specs.Pgn.{clean};
ghost use Rattle.responder.specs.declared.flow.Flow.{Flow};
ghost use Rattle.session_table.specs.declared.key.Key.{Key};
ghost use Rattle.station_sessions.specs.CopyRoom.{IsRoomFor};
ghost use Rattle.station_sessions.specs.Ends.{IsLastOf};
ghost use Rattle.station_sessions.specs.Receiving.{Inbound, Leaves, concluded, session_stepped};
ghost use Rattle.station_sessions.specs.Steps.{broadcast_message, connection_message, completes, given_answer, refused_answer, size_of};

use crate::copies::{Copies, Message, give};
use bus_frame::Frame;
use message_events::{Bytes, Events};
use pgn_ids::{Address, Pgn};
use port_table::PortSet;
use responder::Finished;
use session_table::Incoming;
use tx_queue::TxQueue;

/// A session ends with its last packet: the message is given, or refused without room. What answers it is queued.
pub(crate) fn conclude(
    station: Address,
    set: &PortSet,
    room: bool,
    state: Incoming,
    packet: &[u8; 7],
    copies: Copies,
    queue: &mut TxQueue,
    told: &mut Events,
)
    requires place { length queue.old < queue_limit }
    requires silent { told.old ≡ [] }
    requires last { IsLastOf state }
    requires room { IsRoomFor (size_of state) room set.now copies }
    ensures { (key : Key) (sessions : Inbound) (kind : Kind) (sequence : ℕ) (flow : Flow) (now : ℕ) → completes state (Packet kind sequence packet.now) ≡ true
        → Leaves (session_stepped station key set.now room sessions flow state (Packet kind sequence packet.now) now) (map.remove sessions key) queue.old queue.new told.new }
{
    match state {
        Incoming::Broadcast(state) => {
            let (from, pgn) = (state.from(), state.pgn().clean());
            let bytes = state.complete(packet);
            conclude_broadcast(station, set, room, from, pgn, bytes, copies, told);
        }
        Incoming::Connection(state) => {
            let finished = state.complete(packet);
            conclude_connection(queue, station, set, room, finished, copies, told);
        }
    }
}

// Gives a message to all that is complete, or drops it if there is no room.
fn conclude_broadcast(
    station: Address,
    set: &PortSet,
    room: bool,
    from: Address,
    pgn: Pgn,
    bytes: Vec<u8>,
    copies: Copies,
    told: &mut Events,
)
    requires silent { told.old ≡ [] }
    requires room { IsRoomFor (length bytes.items) room set.now copies }
    ensures { (s : Coming) (sessions : Inbound) → from.0 ≡ s.from → pgn ≡ clean s.pgn
        → concluded station set.now room sessions None None (broadcast_message s bytes.items) ≡ record { sessions = sessions; frame = None; events = told.new } }
{
    if !room {
        return;
    }
    let message = Message {
        from,
        to: Address::GLOBAL,
        pgn,
        bytes: Bytes::new(bytes),
    };
    give(station, set, message, copies, told);
}

// Gives a message of a connection that is complete, or refuses it if there is no room, and queues the frame that
// answers it.
fn conclude_connection(
    queue: &mut TxQueue,
    station: Address,
    set: &PortSet,
    room: bool,
    finished: Finished,
    copies: Copies,
    told: &mut Events,
)
    requires place { length queue.old < queue_limit }
    requires silent { told.old ≡ [] }
    requires room { IsRoomFor finished.size room set.now copies }
    ensures { (sessions : Inbound) → Leaves (concluded station set.now room sessions (Some (given_answer finished)) (Some (refused_answer finished)) (connection_message finished)) sessions queue.old queue.new told.new }
{
    if !room {
        queue.push_free(finished.refused());
        return;
    }
    let peer = finished.peer();
    let (bytes, end) = finished.given();
    queue.push_free(end);
    let message = Message {
        from: peer.from(),
        to: peer.to(),
        pgn: peer.pgn().clean(),
        bytes: Bytes::new(bytes),
    };
    give(station, set, message, copies, told);
}

/// Queues a frame, if there is one and a free place.
pub fn enqueue_option(queue: &mut TxQueue, frame: Option<Frame>)
    requires { length queue.old < queue_limit }
    ensures { queue.new ≡ queue.old ++ option_to_list frame }
{
    if let Some(frame) = frame {
        queue.push_free(frame);
    }
}
