//! How a message of the transport protocol begins, for its sender and for its receiver.
ghost use Rattle.std.specs.Prelude.{◌≡◌, ◌≤◌, true};
ghost use Rattle.pgn_ids.specs.Address.{is_one};
ghost use Rattle.tp_wire.specs.Sizes.{is_size_of, IsSizeOf};
ghost use Rattle.tp_wire.specs.declared.wire.Kind.TheVariants.{Tp};
ghost use Rattle.seg_cut.specs.Packets.{packet_count};
ghost use Rattle.originator.specs.Opening.{begun as begun_to_send};
ghost use Rattle.responder.specs.Asking.{asking, asked};
ghost use Rattle.responder.specs.Unfinished.{begun};
ghost use Rattle.responder.specs.Window.{most_of};
ghost use Rattle.tp_session.specs.Rows.{IsTp};

use bus_frame::Frame;
use originator::AwaitCts;
use pgn_ids::{Address, Pgn};
use responder::{Flow, InState, Peer, most_packets};
use seg_cut::Join;
use tp_wire::Kind;

/// Begins to send a message of `len` bytes, 9 to 1,785, at tick `now`: its first state, and the RTS, which is to be
/// queued (SAE J1939-21, TP.CM_RTS). Both addresses are those of one node, 0 to 253.
pub fn begin(from: Address, to: Address, pgn: Pgn, len: u32, now: u64) -> (AwaitCts, Frame)
    requires from_one { is_one from.0 ≡ true }
    requires to_one { is_one to.0 ≡ true }
    requires in_range { is_size_of Tp len ≡ true }
    ensures { result ≡ begun_to_send (record { kind = Tp; from = from.0; to = to.0; pgn = pgn; len = len }) now }
{
    originator::begin(Kind::Tp, from, to, pgn, len, now)
}

/// Accepts an RTS at tick `now`: the state, and the frame to be queued, which is the first CTS, or a hold if the
/// session is held (SAE J1939-21, TP.CM_CTS).
///
/// `allowed` is the byte of the RTS that says how many packets a CTS may grant, 0 for any number. The join is that of a
/// message of 9 to 1,785 bytes that has no packet yet, with room for all packets, so that no later call takes memory.
pub fn accept(peer: Peer, allowed: u8, join: Join, flow: Flow, now: u64) -> (InState, Frame)
    requires size { IsSizeOf Tp join.size }
    requires empty { join.next ≡ 1 }
    requires room { packet_count join.size ≤ join.room }
    ensures state { result.0 ≡ asking (begun Tp peer (most_of Tp allowed) join) flow now }
    ensures frame { result.1 ≡ asked (begun Tp peer (most_of Tp allowed) join) flow }
    ensures tp { IsTp result.0 }
{
    let most = most_packets(Kind::Tp, allowed);
    let (receiver, frame) = responder::begin(Kind::Tp, peer, most, join, flow, now);
    (receiver.into_state(), frame)
}
