//! How a message of the extended transport begins, for its sender and for its receiver.
ghost use Rattle.std.specs.Prelude.{◌≡◌, true};
ghost use Rattle.pgn_ids.specs.Address.{is_one};
ghost use Rattle.tp_wire.specs.Sizes.{is_size_of, IsSizeOf};
ghost use Rattle.tp_wire.specs.declared.constants.TheConstants.{ETP_MAX_WINDOW};
ghost use Rattle.tp_wire.specs.declared.wire.Kind.TheVariants.{Etp};
ghost use Rattle.originator.specs.Opening.{begun as begun_to_send};
ghost use Rattle.responder.specs.Asking.{asking, asked};
ghost use Rattle.responder.specs.Unfinished.{begun};
ghost use Rattle.responder.specs.Room.{HasRoom};
ghost use Rattle.etp_session.specs.Memory.{IsWithinWindow};
ghost use Rattle.etp_session.specs.Rows.{IsEtp};

use bus_frame::Frame;
use originator::AwaitCts;
use pgn_ids::{Address, Pgn};
use responder::{Flow, InState, Peer};
use seg_cut::Join;
use tp_wire::Kind;
use tp_wire::constants::ETP_MAX_WINDOW;

/// Begins to send a message of `len` bytes, 1,786 to 117,440,505, at tick `now`: its first state, and the RTS, which is to
/// be queued (ISO 11783-3, ETP.CM_RTS). Both addresses are those of one node, 0 to 253.
pub fn begin(from: Address, to: Address, pgn: Pgn, len: u32, now: u64) -> (AwaitCts, Frame)
    requires from_one { is_one from.0 ≡ true }
    requires to_one { is_one to.0 ≡ true }
    requires in_range { is_size_of Etp len ≡ true }
    ensures { result ≡ begun_to_send (record { kind = Etp; from = from.0; to = to.0; pgn = pgn; len = len }) now }
{
    originator::begin(Kind::Etp, from, to, pgn, len, now)
}

/// Accepts an RTS at tick `now`: the state, and the frame to be queued, which is the first CTS, or a hold if the session
/// is held (ISO 11783-3, ETP.CM_CTS).
///
/// The join is that of a message of 1,786 to 117,440,505 bytes that has no packet yet. If the session is open, the join
/// has room for the first window, 64 packets. If it is held, the join needs none. In no case it has more.
pub fn accept(peer: Peer, join: Join, flow: Flow, now: u64) -> (InState, Frame)
    requires size { IsSizeOf Etp join.size }
    requires empty { join.next ≡ 1 }
    requires room { HasRoom flow (begun Etp peer ETP_MAX_WINDOW join) }
    requires within_window { IsWithinWindow join }
    ensures state { result.0 ≡ asking (begun Etp peer ETP_MAX_WINDOW join) flow now }
    ensures frame { result.1 ≡ asked (begun Etp peer ETP_MAX_WINDOW join) flow }
    ensures etp { IsEtp result.0 }
{
    let (receiver, frame) = responder::begin(Kind::Etp, peer, ETP_MAX_WINDOW, join, flow, now);
    (receiver.into_state(), frame)
}
