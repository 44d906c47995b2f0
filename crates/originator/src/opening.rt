//! How a message begins.
ghost use Rattle.std.specs.Prelude.{◌≡◌, true};
ghost use Rattle.tp_wire.specs.Sizes.{is_size_of};
ghost use Rattle.pgn_ids.specs.Address.{is_one};
ghost use Rattle.originator.specs.Opening.{begun};

use crate::await_cts::AwaitCts;
use crate::link::Link;
use bus_frame::Frame;
use pgn_ids::{Address, Pgn};
use tick_timers::{T3, Timer};
use tp_wire::Kind;

/// Begins a message of `len` bytes at tick `now`: its first state and the request to send, TP.CM_RTS or ETP.CM_RTS.
///
/// Both addresses are those of one node, 0 to 253. TP carries 9 to 1,785 bytes, ETP 1,786 to 117,440,505.
pub fn begin(
    kind: Kind,
    from: Address,
    to: Address,
    pgn: Pgn,
    len: u32,
    now: u64,
) -> (AwaitCts, Frame)
    requires from_one { is_one from.0 ≡ true }
    requires to_one { is_one to.0 ≡ true }
    requires in_range { is_size_of kind len ≡ true }
    ensures { result ≡ begun (record { kind = kind; from = from.0; to = to.0; pgn = pgn; len = len }) now }
{
    let link = Link::new(kind, from, to, pgn, len);
    let _packets = link.packets();
    let state = AwaitCts {
        link,
        unsent: 1,
        resends: 0,
        timer: Timer::start(now, T3),
    };
    (state, link.rts_frame())
}
