//! How a lane settles after a doubtful end.
ghost use Rattle.std.specs.Prelude.{◌≡◌, ◌≢◌, ◌<◌, ◌≤◌, ◌^◌, ◌++◌, length};
ghost use Rattle.tx_queue.specs.Queue.{queue_limit};
ghost use Rattle.lane_core.specs.declared.place.UnderWay.TheVariants.{Nothing};
ghost use Rattle.lane_core.specs.declared.probe.Standing.TheVariants.{Settled};
ghost use Rattle.lane_core.specs.Probe.{token_pgn, other_token, is_token, most_requests, request_frame as request_frame_of, probes};

use crate::lane::Lane;
use bus_frame::Frame;
use pgn_ids::WirePgn;
use tick_timers::{PROBE, Timer};
use tp_wire::constants::{TP_CM, TP_DT};
use tp_wire::{Wire, write};
use tx_queue::TxQueue;

/// Whether a connection may begin.
#[derive(Clone, Copy, Debug, PartialEq, Eq)]
pub enum Standing {
    /// Nothing of an earlier message can arrive any more.
    Settled,
    /// A message ended in another way than by its end of message acknowledgement: frames of it may still be on their way.
    InDoubt,
    /// A Request is on its way, the first, second or third, and its Acknowledgement is awaited.
    Probing { count: u8, timer: Timer },
}

/// The PGN that a lane asks for to settle: the two take turns, so that an answer to an earlier round is recognised.
#[derive(Clone, Copy, Debug, PartialEq, Eq)]
pub enum Token {
    /// TP.CM, which is asked for first.
    ConnectionManagement,
    /// TP.DT.
    DataTransfer,
}

impl Token {
    /// The PGN that the Request names.
    pub fn pgn(self) -> u32
        ensures value { result ≡ token_pgn self }
        ensures in_range { result < 2 ^ 18 }
    {
        match self {
            Token::ConnectionManagement => TP_CM,
            Token::DataTransfer => TP_DT,
        }
    }

    /// The token of the next round.
    pub fn other(self) -> Token
        ensures { result ≡ other_token self }
    {
        match self {
            Token::ConnectionManagement => Token::DataTransfer,
            Token::DataTransfer => Token::ConnectionManagement,
        }
    }

    /// Whether a PGN field names it.
    pub fn is_named(self, pgn: WirePgn) -> bool
        ensures { result ≡ is_token self pgn }
    {
        pgn.clean().raw() == self.pgn()
    }
}

impl Lane {
    /// The lane asks for its token, for the `count`-th time.
    pub(crate) fn probe(&mut self, count: u8, now: u64, queue: &mut TxQueue)
        requires place { length queue.old < queue_limit }
        requires nothing { self.old.under_way ≡ Nothing }
        requires unsettled { self.old.standing ≢ Settled }
        requires from_one { 1 ≤ count }
        requires to_most { count ≤ most_requests }
        ensures lane { self.new ≡ (probes self.old count now).0 }
        ensures queued { queue.new ≡ queue.old ++ (probes self.old count now).1.frames }
    {
        self.standing = Standing::Probing {
            count,
            timer: Timer::start(now, PROBE),
        };
        queue.push_free(self.request_frame());
    }

    /// The Request for its token.
    fn request_frame(&self) -> Frame
        ensures { result ≡ request_frame_of self.now }
    {
        let pgn = match WirePgn::new(self.token.pgn()) {
            Ok(pgn) => pgn,
            Err(_) => unreachable!(),
        };
        write(Wire::Request { pgn }, self.from, self.to)
    }
}
