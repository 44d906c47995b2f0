//! The reports of a listener.
ghost use Rattle.std.specs.Prelude.{◌≡◌};
ghost use Rattle.log_reports.specs.Causes.{cause_words};
ghost use Rattle.log_reports.specs.Told.{key_told, pgn_told};

use crate::bytes::Bytes;
use crate::key::Key;
use pgn_ids::{Address, Pgn};

/// Why a message is lost to the listener.
#[derive(Clone, Copy, PartialEq, Eq)]
pub enum Cause {
    /// A packet of a broadcast is missing: a later one was seen.
    Missing,
    /// Its sender announced another one in its place.
    Replaced,
    /// No frame of it was seen for as long as both of its ends wait at most.
    TimedOut,
    /// The clock of its interface was set back by more than a second.
    WentBack,
    /// Its receiver acknowledged it, and not all of its packets were seen.
    Acknowledged,
    /// No transport carries a message of the size that was announced, or not in so many packets.
    Unsound,
    /// It is longer than the listener takes.
    TooLong,
    /// The log ended.
    EndOfLog,
}

/// The words of a cause.
pub fn cause_words(cause: Cause) -> &'static str
    ensures { result.now ≡ cause_words cause }
{
    match cause {
        Cause::Missing => "packet missing",
        Cause::Replaced => "replaced",
        Cause::TimedOut => "timed out",
        Cause::WentBack => "time went back",
        Cause::Acknowledged => "acknowledged",
        Cause::Unsound => "wrong size",
        Cause::TooLong => "too long",
        Cause::EndOfLog => "end of log",
    }
}

/// The report on a message, whose key says where it was seen and between which nodes.
#[derive(Drop)]
pub enum Told {
    /// All of it was received.
    Given {
        key: Key,
        pgn: Pgn,
        bytes: Bytes,
    },
    /// One of its ends, `who`, aborted it, for the reason with this byte.
    Aborted {
        key: Key,
        pgn: Pgn,
        reason: u8,
        who: Address,
    },
    /// It is lost: the first `have` of its `size` bytes were received.
    Lost {
        key: Key,
        pgn: Pgn,
        have: u32,
        size: u32,
        cause: Cause,
    },
}

/// The key of the message that is reported.
pub fn key_told(told: &Told) -> Key
    ensures { result ≡ key_told told.now }
{
    match told {
        Told::Given { key, .. } => *key,
        Told::Aborted { key, .. } => *key,
        Told::Lost { key, .. } => *key,
    }
}

/// The PGN of the message that is reported.
pub fn pgn_told(told: &Told) -> Pgn
    ensures { result ≡ pgn_told told.now }
{
    match told {
        Told::Given { pgn, .. } => *pgn,
        Told::Aborted { pgn, .. } => *pgn,
        Told::Lost { pgn, .. } => *pgn,
    }
}
