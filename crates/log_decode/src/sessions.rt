//! The messages under way, in the order in which they were announced.
ghost use Rattle.std.specs.Prelude.{◌≡◌, ◌++◌, None, Some, OnOk, IfOk, if◌then◌else◌, option_map, option_to_list};
ghost use Rattle.log_decode.specs.Sessions.{session_at, settled, packet_taken, cm_taken, abort_taken, renewed_at, is_again_at, is_of, not_begun, opened_at, announced, losses};
ghost use Rattle.log_decode.specs.declared.session.Fate.TheVariants.{Lost};
ghost use Rattle.log_decode.specs.Stray.{packet_stray, cm_stray};
ghost use Rattle.tp_wire.specs.Rows.{cm_pgn};

use crate::places::place_of;
use crate::session::{Fate, Session};
use indexmap::IndexMap;
use log_reports::{Cause, Key, Stray, Told};
use pgn_ids::{Address, WirePgn};
use std::alloc::{AllocError, Global};
use tp_wire::CmFrame;

/// The messages under way, in the order in which they were announced.
pub(crate) type Sessions = IndexMap<Key, Session>;

/// The message of a key.
fn session_at<'a>(sessions: &'a Sessions, key: &Key) -> Option<&'a Session>
    ensures { option_map (λ s. s.now) result ≡ session_at key.now sessions.now.entries }
{
    sessions.get(key)
}

/// Puts a report, if there is one, behind those before it.
pub(crate) fn tell(told: &mut Vec<Told>, one: Option<Told>) -> Result<(), AllocError>
    ensures { OnOk result (told.new.items ≡ told.old.items ++ option_to_list one) }
{
    if let Some(one) = one {
        told.push(one)?;
    }
    Ok(())
}

/// A message under way meets its fate, unless it continues.
fn settle(
    sessions: &mut Sessions,
    key: Key,
    fate: Fate,
    told: &mut Vec<Told>,
) -> Result<(), AllocError>
    ensures { OnOk result ((sessions.new.entries, told.new.items) ≡ settled key fate (sessions.old.entries, told.old.items)) }
{
    if let Fate::GoesOn = fate {
        return Ok(());
    }
    let Some(session) = sessions.shift_remove(&key) else {
        return Ok(());
    };
    tell(told, session.into_told(key, fate))
}

/// Takes a packet.
pub(crate) fn take_packet(
    sessions: &mut Sessions,
    key: Key,
    sequence: u8,
    bytes: [u8; 7],
    now: u64,
    told: &mut Vec<Told>,
) -> Result<Option<Stray>, AllocError>
    ensures told { OnOk result ((sessions.new.entries, told.new.items) ≡ packet_taken key sequence bytes now (sessions.old.entries, told.old.items)) }
    ensures stray { IfOk result (λ stray. stray ≡ packet_stray key sessions.old.entries) }
{
    let Some(at) = place_of(sessions, &key) else {
        return Ok(Some(Stray::Packet));
    };
    let fate = sessions[at].hear_packet(key.to, sequence, bytes, now)?;
    settle(sessions, key, fate, told)?;
    Ok(None)
}

/// What a frame is whose message is under way or not.
fn stray_unless(is_of: bool, kind: Stray) -> Option<Stray>
    ensures { result ≡ (if is_of then None else Some kind) }
{
    if is_of { None } else { Some(kind) }
}

/// Takes a connection management frame that is neither an announcement nor an abort. It is of this kind if its message
/// isn't under way.
pub(crate) fn take_cm(
    sessions: &mut Sessions,
    key: Key,
    kind: Stray,
    frame: &CmFrame,
    now: u64,
    told: &mut Vec<Told>,
) -> Result<Option<Stray>, AllocError>
    ensures told { OnOk result ((sessions.new.entries, told.new.items) ≡ cm_taken key frame.now now (sessions.old.entries, told.old.items)) }
    ensures stray { IfOk result (λ stray. stray ≡ cm_stray kind key (cm_pgn frame.now) sessions.old.entries) }
{
    let Some(at) = place_of(sessions, &key) else {
        return Ok(Some(kind));
    };
    let session = &mut sessions[at];
    let is_of = session.is_of(frame.pgn());
    let fate = session.hear(frame, now);
    settle(sessions, key, fate, told)?;
    Ok(stray_unless(is_of, kind))
}

/// Takes an abort of a message of a PGN.
pub(crate) fn take_abort(
    sessions: &mut Sessions,
    key: Key,
    who: Address,
    reason: u8,
    pgn: WirePgn,
    told: &mut Vec<Told>,
) -> Result<(), AllocError>
    ensures { OnOk result ((sessions.new.entries, told.new.items) ≡ abort_taken key who reason pgn (sessions.old.entries, told.old.items)) }
{
    let Some(session) = session_at(sessions, &key) else {
        return Ok(());
    };
    let fate = session.hear_abort(who, reason, pgn);
    settle(sessions, key, fate, told)
}

/// Whether a message of this PGN is under way.
pub(crate) fn is_of(sessions: &Sessions, key: Key, pgn: WirePgn) -> bool
    ensures { result ≡ is_of key pgn sessions.now.entries }
{
    match session_at(sessions, &key) {
        None => false,
        Some(session) => session.is_of(pgn),
    }
}

/// Whether the announcement is that of the message under way, which has no packet yet.
fn is_again(sessions: &Sessions, key: Key, pgn: WirePgn, size: u32) -> bool
    ensures { result ≡ is_again_at key pgn size sessions.now.entries }
{
    match session_at(sessions, &key) {
        None => false,
        Some(session) => session.is_again(pgn, size),
    }
}

/// Takes a frame that says nothing new.
fn renew(sessions: &mut Sessions, key: Key, now: u64)
    ensures { sessions.new.entries ≡ renewed_at key now sessions.old.entries }
{
    if let Some(at) = place_of(sessions, &key) {
        sessions[at].go_on(now);
    }
}

/// A message as it is announced: its PGN field and its size in bytes, and whether a transport carries such a one.
#[derive(Clone, Copy)]
pub(crate) struct News {
    pub(crate) pgn: WirePgn,
    pub(crate) size: u32,
    pub(crate) is_sound: bool,
}

/// The report that a message didn't begin.
fn not_begun(key: Key, news: News, cause: Cause) -> Told
    ensures { result ≡ not_begun key news cause }
{
    Told::Lost {
        key,
        pgn: news.pgn.clean(),
        have: 0,
        size: news.size,
        cause,
    }
}

/// A message begins; if no transport carries it or it is longer than `most` bytes, that is reported.
fn begin(
    alloc: Global,
    sessions: &mut Sessions,
    key: Key,
    news: News,
    most: u32,
    now: u64,
    told: &mut Vec<Told>,
) -> Result<(), AllocError>
    ensures { OnOk result ((sessions.new.entries, told.new.items) ≡ opened_at key news most now (sessions.old.entries, told.old.items)) }
{
    if !news.is_sound {
        told.push(not_begun(key, news, Cause::Unsound))?;
        return Ok(());
    }
    if news.size > most {
        told.push(not_begun(key, news, Cause::TooLong))?;
        return Ok(());
    }
    let session = Session::new(alloc, key.transport, news.pgn, news.size, now);
    sessions.insert(key, session)?;
    Ok(())
}

/// A message is announced. The frame belongs to it.
pub(crate) fn announce(
    alloc: Global,
    sessions: &mut Sessions,
    key: Key,
    news: News,
    most: u32,
    now: u64,
    told: &mut Vec<Told>,
) -> Result<Option<Stray>, AllocError>
    ensures told { OnOk result ((sessions.new.entries, told.new.items) ≡ announced key news most now (sessions.old.entries, told.old.items)) }
    ensures stray { IfOk result (λ stray. stray ≡ None) }
{
    if is_again(sessions, key, news.pgn, news.size) {
        renew(sessions, key, now);
        return Ok(None);
    }
    settle(sessions, key, Fate::Lost(Cause::Replaced), told)?;
    begin(alloc, sessions, key, news, most, now, told)?;
    Ok(None)
}

/// Each message that is under way is reported as lost, for this cause.
pub(crate) fn tell_all(
    sessions: &Sessions,
    cause: Cause,
    told: &mut Vec<Told>,
) -> Result<(), AllocError>
    ensures { OnOk result (told.new.items ≡ told.old.items ++ losses (Lost cause) sessions.now.entries) }
{
    for at in 0..sessions.len() {
        let Some((key, session)) = sessions.get_index(at) else {
            return Ok(());
        };
        told.push(session.lost(*key, cause))?;
    }
    Ok(())
}
