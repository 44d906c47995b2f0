//! The reports on a frame of an interface.
ghost use Rattle.std.specs.Prelude.{◌≡◌, None, OnOk, IfOk};
ghost use Rattle.log_decode.specs.Decoder.{tp_news, etp_news, both_aborted, aborted, cm_frame_taken, wire_taken, frame_taken};
ghost use Rattle.log_decode.specs.Stray.{cm_frame_stray, wire_stray, frame_stray};

use crate::sessions::{News, Sessions, announce, is_of, take_abort, take_cm, take_packet};
use crate::way::Way;
use bus_frame::Frame;
use log_fields::Iface;
use log_reports::{Stray, Told};
use pgn_ids::WirePgn;
use seg_cut::packets;
use std::alloc::{AllocError, Global};
use tp_wire::constants::{ETP_MAX_SIZE, MIN_SIZE, TP_MAX_SIZE};
use tp_wire::{CmFrame, Kind, Wire, read};

/// A message of the transport protocol as it is announced, whose packets are to be as many as its size takes.
fn tp_news(pgn: WirePgn, size: u16, count: u8) -> News
    ensures { result ≡ tp_news pgn size count }
{
    let size = u32::from(size);
    let is_sound = size >= MIN_SIZE && size <= TP_MAX_SIZE && packets(size) == u32::from(count);
    News {
        pgn,
        size,
        is_sound,
    }
}

/// The announcement of a message of the extended transport protocol.
fn etp_news(pgn: WirePgn, size: u32) -> News
    ensures { result ≡ etp_news pgn size }
{
    News {
        pgn,
        size,
        is_sound: size > TP_MAX_SIZE && size <= ETP_MAX_SIZE,
    }
}

/// An abort ends the message of its PGN in either direction, since it doesn't say whose it is.
fn end_both(
    sessions: &mut Sessions,
    way: Way,
    kind: Kind,
    reason: u8,
    pgn: WirePgn,
    told: &mut Vec<Told>,
) -> Result<(), AllocError>
    ensures { OnOk result ((sessions.new.entries, told.new.items) ≡ both_aborted way kind reason pgn (sessions.old.entries, told.old.items)) }
{
    take_abort(sessions, way.key(kind), way.from, reason, pgn, told)?;
    take_abort(sessions, way.back(kind), way.from, reason, pgn, told)
}

/// An abort. If no message of its PGN is under way, it is reported as that of one from the node that sent it.
fn take_both(
    sessions: &mut Sessions,
    way: Way,
    kind: Kind,
    reason: u8,
    pgn: WirePgn,
    told: &mut Vec<Told>,
) -> Result<Option<Stray>, AllocError>
    ensures told { OnOk result ((sessions.new.entries, told.new.items) ≡ aborted way kind reason pgn (sessions.old.entries, told.old.items)) }
    ensures stray { IfOk result (λ stray. stray ≡ None) }
{
    if is_of(sessions, way.key(kind), pgn) || is_of(sessions, way.back(kind), pgn) {
        end_both(sessions, way, kind, reason, pgn, told)?;
        return Ok(None);
    }
    told.push(Told::Aborted {
        key: way.key(kind),
        pgn: pgn.clean(),
        reason,
        who: way.from,
    })?;
    Ok(None)
}

/// A connection management frame. Answered is what it is if its message isn't under way.
#[tactic(auto, unfolding(crate::specs::Decoder::cm_frame_taken, crate::specs::Stray::cm_frame_stray))]
fn take_cm_frame(
    alloc: Global,
    sessions: &mut Sessions,
    way: Way,
    frame: &CmFrame,
    most: u32,
    now: u64,
    told: &mut Vec<Told>,
) -> Result<Option<Stray>, AllocError>
    ensures told { OnOk result ((sessions.new.entries, told.new.items) ≡ cm_frame_taken way frame.now most now (sessions.old.entries, told.old.items)) }
    ensures stray { IfOk result (λ stray. stray ≡ cm_frame_stray way frame.now sessions.old.entries) }
{
    match frame {
        CmFrame::Rts {
            size,
            packets,
            pgn,
            ..
        } => {
            let news = tp_news(*pgn, *size, *packets);
            announce(alloc, sessions, way.key(Kind::Tp), news, most, now, told)
        }
        CmFrame::Cts { .. } => take_cm(
            sessions,
            way.back(Kind::Tp),
            Stray::Window,
            frame,
            now,
            told,
        ),
        CmFrame::EndOfMsgAck { .. } => take_cm(
            sessions,
            way.back(Kind::Tp),
            Stray::Acknowledgement,
            frame,
            now,
            told,
        ),
        CmFrame::Bam { size, packets, pgn } => {
            let news = tp_news(*pgn, *size, *packets);
            announce(alloc, sessions, way.key(Kind::Tp), news, most, now, told)
        }
        CmFrame::Abort { reason, pgn } => take_both(sessions, way, Kind::Tp, *reason, *pgn, told),
        CmFrame::EtpRts { size, pgn } => {
            let news = etp_news(*pgn, *size);
            announce(alloc, sessions, way.key(Kind::Etp), news, most, now, told)
        }
        CmFrame::EtpCts { .. } => take_cm(
            sessions,
            way.back(Kind::Etp),
            Stray::Window,
            frame,
            now,
            told,
        ),
        CmFrame::EtpDpo { .. } => take_cm(
            sessions,
            way.key(Kind::Etp),
            Stray::Window,
            frame,
            now,
            told,
        ),
        CmFrame::EtpEoma { .. } => take_cm(
            sessions,
            way.back(Kind::Etp),
            Stray::Acknowledgement,
            frame,
            now,
            told,
        ),
        CmFrame::EtpAbort { reason, pgn } => take_both(
            sessions,
            way,
            Kind::Etp,
            *reason,
            *pgn,
            told,
        ),
    }
}

/// A transport frame.
#[tactic(auto, unfolding(crate::specs::Decoder::wire_taken, crate::specs::Stray::wire_stray))]
fn take_wire(
    alloc: Global,
    sessions: &mut Sessions,
    way: Way,
    wire: &Wire<'_>,
    most: u32,
    now: u64,
    told: &mut Vec<Told>,
) -> Result<Option<Stray>, AllocError>
    ensures told { OnOk result ((sessions.new.entries, told.new.items) ≡ wire_taken way wire.now most now (sessions.old.entries, told.old.items)) }
    ensures stray { IfOk result (λ stray. stray ≡ wire_stray way wire.now sessions.old.entries) }
{
    match wire {
        Wire::Cm(frame) => take_cm_frame(alloc, sessions, way, frame, most, now, told),
        Wire::Packet {
            kind,
            sequence,
            bytes,
        } => take_packet(
            sessions,
            way.key(*kind),
            *sequence,
            *bytes.array(),
            now,
            told,
        ),
        Wire::Request { .. } => Ok(None),
        Wire::Ack { .. } => Ok(None),
    }
}

/// A frame is seen on an interface. One without a meaning to a transport has no report. Returns its kind if it belongs to a message that
/// isn't under way.
pub(crate) fn take_frame(
    alloc: Global,
    sessions: &mut Sessions,
    iface: Iface,
    frame: &Frame,
    most: u32,
    now: u64,
    told: &mut Vec<Told>,
) -> Result<Option<Stray>, AllocError>
    ensures told { OnOk result ((sessions.new.entries, told.new.items) ≡ frame_taken iface frame.now most now (sessions.old.entries, told.old.items)) }
    ensures stray { IfOk result (λ stray. stray ≡ frame_stray iface frame.now sessions.old.entries) }
{
    let Some((wire, from, to)) = read(frame) else {
        return Ok(None);
    };
    let way = Way { iface, from, to };
    take_wire(alloc, sessions, way, &wire, most, now, told)
}
