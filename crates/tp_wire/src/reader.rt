//! What a frame means (SAE J1939-21; ISO 11783-3).
ghost use Rattle.std.specs.Prelude.{◌≡◌, ◌<◌, ◌^◌, ◌↔◌, true, Some, IfSome};
ghost use Rattle.pgn_ids.specs.Identifier.{meaning_of};
ghost use Rattle.pgn_ids.specs.declared.address.Address.{Address};
ghost use Rattle.tp_wire.specs.Rows.{goes_to, comes_from, IsRow, Reads};
ghost use Rattle.tp_wire.specs.Reading.{number_2, number_3, number_4, field_of, tp_cm_of, etp_cm_of, packet_of, request_of, ack_of, body_of, between, reading, is_transport};
ghost use Rattle.tp_wire.specs.declared.wire.Wire.{Wire};

use crate::constants::{
    ACKNOWLEDGEMENT, CONN_ABORT, ETP_CM, ETP_CTS, ETP_DPO, ETP_DT, ETP_EOMA, ETP_RTS, REQUEST,
    TP_BAM, TP_CM, TP_CTS, TP_DT, TP_END_OF_MSG_ACK, TP_RTS,
};
use crate::packet::PacketBytes;
use crate::wire::{CmFrame, Kind, Wire};
use bus_frame::Frame;
use pgn_ids::{Address, IdMeaning, WirePgn, read_id};

// The number in two bytes, the least first.
#[inline]
fn number_2(a: u8, b: u8) -> u16
    ensures { result ≡ number_2 a b }
{
    u16::from(a) + 256 * u16::from(b)
}

// The number in three bytes, the least first.
#[inline]
fn number_3(a: u8, b: u8, c: u8) -> u32
    ensures value { result ≡ number_3 a b c }
    ensures in_range { result < 2 ^ 24 }
{
    u32::from(a) + 256 * u32::from(b) + 0x1_0000 * u32::from(c)
}

// The number in four bytes, the least first.
#[inline]
fn number_4(a: u8, b: u8, c: u8, d: u8) -> u32
    ensures { result ≡ number_4 a b c d }
{
    number_3(a, b, c) + 0x100_0000 * u32::from(d)
}

// The PGN field in three bytes, or none above 18 bits.
#[inline]
fn field(p: u8, q: u8, r: u8) -> Option<WirePgn>
    ensures { result ≡ field_of p q r }
{
    WirePgn::new(number_3(p, q, r)).ok()
}

// What a frame of TP.CM means.
#[tactic(auto, unfolding(crate::specs::Reading::tp_cm_of))]
fn read_tp_cm(bytes: &[u8]) -> Option<Wire<'_>>
    ensures { result ≡ tp_cm_of bytes.now }
{
    let [control, b, c, d, e, p, q, r] = bytes else {
        return None;
    };
    let pgn = field(*p, *q, *r)?;
    match *control {
        TP_RTS => Some(Wire::Cm(CmFrame::Rts {
            size: number_2(*b, *c),
            packets: *d,
            most: *e,
            pgn,
        })),
        TP_CTS => Some(Wire::Cm(CmFrame::Cts {
            granted: *b,
            next: *c,
            pgn,
        })),
        TP_END_OF_MSG_ACK => Some(Wire::Cm(CmFrame::EndOfMsgAck {
            size: number_2(*b, *c),
            packets: *d,
            pgn,
        })),
        TP_BAM => Some(Wire::Cm(CmFrame::Bam {
            size: number_2(*b, *c),
            packets: *d,
            pgn,
        })),
        CONN_ABORT => Some(Wire::Cm(CmFrame::Abort { reason: *b, pgn })),
        _ => None,
    }
}

// What a frame of ETP.CM means.
#[tactic(auto, unfolding(crate::specs::Reading::etp_cm_of))]
fn read_etp_cm(bytes: &[u8]) -> Option<Wire<'_>>
    ensures { result ≡ etp_cm_of bytes.now }
{
    let [control, b, c, d, e, p, q, r] = bytes else {
        return None;
    };
    let pgn = field(*p, *q, *r)?;
    match *control {
        ETP_RTS => Some(Wire::Cm(CmFrame::EtpRts {
            size: number_4(*b, *c, *d, *e),
            pgn,
        })),
        ETP_CTS => Some(Wire::Cm(CmFrame::EtpCts {
            granted: *b,
            next: number_3(*c, *d, *e),
            pgn,
        })),
        ETP_DPO => Some(Wire::Cm(CmFrame::EtpDpo {
            packets: *b,
            offset: number_3(*c, *d, *e),
            pgn,
        })),
        ETP_EOMA => Some(Wire::Cm(CmFrame::EtpEoma {
            size: number_4(*b, *c, *d, *e),
            pgn,
        })),
        CONN_ABORT => Some(Wire::Cm(CmFrame::EtpAbort { reason: *b, pgn })),
        _ => None,
    }
}

// What a frame of TP.DT or ETP.DT means.
#[inline(always)]
#[tactic(auto, unfolding(crate::specs::Reading::packet_of))]
fn read_packet(kind: Kind, bytes: &[u8]) -> Option<Wire<'_>>
    ensures { result ≡ packet_of kind bytes.now }
{
    let [sequence, _, _, _, _, _, _, _] = bytes else {
        return None;
    };
    if *sequence == 0 {
        return None;
    }
    let seven = bytes[1..].first_chunk::<7>()?;
    Some(Wire::Packet {
        kind,
        sequence: *sequence,
        bytes: PacketBytes::new(seven),
    })
}

// What a Request means.
#[tactic(auto, unfolding(crate::specs::Reading::request_of))]
fn read_request(bytes: &[u8]) -> Option<Wire<'_>>
    ensures { result ≡ request_of bytes.now }
{
    let [p, q, r, ..] = bytes else {
        return None;
    };
    let pgn = field(*p, *q, *r)?;
    Some(Wire::Request { pgn })
}

// What an Acknowledgement means.
#[tactic(auto, unfolding(crate::specs::Reading::ack_of))]
fn read_ack(bytes: &[u8]) -> Option<Wire<'_>>
    ensures { result ≡ ack_of bytes.now }
{
    let [control, _, _, _, address, p, q, r] = bytes else {
        return None;
    };
    let pgn = field(*p, *q, *r)?;
    Some(Wire::Ack {
        control: *control,
        address: Address(*address),
        pgn,
    })
}

// Whether the table has it to this destination.
#[inline]
fn goes_to(wire: &Wire<'_>, to: Address) -> bool
    ensures { result ≡ goes_to wire.now to.0 }
{
    match wire {
        Wire::Cm(CmFrame::Bam { .. }) => to == Address::GLOBAL,
        Wire::Packet { kind: Kind::Tp, .. } | Wire::Request { .. } | Wire::Ack { .. } => {
            to.is_one() || to == Address::GLOBAL
        }
        Wire::Cm(_)
        | Wire::Packet {
            kind: Kind::Etp,
            ..
        } => to.is_one(),
    }
}

// Whether the table has it from this source.
#[inline]
fn comes_from(wire: &Wire<'_>, from: Address) -> bool
    ensures { result ≡ comes_from wire.now from.0 }
{
    match wire {
        Wire::Request { .. } => from <= Address::NULL,
        _ => from.is_one(),
    }
}

// The meaning from one address to another, if the table allows it between them.
#[inline(always)]
fn between<'f>(
    from: Address,
    to: Address,
    body: Option<Wire<'f>>,
) -> Option<(Wire<'f>, Address, Address)>
    ensures meaning { result ≡ between from to body.entry }
    ensures source { IfSome result (λ r. comes_from r.0 r.1.0 ≡ true) }
{
    let wire = body?;
    if goes_to(&wire, to) && comes_from(&wire, from) {
        Some((wire, from, to))
    } else {
        None
    }
}

/// `read` of a frame whose identifier is read already.
// Nearly all frames are data packets: each kind of them has an arm of its own, so that its addresses are tested without a
// second match on the row.
#[inline(always)]
#[tactic(auto, unfolding(crate::specs::Reading::reading, crate::specs::Reading::body_of))]
pub fn read_in_place<'f>(
    frame: &'f Frame,
    meaning: &IdMeaning,
) -> Option<(Wire<'f>, Address, Address)>
    requires { meaning.now ≡ meaning_of frame.now.id }
    ensures meaning { result ≡ reading frame.now }
    ensures source { IfSome result (λ r. comes_from r.0 r.1.0 ≡ true) }
{
    let (from, to, bytes) = (meaning.from, meaning.to, frame.bytes());
    match meaning.pgn.raw() {
        TP_DT => between(from, to, read_packet(Kind::Tp, bytes)),
        ETP_DT => between(from, to, read_packet(Kind::Etp, bytes)),
        TP_CM => between(from, to, read_tp_cm(bytes)),
        ETP_CM => between(from, to, read_etp_cm(bytes)),
        REQUEST => between(from, to, read_request(bytes)),
        ACKNOWLEDGEMENT => between(from, to, read_ack(bytes)),
        _ => None,
    }
}

/// The meaning of a frame, with its source and destination, if it shows a row of the frame table. Its priority and the
/// row's reserved bytes may have any value.
///
/// None for other traffic and for malformed frames: another length, control byte, destination or source than the
/// table's, sequence number 0, or a PGN field above 18 bits. A Request has 3 to 8 bytes, and the first three are read;
/// all others have 8.
#[inline(always)]
pub fn read(frame: &Frame) -> Option<(Wire<'_>, Address, Address)>
    ensures meaning { result ≡ reading frame.now }
    ensures exact { (wire : Wire) (from to : Address) → (result ≡ Some (wire, from, to)) ↔ Reads frame.now wire from.0 to.0 }
    ensures in_table { IfSome result (λ r. IsRow r.0 r.1.0 r.2.0) }
{
    let _in_range = frame.bytes();
    read_in_place(frame, &read_id(frame.id()))
}

/// Whether the PGN of a frame, its data pages included, is one of the frame table's six: those of TP.CM, TP.DT, ETP.CM,
/// ETP.DT, Request and Acknowledgement. Such a frame without a meaning is malformed.
#[inline]
#[tactic(auto, unfolding(crate::specs::Reading::is_transport))]
pub fn is_transport(frame: &Frame) -> bool
    ensures { result ≡ is_transport frame.now }
{
    matches!(
        read_id(frame.id()).pgn.raw(),
        TP_CM | TP_DT | ETP_CM | ETP_DT | REQUEST | ACKNOWLEDGEMENT
    )
}
