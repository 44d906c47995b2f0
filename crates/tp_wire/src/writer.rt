//! The frame of a meaning (SAE J1939-21; ISO 11783-3).
ghost use Rattle.std.specs.Prelude.{◌≡◌, ◌<◌, ◌/◌, ◌%◌, ◌^◌, ◌∷◌, ◌++◌, [], true};
ghost use Rattle.pgn_ids.specs.Pgn.{is_pdu1};
ghost use Rattle.pgn_ids.specs.Identifier.{id_of};
ghost use Rattle.tp_wire.specs.Octets.{three as three_octets, written_bytes};
ghost use Rattle.tp_wire.specs.Rows.{cm_pgn, octets_of, goes_to, comes_from, HasNumbers, HasWidths, written, Writes};
ghost use Rattle.tp_wire.specs.declared.wire.Wire.TheVariants.{Cm, Packet, Request, Ack};

use crate::constants::{
    ACKNOWLEDGEMENT, CONN_ABORT, ETP_CM, ETP_CTS, ETP_DPO, ETP_DT, ETP_EOMA, ETP_RTS, REQUEST,
    REQUEST_PRIORITY, RESERVED, TP_BAM, TP_CM, TP_CTS, TP_DT, TP_END_OF_MSG_ACK, TP_RTS,
    TRANSPORT_PRIORITY,
};
use crate::packet::PacketBytes;
use crate::wire::{CmFrame, Kind, Wire};
use bus_frame::{CanId, Frame, IdParts};
use pgn_ids::{Address, WirePgn};

// A number in two bytes, the least first.
#[inline]
fn two(number: u16) -> [u8; 2]
    ensures { result ≡ (number % 2 ^ 8) ∷ (number / 2 ^ 8) ∷ [] }
{
    [(number % 256) as u8, (number / 256) as u8]
}

// A number in three bytes, the least first.
#[inline]
fn three(number: u32) -> [u8; 3]
    requires { number < 2 ^ 24 }
    ensures { result ≡ (number % 2 ^ 8) ∷ (number / 2 ^ 8 % 2 ^ 8) ∷ (number / 2 ^ 16) ∷ [] }
{
    [
        (number % 256) as u8,
        (number / 256 % 256) as u8,
        (number / 0x1_0000) as u8,
    ]
}

// A number in four bytes, the least first.
#[inline]
fn four(number: u32) -> [u8; 4]
    ensures { result ≡ (number % 2 ^ 8) ∷ (number / 2 ^ 8 % 2 ^ 8) ∷ (number / 2 ^ 16 % 2 ^ 8) ∷ (number / 2 ^ 24) ∷ [] }
{
    [
        (number % 256) as u8,
        (number / 256 % 256) as u8,
        (number / 0x1_0000 % 256) as u8,
        (number / 0x100_0000) as u8,
    ]
}

// The identifier of a PDU1 frame whose data pages are 0.
#[inline]
fn pdu1_id(priority: u8, pgn: u32, from: Address, to: Address) -> CanId
    requires priority { priority < 8 }
    requires pages { pgn < 2 ^ 16 }
    requires pdu1 { is_pdu1 pgn ≡ true }
    ensures { result ≡ id_of priority pgn to.0 from.0 }
{
    CanId::from_parts(IdParts {
        priority,
        edp: 0,
        dp: 0,
        pf: (pgn / 256) as u8,
        ps: to.0,
        sa: from.0,
    })
}

// A control, a size of TP, a number of packets and one more byte.
#[inline(always)]
fn sized(control: u8, size: u16, packets: u8, last: u8) -> [u8; 5]
    ensures { result ≡ control ∷ (size % 2 ^ 8) ∷ (size / 2 ^ 8) ∷ packets ∷ last ∷ [] }
{
    let [s0, s1] = two(size);
    [control, s0, s1, packets, last]
}

// A control and a size of ETP.
#[inline(always)]
fn extended(control: u8, size: u32) -> [u8; 5]
    ensures { result ≡ control ∷ (size % 2 ^ 8) ∷ (size / 2 ^ 8 % 2 ^ 8) ∷ (size / 2 ^ 16 % 2 ^ 8) ∷ (size / 2 ^ 24) ∷ [] }
{
    let [s0, s1, s2, s3] = four(size);
    [control, s0, s1, s2, s3]
}

// A control, a number of packets and the number of a packet of ETP.
#[inline(always)]
fn numbered(control: u8, packets: u8, number: u32) -> [u8; 5]
    requires { number < 2 ^ 24 }
    ensures { result ≡ control ∷ packets ∷ (number % 2 ^ 8) ∷ (number / 2 ^ 8 % 2 ^ 8) ∷ (number / 2 ^ 16) ∷ [] }
{
    let [n0, n1, n2] = three(number);
    [control, packets, n0, n1, n2]
}

// The bytes of a connection management frame before its PGN.
#[inline(always)]
fn bytes_before_pgn(frame: CmFrame) -> [u8; 5]
    requires { HasNumbers (Cm frame) }
    ensures { written_bytes (octets_of (Cm frame)) ≡ result ++ written_bytes (three_octets (cm_pgn frame)) }
{
    match frame {
        CmFrame::Rts {
            size,
            packets,
            most,
            ..
        } => sized(TP_RTS, size, packets, most),
        CmFrame::Cts { granted, next, .. } => [TP_CTS, granted, next, RESERVED, RESERVED],
        CmFrame::EndOfMsgAck { size, packets, .. } => {
            sized(TP_END_OF_MSG_ACK, size, packets, RESERVED)
        }
        CmFrame::Bam { size, packets, .. } => sized(TP_BAM, size, packets, RESERVED),
        CmFrame::Abort { reason, .. } => [CONN_ABORT, reason, RESERVED, RESERVED, RESERVED],
        CmFrame::EtpRts { size, .. } => extended(ETP_RTS, size),
        CmFrame::EtpCts { granted, next, .. } => numbered(ETP_CTS, granted, next),
        CmFrame::EtpDpo {
            packets,
            offset,
            ..
        } => numbered(ETP_DPO, packets, offset),
        CmFrame::EtpEoma { size, .. } => extended(ETP_EOMA, size),
        CmFrame::EtpAbort { reason, .. } => [CONN_ABORT, reason, RESERVED, RESERVED, RESERVED],
    }
}

// The eight bytes of a connection management frame.
#[inline(always)]
fn cm_bytes(frame: CmFrame) -> [u8; 8]
    requires { HasNumbers (Cm frame) }
    ensures { result ≡ written_bytes (octets_of (Cm frame)) }
{
    let [p0, p1, p2] = three(frame.pgn().raw());
    let [b0, b1, b2, b3, b4] = bytes_before_pgn(frame);
    [b0, b1, b2, b3, b4, p0, p1, p2]
}

// The frame of a connection row.
#[inline(always)]
#[tactic(auto, unfolding(crate::specs::Rows::written))]
fn write_cm(frame: CmFrame, from: Address, to: Address) -> Frame
    requires { HasNumbers (Cm frame) }
    ensures value { result ≡ written (Cm frame) from.0 to.0 }
    ensures widths { HasWidths (Cm frame) }
{
    let _field = frame.pgn().raw();
    let pgn = match frame.kind() {
        Kind::Tp => TP_CM,
        Kind::Etp => ETP_CM,
    };
    Frame::full(pdu1_id(TRANSPORT_PRIORITY, pgn, from, to), cm_bytes(frame))
}

// The frame of a data row.
#[inline(always)]
#[tactic(auto, unfolding(crate::specs::Rows::written))]
fn write_packet(
    kind: Kind,
    sequence: u8,
    bytes: PacketBytes<'_>,
    from: Address,
    to: Address,
) -> Frame
    ensures value { result ≡ written (Packet kind sequence bytes.entry) from.0 to.0 }
    ensures widths { HasWidths (Packet kind sequence bytes.entry) }
{
    let pgn = match kind {
        Kind::Tp => TP_DT,
        Kind::Etp => ETP_DT,
    };
    let mut data = [sequence; 8];
    data[1..].copy_from_slice(bytes.array());
    Frame::full(pdu1_id(TRANSPORT_PRIORITY, pgn, from, to), data)
}

// The frame of a Request.
#[inline(always)]
#[tactic(auto, unfolding(crate::specs::Rows::written))]
fn write_request(pgn: WirePgn, from: Address, to: Address) -> Frame
    ensures value { result ≡ written (Request pgn) from.0 to.0 }
    ensures widths { HasWidths (Request pgn) }
{
    let id = pdu1_id(REQUEST_PRIORITY, REQUEST, from, to);
    let bytes = three(pgn.raw());
    let Ok(frame) = Frame::new(id, &bytes) else {
        unreachable!()
    };
    frame
}

// The frame of an Acknowledgement.
#[inline(always)]
#[tactic(auto, unfolding(crate::specs::Rows::written))]
fn write_ack(control: u8, address: Address, pgn: WirePgn, from: Address, to: Address) -> Frame
    ensures value { result ≡ written (Ack control address pgn) from.0 to.0 }
    ensures widths { HasWidths (Ack control address pgn) }
{
    let [p0, p1, p2] = three(pgn.raw());
    Frame::full(
        pdu1_id(REQUEST_PRIORITY, ACKNOWLEDGEMENT, from, to),
        [control, RESERVED, RESERVED, RESERVED, address.0, p0, p1, p2],
    )
}

/// The frame that is written for a meaning from one address to another. The frame table has to have it: a sequence
/// number is from 1, a packet number or offset of ETP below 2^24, the source one node (of a Request also the null
/// address), and the destination all for a BAM, one node or all for a TP.DT, a Request and an Acknowledgement, and
/// one node for the others (SAE J1939-21, TP.CM and TP.DT; ISO 11783-3, ETP.CM and ETP.DT).
// Inlined, so that a caller that names the row runs this row alone.
#[inline(always)]
pub fn write(wire: Wire<'_>, from: Address, to: Address) -> Frame
    requires numbers { HasNumbers wire }
    requires source { comes_from wire from.0 ≡ true }
    requires destination { goes_to wire to.0 ≡ true }
    ensures value { result ≡ written wire.entry from.0 to.0 }
    ensures row { Writes wire.entry from.0 to.0 result }
{
    match wire {
        Wire::Cm(frame) => write_cm(frame, from, to),
        Wire::Packet {
            kind,
            sequence,
            bytes,
        } => write_packet(kind, sequence, bytes, from, to),
        Wire::Request { pgn } => write_request(pgn, from, to),
        Wire::Ack {
            control,
            address,
            pgn,
        } => write_ack(control, address, pgn, from, to),
    }
}
