//! PGNs, frames and what frames mean by their numbers: tables of steps name them so.
use crate::checks::got;
use bus_frame::{CanId, Frame};
use pgn_ids::{Address, Pgn, WirePgn};
use std::process::Abort;
use tp_wire::{CmFrame, Kind, PacketBytes, Wire};

/// Diagnostic message 1, a PGN of the PDU2 format.
pub(crate) const FECA: u32 = 0xFECA;

/// Diagnostic message 2.
const FECB: u32 = 0xFECB;

pub(crate) fn pgn(rt: &impl Abort, raw: u32) -> Pgn {
    got(rt, Pgn::new(raw))
}

pub(crate) fn wire_pgn(rt: &impl Abort, raw: u32) -> WirePgn {
    got(rt, WirePgn::new(raw))
}

pub(crate) fn frame(rt: &impl Abort, id: u32, bytes: &[u8]) -> Frame {
    got(rt, Frame::new(got(rt, CanId::new(id)), bytes))
}

/// A frame by its identifier and its bytes.
pub(crate) type Shown = (u32, [u8; 8]);

/// Whether it is this frame.
pub(crate) fn is_frame(frame: &Frame, (id, bytes): &Shown) -> bool {
    frame.id().raw() == *id && frame.bytes() == bytes.as_slice()
}

/// Whether it is this frame, or none.
pub(crate) fn is_shown(frame: &Option<Frame>, shown: &Option<Shown>) -> bool {
    match frame {
        Some(frame) => {
            match shown {
                Some(shown) => is_frame(frame, shown),
                None => false,
            }
        }
        None => shown.is_none(),
    }
}

/// A packet of a transport.
#[derive(Clone, Copy)]
pub(crate) struct Packet {
    pub(crate) kind: Kind,
    pub(crate) sequence: u8,
    pub(crate) bytes: [u8; 7],
}

impl Packet {
    /// What its frame means.
    pub(crate) fn wire(&self) -> Wire<'_> {
        Wire::Packet {
            kind: self.kind,
            sequence: self.sequence,
            bytes: PacketBytes::new(&self.bytes),
        }
    }
}

/// The packets of the bytes 01 to 09 by TP.
pub(crate) const FIRST: Packet = Packet {
    kind: Kind::Tp,
    sequence: 1,
    bytes: [1, 2, 3, 4, 5, 6, 7],
};

pub(crate) const LAST: Packet = Packet {
    kind: Kind::Tp,
    sequence: 2,
    bytes: [8, 9, 0xFF, 0xFF, 0xFF, 0xFF, 0xFF],
};

/// A connection management frame but for its PGN.
pub(crate) enum Cm {
    /// The size, the packets, and how many of them a CTS may grant.
    Rts(u16, u8, u8),
    /// The granted packets, and the next one.
    Cts(u8, u8),
    /// The size and the packets.
    End(u16, u8),
    /// The size and the packets.
    Bam(u16, u8),
    /// The reason.
    Abort(u8),
    /// The size.
    EtpRts(u32),
    /// The granted packets, and the next one.
    EtpCts(u8, u32),
    /// The packets and their offset.
    EtpDpo(u8, u32),
    /// The size.
    EtpEnd(u32),
    /// The reason.
    EtpAbort(u8),
}

/// What a frame means.
pub(crate) enum Means {
    /// A connection management frame of FECA.
    Cm(Cm),
    /// One of FECB, which no message has.
    CmOfOther(Cm),
    Packet(Packet),
    /// A Request for this PGN.
    Request(u32),
    /// The control byte, the address and the PGN of an Acknowledgement.
    Ack(u8, u8, u32),
}

fn cm_frame(frame: &Cm, pgn: WirePgn) -> CmFrame {
    match frame {
        Cm::Rts(size, packets, most) => CmFrame::Rts {
            size: *size,
            packets: *packets,
            most: *most,
            pgn,
        },
        Cm::Cts(granted, next) => CmFrame::Cts {
            granted: *granted,
            next: *next,
            pgn,
        },
        Cm::End(size, packets) => CmFrame::EndOfMsgAck {
            size: *size,
            packets: *packets,
            pgn,
        },
        Cm::Bam(size, packets) => CmFrame::Bam {
            size: *size,
            packets: *packets,
            pgn,
        },
        Cm::Abort(reason) => CmFrame::Abort {
            reason: *reason,
            pgn,
        },
        Cm::EtpRts(size) => CmFrame::EtpRts { size: *size, pgn },
        Cm::EtpCts(granted, next) => CmFrame::EtpCts {
            granted: *granted,
            next: *next,
            pgn,
        },
        Cm::EtpDpo(packets, offset) => CmFrame::EtpDpo {
            packets: *packets,
            offset: *offset,
            pgn,
        },
        Cm::EtpEnd(size) => CmFrame::EtpEoma { size: *size, pgn },
        Cm::EtpAbort(reason) => CmFrame::EtpAbort {
            reason: *reason,
            pgn,
        },
    }
}

/// The meaning with these numbers.
pub(crate) fn wire<'a>(rt: &impl Abort, means: &'a Means) -> Wire<'a> {
    match means {
        Means::Cm(frame) => Wire::Cm(cm_frame(frame, wire_pgn(rt, FECA))),
        Means::CmOfOther(frame) => Wire::Cm(cm_frame(frame, wire_pgn(rt, FECB))),
        Means::Packet(packet) => packet.wire(),
        Means::Request(pgn) => Wire::Request {
            pgn: wire_pgn(rt, *pgn),
        },
        Means::Ack(control, address, pgn) => Wire::Ack {
            control: *control,
            address: Address(*address),
            pgn: wire_pgn(rt, *pgn),
        },
    }
}
