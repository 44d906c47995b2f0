//! What a transport frame means.
ghost use Rattle.std.specs.Prelude.{◌≡◌};
ghost use Rattle.tp_wire.specs.Aborts.{connection_abort};
ghost use Rattle.tp_wire.specs.Reason.{reason_byte};
ghost use Rattle.tp_wire.specs.Rows.{cm_kind, cm_pgn, kind_of, pgn_of};

use crate::packet::PacketBytes;
use crate::reason::AbortReason;
use pgn_ids::{Address, WirePgn};

/// Which of the two transports.
#[derive(Clone, Copy, Debug, PartialEq, Eq)]
pub enum Kind {
    /// The transport protocol, up to 1,785 bytes (SAE J1939-21).
    Tp,
    /// The extended transport protocol, up to 117,440,505 bytes (ISO 11783-3).
    Etp,
}

/// What a connection management frame means. A `pgn` is the field as it was received, or is to be written.
#[derive(Clone, Copy, Debug, PartialEq, Eq)]
pub enum CmFrame {
    /// TP.CM_RTS: a message of `size` bytes in `packets`; a CTS may grant `most` at once.
    Rts {
        size: u16,
        packets: u8,
        most: u8,
        pgn: WirePgn,
    },
    /// TP.CM_CTS: `granted` packets from `next` on, from 1; none is a hold.
    Cts {
        granted: u8,
        next: u8,
        pgn: WirePgn,
    },
    /// TP.CM_EndOfMsgAck.
    EndOfMsgAck {
        size: u16,
        packets: u8,
        pgn: WirePgn,
    },
    /// TP.CM_BAM.
    Bam {
        size: u16,
        packets: u8,
        pgn: WirePgn,
    },
    /// A connection abort in TP.CM.
    Abort {
        reason: u8,
        pgn: WirePgn,
    },
    /// ETP.CM_RTS: a message of `size` bytes.
    EtpRts {
        size: u32,
        pgn: WirePgn,
    },
    /// ETP.CM_CTS: `granted` packets from `next` on, from 1 and of 24 bits; none is a hold.
    EtpCts {
        granted: u8,
        next: u32,
        pgn: WirePgn,
    },
    /// ETP.CM_DPO: `packets` follow whose numbers are their sequence numbers plus `offset`, of 24 bits.
    EtpDpo {
        packets: u8,
        offset: u32,
        pgn: WirePgn,
    },
    /// ETP.CM_EOMA.
    EtpEoma {
        size: u32,
        pgn: WirePgn,
    },
    /// A connection abort in ETP.CM.
    EtpAbort {
        reason: u8,
        pgn: WirePgn,
    },
}

/// What a frame of one of the six PGNs means. The bytes of a packet stay in the frame.
#[derive(Debug, Drop, PartialEq, Eq)]
pub enum Wire<'f> {
    /// A connection management frame.
    Cm(CmFrame),
    /// TP.DT or ETP.DT: seven bytes with a sequence number from 1.
    Packet {
        kind: Kind,
        sequence: u8,
        bytes: PacketBytes<'f>,
    },
    /// A Request.
    Request {
        pgn: WirePgn,
    },
    /// An Acknowledgement of a Request of `address`.
    Ack {
        control: u8,
        address: Address,
        pgn: WirePgn,
    },
}

impl CmFrame {
    /// The connection abort of a transport, for this reason.
    #[inline]
    pub fn abort(kind: Kind, reason: AbortReason, pgn: WirePgn) -> CmFrame
        ensures { result ≡ connection_abort kind (reason_byte reason) pgn }
    {
        let reason = reason.byte();
        match kind {
            Kind::Tp => CmFrame::Abort { reason, pgn },
            Kind::Etp => CmFrame::EtpAbort { reason, pgn },
        }
    }

    /// The transport that it belongs to.
    #[inline]
    pub fn kind(&self) -> Kind
        ensures { result ≡ cm_kind self.now }
    {
        match self {
            CmFrame::Rts { .. } => Kind::Tp,
            CmFrame::Cts { .. } => Kind::Tp,
            CmFrame::EndOfMsgAck { .. } => Kind::Tp,
            CmFrame::Bam { .. } => Kind::Tp,
            CmFrame::Abort { .. } => Kind::Tp,
            CmFrame::EtpRts { .. } => Kind::Etp,
            CmFrame::EtpCts { .. } => Kind::Etp,
            CmFrame::EtpDpo { .. } => Kind::Etp,
            CmFrame::EtpEoma { .. } => Kind::Etp,
            CmFrame::EtpAbort { .. } => Kind::Etp,
        }
    }

    /// Its PGN field, as it was received or is to be written.
    #[inline]
    pub fn pgn(&self) -> WirePgn
        ensures { result ≡ cm_pgn self.now }
    {
        match self {
            CmFrame::Rts { pgn, .. } => *pgn,
            CmFrame::Cts { pgn, .. } => *pgn,
            CmFrame::EndOfMsgAck { pgn, .. } => *pgn,
            CmFrame::Bam { pgn, .. } => *pgn,
            CmFrame::Abort { pgn, .. } => *pgn,
            CmFrame::EtpRts { pgn, .. } => *pgn,
            CmFrame::EtpCts { pgn, .. } => *pgn,
            CmFrame::EtpDpo { pgn, .. } => *pgn,
            CmFrame::EtpEoma { pgn, .. } => *pgn,
            CmFrame::EtpAbort { pgn, .. } => *pgn,
        }
    }
}

impl Wire<'_> {
    /// The transport that it belongs to: none of a Request or an Acknowledgement.
    #[inline]
    pub fn kind(&self) -> Option<Kind>
        ensures { result ≡ kind_of self.now }
    {
        match self {
            Wire::Cm(frame) => Some(frame.kind()),
            Wire::Packet { kind, .. } => Some(*kind),
            Wire::Request { .. } => None,
            Wire::Ack { .. } => None,
        }
    }

    /// Its PGN field, as it was received or is to be written: none in a packet.
    #[inline]
    pub fn pgn(&self) -> Option<WirePgn>
        ensures { result ≡ pgn_of self.now }
    {
        match self {
            Wire::Cm(frame) => Some(frame.pgn()),
            Wire::Packet { .. } => None,
            Wire::Request { pgn } => Some(*pgn),
            Wire::Ack { pgn, .. } => Some(*pgn),
        }
    }
}
