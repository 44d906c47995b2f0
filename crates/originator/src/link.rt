//! The message that a connection carries, and its sender's frames.
ghost use Rattle.std.specs.Prelude.{◌≡◌, ◌-◌, ◌^◌, ◌<◌, ◌≤◌, ◌↔◌, true, length, IsTrue};
ghost use Rattle.tp_wire.specs.Sizes.{is_size_of};
ghost use Rattle.pgn_ids.specs.Address.{is_one};
ghost use Rattle.tp_wire.specs.Rows.{HasNumbers, goes_to};
ghost use Rattle.tp_wire.specs.declared.wire.CmFrame.TheVariants.{EtpDpo};
ghost use Rattle.tp_wire.specs.declared.wire.Wire.TheVariants.{Cm};
ghost use Rattle.originator.specs.Link.{is_of_link, packets_of, frame_of, rts_frame as rts_of, abort_frame as abort_of};
ghost use Rattle.originator.specs.Pump.{packet_frame as packet_of};

use bus_frame::Frame;
use pgn_ids::{Address, Pgn, WirePgn};
use seg_cut::{packet, packets};
use std::marker::Model;
use tp_wire::constants::ANY_WINDOW;
use tp_wire::{AbortReason, CmFrame, Kind, PacketBytes, Wire, write};

/// The message that a connection carries: its transport, the addresses of sender and destination, its PGN and its
/// length in bytes. The number of its packets is kept.
#[derive(Clone, Copy)]
pub(crate) struct Link {
    kind: Kind,
    from: Address,
    to: Address,
    pgn: Pgn,
    len: u32,
    packets: u32,
}

impl Model for Link {
    ghost use Rattle.originator.specs.Link.{Link};

    ghost Value = { Link };

    ghost use Rattle.originator.specs.LinkFields.{view_link, IsLink, link_fields, link_fields_back};

    ghost view = { view_link };

    ghost invariant = { IsLink };

    ghost inverse = { link_fields };

    ghost inverse_ok = { link_fields_back };
}

impl Link {
    /// A message of `len` bytes between two nodes.
    pub(crate) fn new(kind: Kind, from: Address, to: Address, pgn: Pgn, len: u32) -> Link
        requires from_one { is_one from.0 ≡ true }
        requires to_one { is_one to.0 ≡ true }
        requires in_range { is_size_of kind len ≡ true }
        ensures { result ≡ record { kind = kind; from = from.0; to = to.0; pgn = pgn; len = len } }
    {
        Link {
            kind,
            from,
            to,
            pgn,
            len,
            packets: packets(len),
        }
    }

    /// The transport that carries it.
    pub(crate) fn kind(self) -> Kind
        ensures { result ≡ self.kind }
    {
        self.kind
    }

    /// The address of its sender.
    pub(crate) fn from(self) -> Address
        ensures { result.0 ≡ self.from }
    {
        self.from
    }

    /// The address of its destination.
    pub(crate) fn to(self) -> Address
        ensures { result.0 ≡ self.to }
    {
        self.to
    }

    /// The length of the message in bytes.
    pub(crate) fn len(self) -> u32
        ensures { result ≡ self.len }
    {
        self.len
    }

    /// How many packets it has.
    pub(crate) fn packets(self) -> u32
        ensures value { result ≡ packets_of self }
        ensures some { 1 ≤ result }
        ensures in_range { result < 2 ^ 24 }
    {
        self.packets
    }

    /// Whether a frame of this transport with this PGN field belongs to the message.
    pub(crate) fn is_of(self, kind: Kind, pgn: WirePgn) -> bool
        ensures { result ≡ is_of_link self kind pgn }
    {
        self.kind == kind && pgn.clean().raw() == self.pgn.raw()
    }

    /// Whether it equals another message.
    pub(crate) fn is_same(self, other: Link) -> bool
        ensures { IsTrue result ↔ (self ≡ other) }
    {
        self.kind == other.kind
            && self.from.0 == other.from.0
            && self.to.0 == other.to.0
            && self.pgn.raw() == other.pgn.raw()
            && self.len == other.len
    }

    /// A connection management frame to the destination.
    fn cm_frame(self, frame: CmFrame) -> Frame
        requires numbers { HasNumbers (Cm frame) }
        requires destination { goes_to (Cm frame) self.to ≡ true }
        ensures { result ≡ frame_of self (Cm frame) }
    {
        write(Wire::Cm(frame), self.from, self.to)
    }

    /// The request to send.
    pub(crate) fn rts_frame(self) -> Frame
        ensures { result ≡ rts_of self }
    {
        let pgn = self.pgn.field();
        self.cm_frame(match self.kind {
            Kind::Tp => CmFrame::Rts {
                size: self.len as u16,
                packets: self.packets as u8,
                most: ANY_WINDOW,
                pgn,
            },
            Kind::Etp => CmFrame::EtpRts {
                size: self.len,
                pgn,
            },
        })
    }

    /// The connection abort.
    pub(crate) fn abort_frame(self, reason: AbortReason) -> Frame
        ensures { result ≡ abort_of self reason }
    {
        self.cm_frame(CmFrame::abort(self.kind, reason, self.pgn.field()))
    }

    /// The data packet offset (DPO) of a window of so many packets.
    pub(crate) fn dpo_frame(self, packets: u8, offset: u32) -> Frame
        requires { offset < packets_of self }
        ensures { result ≡ frame_of self (Cm (EtpDpo packets offset self.pgn)) }
    {
        let pgn = self.pgn.field();
        self.cm_frame(CmFrame::EtpDpo {
            packets,
            offset,
            pgn,
        })
    }

    /// Packet `k` of the message, in a window from packet `next` on.
    #[inline]
    pub(crate) fn packet_frame(self, next: u32, bytes: &[u8], k: u32) -> Frame
        requires message { length bytes.now ≡ self.len }
        requires from_first { 1 ≤ next }
        requires from_next { next ≤ k }
        requires to_last { k ≤ packets_of self }
        requires in_window { k - (next - 1) < 256 }
        ensures { result ≡ packet_of self next bytes.now k }
    {
        let sequence = match self.kind {
            Kind::Tp => k as u8,
            Kind::Etp => (k - (next - 1)) as u8,
        };
        let seven = packet(bytes, k);
        write(
            Wire::Packet {
                kind: self.kind,
                sequence,
                bytes: PacketBytes::new(&seven),
            },
            self.from,
            self.to,
        )
    }
}
