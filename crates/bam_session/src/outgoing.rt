//! Sending to all.
ghost use Rattle.std.specs.Prelude.{◌≡◌, ◌+◌, ◌≤◌, ◌==◌, length, true};
ghost use Rattle.pgn_ids.specs.Address.{is_one};
ghost use Rattle.seg_cut.specs.Packets.{packet_count};
ghost use Rattle.tick_timers.specs.Due.{IsDueFrom};
ghost use Rattle.tick_timers.specs.Timers.{is_due as is_due_at};
ghost use Rattle.bam_session.specs.States.{is_size};
ghost use Rattle.bam_session.specs.Frames.{announcement, next_packet};
ghost use Rattle.bam_session.specs.Sending.{begun, pumped, led, missing as missing_of, packets_left};

use bus_frame::Frame;
use pgn_ids::{Address, Pgn};
use seg_cut::{packet, packets};
use std::marker::Model;
use tick_timers::{BROADCAST_GAP, Timer};
use tp_wire::{CmFrame, Kind, PacketBytes, Wire, write};

/// A message to all whose packets are being queued. It must be spent.
pub struct BamOut {
    pub(crate) from: Address,
    pub(crate) len: u32,
    pub(crate) next: u8,
    pub(crate) gap: Timer,
}

impl Model for BamOut {
    ghost use Rattle.bam_session.specs.States.{Outgoing};

    ghost Value = { Outgoing };

    ghost use Rattle.bam_session.specs.Shape.{outgoing_value, IsSending};

    ghost view = { outgoing_value };

    ghost invariant = { IsSending };
}

/// A packet of a message to all, which is to be queued, and whether it is the last.
#[derive(Clone, Copy, Debug, PartialEq, Eq)]
pub struct BamPacket {
    pub frame: Frame,
    pub is_last: bool,
}

/// What follows from a pump.
pub enum BamPumped {
    /// The next packet, which is to be queued; further ones follow.
    On(BamOut, Frame),
    /// The last packet, which is to be queued: the whole message is sent.
    Last(Frame),
    /// The 50 ticks since its last frame have not passed.
    NotYet(BamOut),
}

impl BamOut {
    /// Announces a message of `len` bytes, 9 to 1,785, from the address of a node at tick `now`: the state, and the
    /// BAM, which is to be queued.
    pub fn begin(from: Address, pgn: Pgn, len: u32, now: u64) -> (BamOut, Frame)
        requires source { is_one from.0 ≡ true }
        requires size { is_size len ≡ true }
        ensures { result ≡ begun from.0 pgn len now }
    {
        let state = BamOut {
            from,
            len,
            next: 1,
            gap: Timer::start(now, BROADCAST_GAP),
        };
        (state, announce(from, pgn, len))
    }

    /// Gives the next packet to be queued, at tick `now`. `bytes` is the whole message.
    ///
    /// None if fewer than 50 ticks have passed since the message's last queued frame; then nothing changes. After the last
    /// packet only `cancel` is left to do.
    #[inline]
    pub fn take_packet(&mut self, bytes: &[u8], now: u64) -> Option<BamPacket>
        requires { length bytes.now ≡ self.old.len }
        ensures step { pumped self.old bytes.now now ≡ led result self.new }
        ensures len { self.new.len ≡ self.old.len }
    {
        if !self.is_due(now) {
            return None;
        }
        let frame = self.packet_frame(bytes);
        let is_last = u32::from(self.next) == packets(self.len);
        if !is_last {
            self.next += 1;
            self.gap = Timer::start(now, BROADCAST_GAP);
        }
        Some(BamPacket { frame, is_last })
    }

    /// `take_packet`, by value.
    pub fn pump(mut self, bytes: &[u8], now: u64) -> BamPumped
        requires { length bytes.now ≡ self.len }
        ensures { result ≡ pumped self bytes.now now }
    {
        let Some(packet) = self.take_packet(bytes, now) else {
            return BamPumped::NotYet(self);
        };
        if packet.is_last {
            self.cancel();
            return BamPumped::Last(packet.frame);
        }
        BamPumped::On(self, packet.frame)
    }

    /// Whether the 50 ticks since its last queued frame have passed at tick `now`.
    pub fn is_due(&self, now: u64) -> bool
        ensures { result ≡ is_due_at self.now.gap now }
    {
        self.gap.is_due(now)
    }

    /// The tick at which the 50 ticks since its last queued frame have passed. None if that would be past the end of `u64`.
    pub fn due_at(&self) -> Option<u64>
        ensures { IsDueFrom (is_due_at self.now.gap) result }
    {
        self.gap.due_at()
    }

    /// How many of the 50 ticks since its last queued frame are missing at tick `now`.
    pub fn missing(&self, now: u64) -> u64
        ensures value { result ≡ missing_of self.now now }
        ensures due { self.now.gap.started ≤ now → is_due_at self.now.gap (now + result) ≡ true }
    {
        self.gap.missing(now)
    }

    /// How many of its packets are still to be queued.
    pub fn left(&self) -> u32
        ensures { result ≡ packets_left self.now.len self.now.next }
    {
        packets(self.len) - u32::from(self.next - 1)
    }

    /// The frame of its next packet.
    fn packet_frame(&self, bytes: &[u8]) -> Frame
        requires { length bytes.now ≡ self.now.len }
        ensures { result ≡ next_packet self.now bytes.now }
    {
        let seven = packet(bytes, u32::from(self.next));
        let wire = Wire::Packet {
            kind: Kind::Tp,
            sequence: self.next,
            bytes: PacketBytes::new(&seven),
        };
        write(wire, self.from, Address::GLOBAL)
    }

    /// Ends it without a frame.
    pub fn cancel(self) {
        let BamOut {
            from: _,
            len: _,
            next: _,
            gap: _,
        } = self;
    }
}

/// The BAM of a message.
fn announce(from: Address, pgn: Pgn, len: u32) -> Frame
    requires source { is_one from.0 ≡ true }
    requires size { is_size len ≡ true }
    ensures { result ≡ announcement from.0 pgn len }
{
    let frame = CmFrame::Bam {
        size: len as u16,
        packets: packets(len) as u8,
        pgn: pgn.field(),
    };
    write(Wire::Cm(frame), from, Address::GLOBAL)
}
