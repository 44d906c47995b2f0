//! Receiving from one that sends to all.
ghost use Rattle.std.specs.Prelude.{◌≡◌, ℕ, ◌<◌, ◌≤◌, true, length};
ghost use Rattle.seg_cut.specs.Packets.{packet_count};
ghost use Rattle.seg_cut.specs.Join.{IsJoin, joined, wants_last as wants_last_at};
ghost use Rattle.tick_timers.specs.Timers.{is_due as is_due_at};
ghost use Rattle.tp_wire.specs.declared.wire.Kind.TheVariants.{Tp};
ghost use Rattle.tp_wire.specs.declared.wire.Wire.TheVariants.{Packet};
ghost use Rattle.bam_session.specs.States.{is_size, announced};
ghost use Rattle.bam_session.specs.Receiving.{Completes, stepped, completes as completes_at, Leads};
ghost use Rattle.bam_session.specs.Shown.{shown};

mod image;

pub use image::BamInImage;
use pgn_ids::{Address, WirePgn};
use seg_cut::Join;
use std::marker::Model;
use tick_timers::{T1, Timer};
use tp_wire::{Kind, Wire};

/// A message to all whose packets are awaited. It must be spent.
pub struct BamIn {
    from: Address,
    pgn: WirePgn,
    join: Join,
    timer: Timer,
}

impl Model for BamIn {
    ghost use Rattle.bam_session.specs.States.{Incoming};

    ghost Value = { Incoming };

    ghost use Rattle.bam_session.specs.Shape.{incoming_value, IsUnfinished};

    ghost view = { incoming_value };

    ghost invariant = { IsUnfinished };
}

/// What is left to do after a frame. If it is anything but `Nothing`, nothing has changed yet.
#[derive(Clone, Copy, Debug, PartialEq, Eq)]
pub enum BamLeft {
    /// Further packets are awaited.
    Nothing,
    /// The frame completes the message: `complete` ends the receiver with it.
    Message,
    /// The packet is out of order: the message is to be dropped, by `close`.
    Dropped,
}

/// What follows from a packet.
pub enum BamStepped {
    /// Further packets are awaited.
    On(BamIn),
    /// The packet was the last: the bytes of the message.
    Complete(Vec<u8>),
    /// The packet was out of order: the message is dropped.
    Dropped,
}

impl BamIn {
    /// A message that was announced by a BAM with this source and PGN field, taken at tick `now`. The join is that of a
    /// message of 9 to 1,785 bytes that has no packet yet, with room for all its packets.
    pub fn begin(from: Address, pgn: WirePgn, join: Join, now: u64) -> BamIn
        requires size { is_size join.size ≡ true }
        requires empty { join.next ≡ 1 }
        requires room { packet_count join.size ≤ join.room }
        ensures { result ≡ announced from.0 pgn join now }
    {
        // A call of it, so that what holds of every join is known of this one.
        let _valid = join.next();
        BamIn {
            from,
            pgn,
            join,
            timer: Timer::start(now, T1),
        }
    }

    /// Takes a frame that its source sent to all, at tick `now`, and changes in place (SAE J1939-21, TP.DT). A frame that is
    /// no packet of this transport, or a packet received before, changes nothing. If a packet is out of order, the message is
    /// to be dropped.
    #[inline(always)]
    pub fn take(&mut self, wire: &Wire<'_>, now: u64) -> BamLeft
        ensures { Leads self.old wire.now now result self.new }
    {
        let Wire::Packet {
            kind: Kind::Tp,
            sequence,
            bytes,
        } = wire
        else {
            return BamLeft::Nothing;
        };
        self.take_packet(*sequence, bytes.array(), now)
    }

    /// `take`, by value: what follows from the frame.
    pub fn step(mut self, wire: &Wire<'_>, now: u64) -> BamStepped
        ensures { shown result ≡ stepped self wire.now now }
    {
        let Wire::Packet {
            kind: Kind::Tp,
            sequence,
            bytes,
        } = wire
        else {
            return BamStepped::On(self);
        };
        match self.take_packet(*sequence, bytes.array(), now) {
            BamLeft::Nothing => BamStepped::On(self),
            BamLeft::Message => BamStepped::Complete(self.complete(bytes.array())),
            BamLeft::Dropped => {
                self.end();
                BamStepped::Dropped
            }
        }
    }

    // Takes a packet, by the first row of the table that fits.
    #[inline(always)]
    fn take_packet(&mut self, sequence: u8, packet: &[u8; 7], now: u64) -> BamLeft
        ensures { Leads self.old (Packet Tp sequence packet.now) now result self.new }
    {
        let (number, next) = (u32::from(sequence), self.join.next());
        if number < next {
            return BamLeft::Nothing;
        }
        if number > next {
            return BamLeft::Dropped;
        }
        if self.join.wants_last() {
            return BamLeft::Message;
        }
        self.join.put_inner(packet);
        self.timer = Timer::start(now, T1);
        BamLeft::Nothing
    }

    /// Takes the last packet, which `take` left: the bytes of the message, as many as were announced.
    pub fn complete(self, packet: &[u8; 7]) -> Vec<u8>
        requires { wants_last_at self.join ≡ true }
        ensures value { result.items ≡ (joined self.join packet.now).bytes }
        ensures step { (sequence : ℕ) (now : ℕ) → completes_at self (Packet Tp sequence packet.now) ≡ true → stepped self (Packet Tp sequence packet.now) now ≡ Completes result.items }
        ensures size { length result.items ≡ self.join.size }
    {
        let BamIn {
            from: _,
            pgn: _,
            mut join,
            timer: _,
        } = self;
        join.put_last(packet);
        match join.finish() {
            Ok(bytes) => bytes,
            Err(_) => unreachable!(),
        }
    }

    /// Whether a step with this frame would complete the message.
    pub fn completes(&self, wire: &Wire<'_>) -> bool
        ensures { result ≡ completes_at self.now wire.now }
    {
        let Wire::Packet {
            kind: Kind::Tp,
            sequence,
            bytes: _,
        } = wire
        else {
            return false;
        };
        self.join.wants_last() && u32::from(*sequence) == self.join.next()
    }

    /// The address that the message is from.
    pub fn from(&self) -> Address
        ensures { result.0 ≡ self.now.from }
    {
        self.from
    }

    /// The PGN field of its BAM, as received.
    pub fn pgn(&self) -> WirePgn
        ensures { result ≡ self.now.pgn }
    {
        self.pgn
    }

    /// The size of the message in bytes.
    pub fn size(&self) -> u32
        ensures value { result ≡ self.now.join.size }
        ensures valid { IsJoin self.now.join }
    {
        self.join.size()
    }

    /// Its timer T1.
    pub fn timer(&self) -> Timer
        ensures { result ≡ self.now.timer }
    {
        self.timer
    }

    /// Whether its timer T1 is due at tick `now`.
    pub fn is_due(&self, now: u64) -> bool
        ensures { result ≡ is_due_at self.now.timer now }
    {
        self.timer.is_due(now)
    }

    /// Its timer fired: the message is dropped.
    pub fn expire(self) {
        self.end();
    }

    /// Nobody takes its message any more, or its source announced another: the message is dropped.
    pub fn close(self) {
        self.end();
    }

    /// Frames were missed: the message is dropped.
    pub fn overrun(self) {
        self.end();
    }

    fn end(self) {
        let BamIn {
            from: _,
            pgn: _,
            join: _,
            timer: _,
        } = self;
    }
}
