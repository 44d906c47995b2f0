//! A message under way, as a listener sees it.
ghost use Rattle.pgn_ids.specs.Pgn.{clean};
ghost use Rattle.std.specs.Prelude.{◌≡◌, ◌==◌, ◌*◌, ◌<◌, length, true, OnOk, IfOk, Some};
ghost use Rattle.seg_cut.specs.Join.{wants};
ghost use Rattle.log_decode.specs.Session.{first_window, opened, accepted, renewed, packet_heard, is_within, sequence_heard, cm_heard, acknowledged, heard, abort_heard, is_silent, patience, due, soonest, given_of, told_of, is_again};
ghost use Rattle.log_decode.specs.declared.session.Fate.TheVariants.{GoesOn, Lost};
ghost use Rattle.log_decode.specs.declared.session.TheConstants.{CONNECTION_PATIENCE};
ghost use Rattle.tick_timers.specs.declared.durations.TheConstants.{T2, T3, T4};

use log_fields::TICK;
use log_reports::{Bytes, Cause, Key, Told, Transport};
use pgn_ids::{Address, Pgn, WirePgn};
use seg_cut::Join;
use std::alloc::{AllocError, Global};
use tick_timers::T1;
use tp_wire::CmFrame;
use tp_wire::constants::ETP_MAX_WINDOW;

/// What becomes of a message under way by a frame.
#[derive(Clone, Copy)]
pub enum Fate {
    /// It continues.
    GoesOn,
    /// All of it was received.
    Given,
    /// It is lost.
    Lost(Cause),
    /// One of its ends, `who`, aborted it.
    Aborted { reason: u8, who: Address },
}

/// A message under way.
#[derive(Drop)]
pub struct Session {
    /// The PGN field that announced it.
    pgn: WirePgn,
    /// The bytes received.
    join: Join,
    /// The offset of the last data packet offset, 0 before the first and if there is none.
    offset: u32,
    /// The last sequence number of the window that a data packet offset opened, 0 before the first and once a CTS has closed it. None if
    /// sequence numbers are those of the message's packets.
    window: Option<u8>,
    /// When a frame of it was last seen, in microseconds.
    heard: u64,
}

/// How many microseconds a frame of a connection is waited for: more than its ends wait, so that the abort of one that waited in vain is
/// seen before.
pub const CONNECTION_PATIENCE: u64 = 1_500_000;

/// A law: a frame of a connection is waited for 1,500 ms, which is longer than an end waits by T2, T3 or T4 (SAE J1939-21).
pub fn a_listener_waits_longest()
    ensures patience { CONNECTION_PATIENCE ≡ 1500000 }
    ensures longest { (T2 * 1000 < CONNECTION_PATIENCE) × (T3 * 1000 < CONNECTION_PATIENCE) × (T4 * 1000 < CONNECTION_PATIENCE) }
{}

/// The window of a message that has no packet yet.
fn first_window(transport: Transport) -> Option<u8>
    ensures { result ≡ first_window transport }
{
    match transport {
        Transport::Tp => None,
        Transport::Etp => Some(0),
    }
}

impl Session {
    /// A message that has no packet yet. It takes no memory.
    pub fn new(alloc: Global, transport: Transport, pgn: WirePgn, size: u32, now: u64) -> Session
        ensures { result ≡ opened transport pgn size now }
    {
        Session {
            pgn,
            join: Join::new(alloc, size),
            offset: 0,
            window: first_window(transport),
            heard: now,
        }
    }

    /// Whether an announcement of this PGN and size repeats the one that it began with.
    pub fn is_again(&self, pgn: WirePgn, size: u32) -> bool
        ensures { result ≡ is_again self.now pgn size }
    {
        self.pgn == pgn && self.join.size() == size && self.join.next() == 1
    }

    /// Takes its next packet.
    fn accept(&mut self, bytes: [u8; 7], now: u64) -> Result<(), AllocError>
        requires { wants self.old.join self.old.join.next ≡ true }
        ensures { OnOk result (self.new ≡ accepted self.old bytes now) }
    {
        let next = self.join.next();
        if self.join.room() == 0 {
            // A window at least, and at most as many as there are.
            self.join
                .make_room((next - 1).max(u32::from(ETP_MAX_WINDOW)))?;
        }
        let Ok(()) = self.join.put(next, bytes) else {
            return Err(AllocError);
        };
        self.heard = now;
        Ok(())
    }

    /// Takes a packet of this number.
    #[tactic(auto, unfolding(crate::specs::Session::packet_heard))]
    fn hear_number(
        &mut self,
        to: Address,
        number: u64,
        bytes: [u8; 7],
        now: u64,
    ) -> Result<Fate, AllocError>
        ensures { IfOk result (λ fate. (self.new, fate) ≡ packet_heard to self.old number bytes now) }
    {
        let next = u64::from(self.join.next());
        if number == next && !self.join.is_complete() {
            self.accept(bytes, now)?;
            return Ok(if self.join.is_complete() {
                Fate::Given
            } else {
                Fate::GoesOn
            });
        }
        if number > next && to == Address::GLOBAL {
            return Ok(Fate::Lost(Cause::Missing));
        }
        Ok(self.go_on(now))
    }

    /// Whether a packet of this sequence number is one of the window.
    fn is_within(&self, sequence: u8) -> bool
        ensures { result ≡ is_within self.now.window sequence }
    {
        match self.window {
            None => true,
            Some(last) => sequence <= last,
        }
    }

    /// Takes a packet of it, or one that looks so.
    pub fn hear_packet(
        &mut self,
        to: Address,
        sequence: u8,
        bytes: [u8; 7],
        now: u64,
    ) -> Result<Fate, AllocError>
        ensures { IfOk result (λ fate. (self.new, fate) ≡ sequence_heard to self.old sequence bytes now) }
    {
        if !self.is_within(sequence) {
            return Ok(self.go_on(now));
        }
        let number = u64::from(self.offset) + u64::from(sequence);
        self.hear_number(to, number, bytes, now)
    }

    /// Takes a frame of it that says nothing new.
    pub fn go_on(&mut self, now: u64) -> Fate
        ensures value { result ≡ GoesOn }
        ensures renewed { self.new ≡ renewed self.old now }
    {
        self.heard = now;
        Fate::GoesOn
    }

    fn hear_cm(&mut self, frame: &CmFrame, now: u64) -> Fate
        ensures { (self.new, result) ≡ cm_heard self.old frame.now now }
    {
        match frame {
            CmFrame::Cts { .. } => self.go_on(now),
            // The window ends: the number of a packet is unknown until a data packet offset opens the next one.
            CmFrame::EtpCts { .. } => {
                self.window = Some(0);
                self.go_on(now)
            }
            CmFrame::EtpDpo {
                packets,
                offset,
                ..
            } => {
                self.offset = *offset;
                self.window = Some(*packets);
                self.go_on(now)
            }
            CmFrame::EndOfMsgAck { size, .. } => self.acknowledged(u32::from(*size)),
            CmFrame::EtpEoma { size, .. } => self.acknowledged(*size),
            CmFrame::Rts { .. } => Fate::GoesOn,
            CmFrame::Bam { .. } => Fate::GoesOn,
            CmFrame::Abort { .. } => Fate::GoesOn,
            CmFrame::EtpRts { .. } => Fate::GoesOn,
            CmFrame::EtpAbort { .. } => Fate::GoesOn,
        }
    }

    /// Its receiver acknowledges a message of this size, and not all packets of it were seen.
    fn acknowledged(&self, size: u32) -> Fate
        ensures { result ≡ acknowledged self.now size }
    {
        if size == self.join.size() {
            Fate::Lost(Cause::Acknowledged)
        } else {
            Fate::GoesOn
        }
    }

    /// Takes a connection management frame of one of its ends that is neither an announcement nor an abort. One of another PGN changes
    /// nothing.
    pub fn hear(&mut self, frame: &CmFrame, now: u64) -> Fate
        ensures { (self.new, result) ≡ heard self.old frame.now now }
    {
        if !self.is_of(frame.pgn()) {
            return Fate::GoesOn;
        }
        self.hear_cm(frame, now)
    }

    /// Whether it has this PGN.
    pub fn is_of(&self, pgn: WirePgn) -> bool
        ensures { result ≡ (clean pgn == clean self.now.pgn) }
    {
        pgn.clean() == self.pgn.clean()
    }

    /// An end aborts a message of a PGN: this message, if that is its PGN.
    pub fn hear_abort(&self, who: Address, reason: u8, pgn: WirePgn) -> Fate
        ensures { result ≡ abort_heard self.now who reason pgn }
    {
        if self.is_of(pgn) {
            Fate::Aborted { reason, who }
        } else {
            Fate::GoesOn
        }
    }

    /// Whether no frame of it was seen for so long that its ends have given it up.
    pub fn is_silent(&self, to: Address, now: u64) -> bool
        ensures { result ≡ is_silent to self.now now }
    {
        now.saturating_sub(self.heard) >= patience(to)
    }

    /// The time from which it is silent, if no frame of it is seen; 2^64 - 1 if that is later.
    pub fn due(&self, to: Address) -> u64
        ensures { result ≡ due to self.now }
    {
        self.heard.saturating_add(patience(to))
    }

    /// The report that it is lost.
    pub fn lost(&self, key: Key, cause: Cause) -> Told
        ensures { Some result ≡ told_of key self.now (Lost cause) }
    {
        Told::Lost {
            key,
            pgn: self.pgn.clean(),
            have: bytes_seen(&self.join),
            size: self.join.size(),
            cause,
        }
    }

    /// The report on its fate; none if it continues.
    pub fn into_told(self, key: Key, fate: Fate) -> Option<Told>
        ensures { result ≡ told_of key self fate }
    {
        match fate {
            Fate::GoesOn => None,
            Fate::Given => {
                let Session {
                    pgn,
                    join,
                    offset: _,
                    window: _,
                    heard: _,
                } = self;
                given(key, pgn.clean(), join)
            }
            Fate::Lost(cause) => Some(self.lost(key, cause)),
            Fate::Aborted { reason, who } => Some(Told::Aborted {
                key,
                pgn: self.pgn.clean(),
                reason,
                who,
            }),
        }
    }
}

/// The earliest time at which a message can be silent whose last frame is seen at this one; 2^64 - 1 if that is later.
pub fn soonest(now: u64) -> u64
    ensures { result ≡ soonest now }
{
    now.saturating_add(T1 * TICK)
}

/// For how long a frame of a message is waited for, in microseconds.
fn patience(to: Address) -> u64
    ensures { result ≡ patience to }
{
    if to == Address::GLOBAL {
        T1 * TICK
    } else {
        CONNECTION_PATIENCE
    }
}

/// How many bytes were received.
fn bytes_seen(join: &Join) -> u32
    ensures { result ≡ length join.now.bytes }
{
    let packets = u64::from(join.next() - 1);
    (7 * packets).min(u64::from(join.size())) as u32
}

/// The report on a message of which all was received.
fn given(key: Key, pgn: Pgn, join: Join) -> Option<Told>
    ensures { result ≡ given_of key pgn join }
{
    match join.finish() {
        Ok(bytes) => Some(Told::Given {
            key,
            pgn,
            bytes: Bytes::new(bytes),
        }),
        Err(_) => None,
    }
}
