//! Joining the packets of a message.
ghost use Rattle.std.specs.Prelude.{◌≡◌, ◌+◌, ◌-◌, ◌*◌, ◌<◌, ◌≤◌, ◌↔◌, ◌++◌, true, false, length, IsTrue, IsOk, OnOk, OnErr, IfOk, IfErr, IsErrOf, replicate, vec_len, vec_capacity};
ghost use Rattle.seg_cut.specs.Packets.{packet_count};
ghost use Rattle.seg_cut.specs.Join.{IsJoin, empty_join, wants, joined, with_room, held};
ghost use Rattle.seg_cut.specs.Join.{is_complete as is_complete_at, wants_last as wants_last_at};

mod image;

use crate::cut::PACKET_BYTES;
use std::alloc::{AllocError, Global};
use std::marker::Model;
use std::mem;
use thiserror::Error;

/// A message that is joined from its packets, which arrive in order.
///
/// It holds no more memory than it was asked to make room for. Its bytes leave out the filling of the last packet.
#[derive(Debug)]
pub struct Join {
    size: u32,
    next: u32,
    room: u32,
    // As many bytes as there is memory for: those received, then zeros. So each packet is written as a whole.
    bytes: Vec<u8>,
}

impl Model for Join {
    ghost use Rattle.seg_cut.specs.Join.{Join};

    ghost Value = { Join };

    ghost use Rattle.seg_cut.specs.Shape.{view_join, IsExact};

    ghost view = { view_join };

    ghost invariant = { IsExact };
}

impl Drop for Join {
    fn drop(self) {
        let Join {
            size: _,
            next: _,
            room: _,
            bytes: _,
        } = self;
    }
}

/// Why a packet was not put.
#[derive(Clone, Copy, Debug, PartialEq, Eq, Error)]
pub enum PutError {
    /// It is not the next packet of the message, or the message is complete.
    #[error("not the next packet of the message")]
    WrongPacket,
    /// No room was made for it, and there is no memory.
    #[error("out of memory")]
    OutOfMemory,
}

impl Join {
    /// A message of `size` bytes that has no packet yet. It takes no memory.
    pub fn new(alloc: Global, size: u32) -> Join
        ensures empty { result ≡ empty_join size }
        ensures valid { IsJoin result }
    {
        Join {
            size,
            next: 1,
            room: 0,
            bytes: Vec::new(alloc),
        }
    }

    /// The size of the whole message in bytes.
    pub fn size(&self) -> u32
        ensures value { result ≡ self.now.size }
        ensures valid { IsJoin self.now }
    {
        self.size
    }

    /// The number of the next packet, from 1; one more than the last if the message is complete.
    pub fn next(&self) -> u32
        ensures value { result ≡ self.now.next }
        ensures valid { IsJoin self.now }
    {
        self.next
    }

    /// How many further packets can be put without taking memory; it may be more than are still missing.
    pub fn room(&self) -> u32
        ensures value { result ≡ self.now.room }
        ensures valid { IsJoin self.now }
    {
        self.room
    }

    /// How many bytes of memory it holds: those of the message up to the last packet that there is room for.
    pub fn capacity(&self) -> usize
        ensures { result ≡ held self.now }
    {
        self.bytes.capacity()
    }

    /// Whether each packet has arrived.
    pub fn is_complete(&self) -> bool
        ensures { result ≡ is_complete_at self.now }
    {
        self.begin_of_next() >= self.size as usize
    }

    /// Whether the next packet is the last.
    pub fn wants_last(&self) -> bool
        ensures { result ≡ wants_last_at self.now }
    {
        !self.is_complete() && self.size as usize - self.begin_of_next() <= PACKET_BYTES
    }

    /// The place of the next packet's first byte.
    #[inline]
    fn begin_of_next(&self) -> usize
        ensures value { result ≡ 7 * (self.now.next - 1) }
        ensures valid { IsJoin self.now }
    {
        PACKET_BYTES * (self.next as usize - 1)
    }

    /// The bytes received.
    fn front(&self) -> &[u8]
        ensures { result.now ≡ self.now.bytes }
    {
        &self.bytes[..self.begin_of_next().min(self.size as usize)]
    }

    /// Makes room for so many further packets, or up to the end of the message if that is less.
    ///
    /// It takes the missing memory in one block, and none if the room is there. An error changes nothing.
    pub fn make_room(&mut self, packets: u32) -> Result<(), AllocError>
        ensures ok { OnOk result (self.new ≡ with_room self.old packets) }
        ensures full { OnErr result (held self.old < held (with_room self.old packets)) }
        ensures err { OnErr result (self.new ≡ self.old) }
        ensures valid { IsJoin self.new }
    {
        if packets <= self.room {
            return Ok(());
        }
        let end = PACKET_BYTES * (self.next as usize - 1 + packets as usize);
        let end = end.min(self.size as usize);
        self.bytes.reserve_exact(end - self.bytes.len())?;
        let alloc = *self.bytes.allocator();
        let bytes = mem::replace(&mut self.bytes, Vec::new(alloc));
        self.bytes = written(bytes);
        self.room = packets;
        Ok(())
    }

    /// Puts packet `k`, if it is the next one. It takes no memory if there is room. An error changes nothing.
    #[inline]
    pub fn put(&mut self, k: u32, packet: [u8; 7]) -> Result<(), PutError>
        ensures ok { OnOk result (self.new ≡ joined self.old packet) }
        ensures wrong { IsErrOf result PutError.WrongPacket ↔ (wants self.old k ≡ false) }
        ensures full { IsErrOf result PutError.OutOfMemory → self.old.room ≡ 0 }
        ensures ready { IsTrue (wants self.old k) → 0 < self.old.room → IsOk result }
        ensures err { OnErr result (self.new ≡ self.old) }
        ensures valid { IsJoin self.new }
    {
        if k != self.next || self.is_complete() {
            return Err(PutError::WrongPacket);
        }
        if self.room == 0 && self.make_room(1).is_err() {
            return Err(PutError::OutOfMemory);
        }
        if self.wants_last() {
            self.put_last(&packet);
        } else {
            self.put_inner(&packet);
        }
        Ok(())
    }

    /// Puts the next packet, which is not the last. There is room for it. It takes no memory.
    #[inline]
    pub fn put_inner(&mut self, packet: &[u8; 7])
        requires inner { self.old.next < packet_count self.old.size }
        requires room { 0 < self.old.room }
        ensures value { self.new ≡ joined self.old packet.now }
        ensures valid { IsJoin self.new }
    {
        let begin = self.begin_of_next();
        self.bytes[begin..begin + PACKET_BYTES].copy_from_slice(packet);
        self.next += 1;
        self.room -= 1;
    }

    /// Puts the last packet. There is room for it. It takes no memory.
    pub fn put_last(&mut self, packet: &[u8; 7])
        requires last { wants_last_at self.old ≡ true }
        requires room { 0 < self.old.room }
        ensures value { self.new ≡ joined self.old packet.now }
        ensures valid { IsJoin self.new }
    {
        let begin = self.begin_of_next();
        let lacking = self.size as usize - begin;
        self.bytes[begin..].copy_from_slice(&packet[..lacking]);
        self.next += 1;
        self.room -= 1;
    }

    /// The whole message, or the unchanged join if a packet is missing.
    pub fn finish(self) -> Result<Vec<u8>, Join>
        ensures complete { IsOk result ↔ IsTrue (is_complete_at self) }
        ensures ok { IfOk result (λ v. v.items ≡ self.bytes) }
        ensures exact { IfOk result (λ v. vec_capacity v ≡ self.size) }
        ensures err { IfErr result (λ j. j ≡ self) }
    {
        if !self.is_complete() {
            return Err(self);
        }
        let Join {
            size: _,
            next: _,
            room: _,
            bytes,
        } = self;
        Ok(bytes)
    }
}

/// A vector that has zeros behind its bytes, as many as there is memory for. It is passed by value, so that its length stays in a register.
fn written(mut bytes: Vec<u8>) -> Vec<u8>
    ensures items { result.items ≡ bytes.items ++ replicate (vec_capacity bytes - vec_len bytes) 0 }
    ensures len { vec_len result ≡ vec_capacity bytes }
    ensures capacity { vec_capacity result ≡ vec_capacity bytes }
{
    for _ in bytes.len()..bytes.capacity() {
        bytes.push_reserved(0);
    }
    bytes
}
