//! A bus as plain data.
ghost use Rattle.std.specs.Prelude.{◌≡◌, ◌↔◌, IfOk, IsTrue};

use crate::cursor::Cursor;
use crate::log::BusLog;
use bus_frame::Frame;
use std::alloc::{AllocError, Global};
use std::collections::VecDeque;
use std::marker::Model;

/// What a bus was: the place of its first kept frame, the kept frames, and how far each station is.
#[derive(Debug)]
pub struct BusImage {
    first: u64,
    kept: Vec<Frame>,
    cursors: Vec<Cursor>,
}

impl Model for BusImage {
    ghost use Rattle.bus_order.specs.Bus.{Bus};

    ghost Value = { Bus };

    ghost view = { λ i. record { first = i.first; kept = i.kept.items; cursors = i.cursors.items } };
}

impl Drop for BusImage {
    fn drop(self) {
        let BusImage {
            first: _,
            kept: _,
            cursors: _,
        } = self;
    }
}

impl BusLog {
    /// The bus as plain data. It takes memory for its kept frames and its cursors.
    pub fn image(&self, alloc: Global) -> Result<BusImage, AllocError>
        ensures { IfOk result (λ image. image ≡ self.now) }
    {
        Ok(BusImage {
            first: self.first,
            kept: copied(alloc, &self.kept)?,
            cursors: Vec::from_slice(alloc, &self.cursors)?,
        })
    }
}

impl BusImage {
    /// Whether it is that of a bus. It takes no memory.
    pub fn is_of(&self, log: &BusLog) -> bool
        ensures { IsTrue result ↔ (self.now ≡ log.now) }
    {
        self.first == log.first
            && are_kept(&self.kept, &log.kept)
            && are_cursors(&self.cursors, &log.cursors)
    }
}

// A copy of the frames.
fn copied(alloc: Global, frames: &VecDeque<Frame>) -> Result<Vec<Frame>, AllocError>
    ensures { IfOk result (λ copies. copies.items ≡ frames.now.items) }
{
    let mut copies = Vec::with_capacity(alloc, frames.len())?;
    for i in 0..frames.len() {
        copies.push(frames[i])?;
    }
    Ok(copies)
}

// Whether two frames are equal.
fn is_same(a: &Frame, b: &Frame) -> bool
    ensures { IsTrue result ↔ (a.now ≡ b.now) }
{
    a.id().raw() == b.id().raw() && a.bytes() == b.bytes()
}

// Whether these are the kept frames.
fn are_kept(frames: &[Frame], kept: &VecDeque<Frame>) -> bool
    ensures { IsTrue result ↔ (frames.now ≡ kept.now.items) }
{
    if frames.len() != kept.len() {
        return false;
    }
    for i in 0..frames.len() {
        if !is_same(&frames[i], &kept[i]) {
            return false;
        }
    }
    true
}

// Whether two cursors are equal.
fn is_same_cursor(a: Cursor, b: Cursor) -> bool
    ensures { IsTrue result ↔ (a ≡ b) }
{
    a.place == b.place && a.is_repeatable() == b.is_repeatable()
}

// Whether the cursors are equal.
fn are_cursors(a: &[Cursor], b: &[Cursor]) -> bool
    ensures { IsTrue result ↔ (a.now ≡ b.now) }
{
    if a.len() != b.len() {
        return false;
    }
    for i in 0..a.len() {
        if !is_same_cursor(a[i], b[i]) {
            return false;
        }
    }
    true
}
