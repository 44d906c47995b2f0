//! A lane as plain data.
ghost use Rattle.std.specs.Prelude.{◌≡◌, ◌↔◌, IfOk, IsTrue};
ghost use Rattle.lane_core.specs.ImageFields.{under_way_value};

use crate::lane::Lane;
use crate::message::Pending;
use crate::place::UnderWay;
use crate::probe::{Standing, Token};
use bam_session::BamOutImage;
use originator::OutImage;
use pgn_ids::Address;
use std::alloc::{AllocError, Global};
use std::collections::VecDeque;
use std::marker::Model;

/// How the front message was under way.
#[derive(Drop)]
pub(crate) enum UnderWayImage {
    Nothing,
    Broadcast(BamOutImage),
    Connection(OutImage),
}

/// The value of a lane, with the messages that had no outcome. It holds no state that must be spent.
pub struct LaneImage {
    from: Address,
    to: Address,
    sent: u64,
    pending: Vec<Pending>,
    under_way: UnderWayImage,
    standing: Standing,
    token: Token,
}

impl Model for LaneImage {
    ghost use Rattle.lane_core.specs.Lane.{Lane};

    ghost Value = { Lane };

    ghost use Rattle.lane_core.specs.ImageFields.{lane_image_value};

    ghost view = { lane_image_value };
}

impl Drop for LaneImage {
    fn drop(self) {
        let LaneImage {
            from: _,
            to: _,
            sent: _,
            pending: _,
            under_way: _,
            standing: _,
            token: _,
        } = self;
    }
}

impl Lane {
    /// The lane as plain data. It takes memory for the messages without an outcome and their bytes.
    pub fn image(&self, alloc: Global) -> Result<LaneImage, AllocError>
        ensures { IfOk result (λ image. image ≡ self.now) }
    {
        Ok(LaneImage {
            from: self.from,
            to: self.to,
            sent: self.sent,
            pending: copied(alloc, &self.pending)?,
            under_way: under_way_image(self.place.content()),
            standing: self.standing,
            token: self.token,
        })
    }
}

impl LaneImage {
    /// Whether this is the image of a lane. It takes no memory.
    pub fn is_of(&self, lane: &Lane) -> bool
        ensures { IsTrue result ↔ (self.now ≡ lane.now) }
    {
        self.from.0 == lane.from.0
            && self.to.0 == lane.to.0
            && self.sent == lane.sent
            && are_pending(&self.pending, &lane.pending)
            && is_under_way(&self.under_way, lane.place.content())
            && is_same_standing(&self.standing, &lane.standing)
            && is_same_token(&self.token, &lane.token)
    }
}

// A copy of the messages.
fn copied(alloc: Global, messages: &VecDeque<Pending>) -> Result<Vec<Pending>, AllocError>
    ensures { IfOk result (λ copies. copies.items ≡ messages.now.items) }
{
    let mut copies = Vec::with_capacity(alloc, messages.len())?;
    for i in 0..messages.len() {
        let message = &messages[i];
        let bytes = message.bytes.copy(alloc)?;
        copies.push(Pending {
            number: message.number,
            pgn: message.pgn,
            bytes,
        })?;
    }
    Ok(copies)
}

// Whether two messages are equal.
fn is_same(a: &Pending, b: &Pending) -> bool
    ensures { IsTrue result ↔ (a.now ≡ b.now) }
{
    a.number == b.number && a.pgn.raw() == b.pgn.raw() && a.bytes.as_slice() == b.bytes.as_slice()
}

// Whether these are the messages without an outcome.
fn are_pending(messages: &[Pending], pending: &VecDeque<Pending>) -> bool
    ensures { IsTrue result ↔ (messages.now ≡ pending.now.items) }
{
    if messages.len() != pending.len() {
        return false;
    }
    for i in 0..messages.len() {
        if !is_same(&messages[i], &pending[i]) {
            return false;
        }
    }
    true
}

// What is under way as plain data.
fn under_way_image(under_way: &UnderWay) -> UnderWayImage
    ensures { under_way_value result ≡ under_way.now }
{
    match under_way {
        UnderWay::Nothing => UnderWayImage::Nothing,
        UnderWay::Broadcast(state) => UnderWayImage::Broadcast(state.image()),
        UnderWay::Connection(state) => UnderWayImage::Connection(state.image()),
    }
}

// Whether this is the image of what is under way.
fn is_under_way(image: &UnderWayImage, under_way: &UnderWay) -> bool
    ensures { IsTrue result ↔ (under_way_value image.now ≡ under_way.now) }
{
    match image {
        UnderWayImage::Nothing => match under_way {
            UnderWay::Nothing => true,
            _ => false,
        },
        UnderWayImage::Broadcast(image) => match under_way {
            UnderWay::Broadcast(state) => image.is_of(state),
            _ => false,
        },
        UnderWayImage::Connection(image) => match under_way {
            UnderWay::Connection(state) => image.is_of(state),
            _ => false,
        },
    }
}

// Whether two standings are equal.
fn is_same_standing(a: &Standing, b: &Standing) -> bool
    ensures { IsTrue result ↔ (a.now ≡ b.now) }
{
    *a == *b
}

// Whether two tokens are equal.
fn is_same_token(a: &Token, b: &Token) -> bool
    ensures { IsTrue result ↔ (a.now ≡ b.now) }
{
    *a == *b
}
