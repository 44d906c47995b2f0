//! The state of an incoming session as plain data.
ghost use Rattle.std.specs.Prelude.{◌≡◌, ◌↔◌, IsTrue, IfOk};
ghost use Rattle.session_table.specs.declared.incoming.Incoming.TheVariants.{Broadcast, Connection};

use super::Incoming;
use bam_session::BamInImage;
use responder::ReceiverImage;
use std::alloc::{AllocError, Global};
use std::marker::Model;

/// The value of an `Incoming`, as plain data, which needn't be spent.
#[derive(Debug, Drop)]
pub struct IncomingImage {
    state: StateImage,
}

/// The value of the state of each kind.
#[derive(Debug, Drop)]
enum StateImage {
    Broadcast(BamInImage),
    Connection(ReceiverImage),
}

impl Model for IncomingImage {
    ghost use Rattle.session_table.specs.declared.incoming.Incoming.{Incoming};

    ghost Value = { Incoming };

    ghost use Rattle.session_table.specs.Image.{incoming_of};

    ghost view = { λ s. incoming_of s.state };
}

impl Incoming {
    /// Its value, as plain data.
    pub fn image(&self, alloc: Global) -> Result<IncomingImage, AllocError>
        ensures { IfOk result (λ image. image ≡ self.now) }
    {
        let state = match self {
            Incoming::Broadcast(state) => StateImage::Broadcast(state.image(alloc)?),
            Incoming::Connection(state) => StateImage::Connection(state.image(alloc)?),
        };
        Ok(IncomingImage { state })
    }
}

impl IncomingImage {
    /// Whether it is an image of this state. It takes no memory.
    pub fn is_of(&self, state: &Incoming) -> bool
        ensures { IsTrue result ↔ (self.now ≡ state.now) }
    {
        match &self.state {
            StateImage::Broadcast(image) => is_broadcast(image, state),
            StateImage::Connection(image) => is_connection(image, state),
        }
    }
}

// Whether a state is that of a broadcast with this image.
fn is_broadcast(image: &BamInImage, state: &Incoming) -> bool
    ensures { IsTrue result ↔ (Broadcast image.now ≡ state.now) }
{
    match state {
        Incoming::Broadcast(state) => image.is_of(state),
        Incoming::Connection(_) => false,
    }
}

// Whether a state is that of a connection with this image.
fn is_connection(image: &ReceiverImage, state: &Incoming) -> bool
    ensures { IsTrue result ↔ (Connection image.now ≡ state.now) }
{
    match state {
        Incoming::Broadcast(_) => false,
        Incoming::Connection(state) => image.is_of(state),
    }
}
