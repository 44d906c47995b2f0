//! A listener to a log, with the courses of what it hears.
ghost use Rattle.std.specs.Prelude.{◌≡◌};
ghost use Rattle.bus_decode.specs.Listening.{first_listener};

use crate::followed::Followed;
use log_courses::Awaited;
use log_decode::Decoder;
use std::alloc::Global;

/// What was heard of a log.
#[derive(Drop)]
pub(crate) struct Listener {
    pub(crate) decoder: Decoder,
    /// What is followed of its messages.
    pub(crate) followed: Followed,
    /// The end acknowledgements of the messages that were given.
    pub(crate) awaited: Awaited,
}

impl Listener {
    /// A listener that heard nothing. It takes no memory.
    pub(crate) fn new(alloc: Global, most: u32) -> Listener
        ensures { result ≡ first_listener most }
    {
        Listener {
            decoder: Decoder::new(alloc, most),
            followed: Followed::none(alloc),
            awaited: Awaited::new(alloc),
        }
    }
}
