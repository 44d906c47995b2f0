//! The state in which a window is queued.
ghost use Rattle.std.specs.Prelude.{◌≡◌};
ghost use Rattle.originator.specs.Readers.{repeated, announces_again};

use crate::link::Link;
use std::marker::Model;

/// A window is still to be queued. It must be spent.
pub struct Sending {
    pub(crate) link: Link,
    pub(crate) unsent: u32,
    pub(crate) resends: u8,
    pub(crate) granted: u8,
    pub(crate) next: u32,
    pub(crate) at: u32,
    pub(crate) until: u32,
    pub(crate) announced: bool,
}

impl Model for Sending {
    ghost use Rattle.originator.specs.States.{Sending};

    ghost Value = { Sending };

    ghost use Rattle.originator.specs.StateFields.{view_sending, IsSending};

    ghost view = { view_sending };

    ghost invariant = { IsSending };
}

impl Sending {
    /// How many of the packets that its window still queues were queued before.
    pub(crate) fn repeated(&self) -> u32
        ensures { result ≡ repeated self.now }
    {
        // A call of it, so that the packet behind the window is known to have a number.
        let _packets = self.link.packets();
        (self.until + 1).min(self.unsent).saturating_sub(self.at)
    }

    /// Whether its window has still to be announced, and begins with a packet that was queued before.
    pub(crate) fn announces_again(&self) -> bool
        ensures { result ≡ announces_again self.now }
    {
        !self.announced && self.next < self.unsent
    }

    /// The message, whose state is spent.
    pub(crate) fn into_link(self) -> Link
        ensures { result ≡ self.link }
    {
        let Sending {
            link,
            unsent: _,
            resends: _,
            granted: _,
            next: _,
            at: _,
            until: _,
            announced: _,
        } = self;
        link
    }
}
