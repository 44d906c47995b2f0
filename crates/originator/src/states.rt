//! A message under way, and what its steps leave.
ghost use Rattle.std.specs.Prelude.{◌≡◌, true};

use crate::await_cts::AwaitCts;
use crate::await_end::AwaitEnd;
use crate::link::Link;
use crate::sending::Sending;
use bus_frame::Frame;
use pgn_ids::{Address, WirePgn};
use std::mem;
use tp_wire::{Kind, Outcome};

/// A message under way. It must be spent.
pub enum OutState {
    /// A CTS is awaited.
    AwaitCts(AwaitCts),
    /// A window is still to be queued.
    Sending(Sending),
    /// The end acknowledgement is awaited.
    AwaitEnd(AwaitEnd),
}

/// How a message ended, and the frame that is queued then, if any.
#[derive(Clone, Copy, Debug, PartialEq, Eq)]
pub struct OutOver {
    pub outcome: Outcome,
    pub frame: Option<Frame>,
}

/// What a step leaves.
pub enum Stepped {
    /// The message continues.
    On(OutState),
    /// It ended.
    Over(OutOver),
}

impl OutState {
    ghost use Rattle.std.specs.Prelude.{◌≤◌, ◌+◌};
    ghost use Rattle.originator.specs.Link.{packets_of};
    ghost use Rattle.originator.specs.States.{most_resends};
    ghost use Rattle.originator.specs.Readers.{link_of, unsent_of, resends_of, repeated_of, is_announced_again, is_all_queued as is_all_queued_state, is_of as is_of_state, is_state_due, has_timer};

    /// The message under way.
    pub(crate) fn link(&self) -> Link
        ensures { result ≡ link_of self.now }
    {
        match self {
            OutState::AwaitCts(state) => state.link,
            OutState::Sending(state) => state.link,
            OutState::AwaitEnd(state) => state.link,
        }
    }

    /// The transport that carries the message.
    pub fn kind(&self) -> Kind
        ensures { result ≡ (link_of self.now).kind }
    {
        self.link().kind()
    }

    /// The address of its sender.
    pub fn from(&self) -> Address
        ensures { result.0 ≡ (link_of self.now).from }
    {
        self.link().from()
    }

    /// The address of its destination.
    pub fn to(&self) -> Address
        ensures { result.0 ≡ (link_of self.now).to }
    {
        self.link().to()
    }

    /// How many bytes the message has.
    pub fn len(&self) -> u32
        ensures { result ≡ (link_of self.now).len }
    {
        self.link().len()
    }

    /// The first packet that was never queued, one more than there are if each was.
    pub fn unsent(&self) -> u32
        ensures value { result ≡ unsent_of self.now }
        ensures from_first { 1 ≤ result }
        ensures to_end { result ≤ packets_of (link_of self.now) + 1 }
    {
        match self {
            OutState::AwaitCts(state) => state.unsent,
            OutState::Sending(state) => state.unsent,
            OutState::AwaitEnd(state) => state.link.packets() + 1,
        }
    }

    /// How many CTS have named a packet below it.
    pub fn resends(&self) -> u8
        ensures value { result ≡ resends_of self.now }
        ensures few { result ≤ most_resends }
    {
        match self {
            OutState::AwaitCts(state) => state.resends,
            OutState::Sending(state) => state.resends,
            OutState::AwaitEnd(state) => state.resends,
        }
    }

    /// How many of the packets that are still queued in its window were queued before.
    pub fn repeated(&self) -> u32
        ensures { result ≡ repeated_of self.now }
    {
        match self {
            OutState::Sending(state) => state.repeated(),
            _ => 0,
        }
    }

    /// Whether its window has still to be announced, and begins with a packet that was queued before.
    pub fn announces_again(&self) -> bool
        ensures { result ≡ is_announced_again self.now }
    {
        match self {
            OutState::Sending(state) => state.announces_again(),
            _ => false,
        }
    }

    /// Whether each packet was queued.
    pub(crate) fn is_all_queued(&self) -> bool
        ensures { result ≡ is_all_queued_state self.now }
    {
        self.unsent() == self.link().packets() + 1
    }

    /// Whether a frame of this transport with this PGN field belongs to the message.
    pub fn is_of(&self, kind: Kind, pgn: WirePgn) -> bool
        ensures { result ≡ is_of_state self.now kind pgn }
    {
        self.link().is_of(kind, pgn)
    }

    /// Whether its timer is due at tick `now`. It has one while it awaits a CTS or the end acknowledgement.
    pub fn is_due(&self, now: u64) -> bool
        ensures value { result ≡ is_state_due self.now now }
        ensures timer { result ≡ true → has_timer self.now ≡ true }
    {
        match self {
            OutState::AwaitCts(state) => state.is_due(now),
            OutState::Sending(_) => false,
            OutState::AwaitEnd(state) => state.is_due(now),
        }
    }

    /// Continues in another state of the message, and spends the one that it leaves.
    pub(crate) fn go_to(&mut self, next: OutState)
        ensures { self.new ≡ next }
    {
        let _link = mem::replace(self, next).into_link();
    }

    /// The message, whose state is spent.
    pub(crate) fn into_link(self) -> Link
        ensures { result ≡ link_of self }
    {
        match self {
            OutState::AwaitCts(state) => state.into_link(),
            OutState::Sending(state) => state.into_link(),
            OutState::AwaitEnd(state) => state.into_link(),
        }
    }
}
