//! A message under way as plain data.
ghost use Rattle.std.specs.Prelude.{◌≡◌, ◌↔◌, IsTrue};
ghost use Rattle.originator.specs.declared.states.OutState.TheVariants as OutState;
ghost use Rattle.originator.specs.ImageFields.{out_value};

use crate::await_cts::AwaitCts;
use crate::await_end::AwaitEnd;
use crate::link::Link;
use crate::sending::Sending;
use crate::states::OutState;
use std::marker::Model;
use tick_timers::Timer;

/// The fields of a state.
#[derive(Clone, Copy)]
pub(crate) enum Fields {
    AwaitCts {
        link: Link,
        unsent: u32,
        resends: u8,
        timer: Timer,
    },
    Sending {
        link: Link,
        unsent: u32,
        resends: u8,
        granted: u8,
        next: u32,
        at: u32,
        until: u32,
        announced: bool,
    },
    AwaitEnd {
        link: Link,
        resends: u8,
        timer: Timer,
    },
}

/// What the state of a message under way was. Unlike the state itself it needn't be spent.
#[derive(Drop)]
pub struct OutImage {
    fields: Fields,
}

impl Model for OutImage {
    ghost use Rattle.originator.specs.declared.states.OutState.{OutState};

    ghost Value = { OutState };

    ghost use Rattle.originator.specs.ImageFields.{out_value};

    ghost view = { λ i. out_value i.fields };
}

impl OutState {
    /// The state as plain data. It takes no memory.
    pub fn image(&self) -> OutImage
        ensures { result ≡ self.now }
    {
        OutImage {
            fields: self.fields(),
        }
    }

    fn fields(&self) -> Fields
        ensures { out_value result ≡ self.now }
    {
        match self {
            OutState::AwaitCts(state) => Fields::AwaitCts {
                link: state.link,
                unsent: state.unsent,
                resends: state.resends,
                timer: state.timer,
            },
            OutState::Sending(state) => Fields::Sending {
                link: state.link,
                unsent: state.unsent,
                resends: state.resends,
                granted: state.granted,
                next: state.next,
                at: state.at,
                until: state.until,
                announced: state.announced,
            },
            OutState::AwaitEnd(state) => Fields::AwaitEnd {
                link: state.link,
                resends: state.resends,
                timer: state.timer,
            },
        }
    }
}

impl OutImage {
    /// Whether it is that of a state.
    pub fn is_of(&self, state: &OutState) -> bool
        ensures { IsTrue result ↔ (self.now ≡ state.now) }
    {
        match state {
            OutState::AwaitCts(state) => self.is_await_cts(state),
            OutState::Sending(state) => self.is_sending(state),
            OutState::AwaitEnd(state) => self.is_await_end(state),
        }
    }

    fn is_await_cts(&self, state: &AwaitCts) -> bool
        ensures { IsTrue result ↔ (self.now ≡ OutState.AwaitCts state.now) }
    {
        match self.fields {
            Fields::AwaitCts {
                link,
                unsent,
                resends,
                timer,
            } => {
                link.is_same(state.link)
                    && unsent == state.unsent
                    && resends == state.resends
                    && is_same_timer(timer, state.timer)
            }
            Fields::Sending { .. } => false,
            Fields::AwaitEnd { .. } => false,
        }
    }

    fn is_sending(&self, state: &Sending) -> bool
        ensures { IsTrue result ↔ (self.now ≡ OutState.Sending state.now) }
    {
        match self.fields {
            Fields::AwaitCts { .. } => false,
            Fields::Sending {
                link,
                unsent,
                resends,
                granted,
                next,
                at,
                until,
                announced,
            } => {
                link.is_same(state.link)
                    && unsent == state.unsent
                    && resends == state.resends
                    && granted == state.granted
                    && next == state.next
                    && at == state.at
                    && until == state.until
                    && announced == state.announced
            }
            Fields::AwaitEnd { .. } => false,
        }
    }

    fn is_await_end(&self, state: &AwaitEnd) -> bool
        ensures { IsTrue result ↔ (self.now ≡ OutState.AwaitEnd state.now) }
    {
        match self.fields {
            Fields::AwaitCts { .. } => false,
            Fields::Sending { .. } => false,
            Fields::AwaitEnd {
                link,
                resends,
                timer,
            } => {
                link.is_same(state.link)
                    && resends == state.resends
                    && is_same_timer(timer, state.timer)
            }
        }
    }
}

// Whether two timers are equal.
fn is_same_timer(a: Timer, b: Timer) -> bool
    ensures { IsTrue result ↔ (a ≡ b) }
{
    a == b
}
