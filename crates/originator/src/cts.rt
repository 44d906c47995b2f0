//! A CTS is taken (SAE J1939-21, TP.CM_CTS; ISO 11783-3, ETP.CM_CTS).
ghost use Rattle.std.specs.Prelude.{◌≡◌, ◌+◌, ◌≤◌, OnSome};
ghost use Rattle.originator.specs.Link.{packets_of};
ghost use Rattle.originator.specs.States.{most_resends};
ghost use Rattle.originator.specs.Readers.{link_of, unsent_of, resends_of, without_window as state_without_window};
ghost use Rattle.originator.specs.Cts.{led, window_opened, cts_without_window, on_cts};
ghost use Rattle.originator.specs.declared.states.OutState.TheVariants as OutState;
ghost use Rattle.originator.specs.declared.states.Stepped.TheVariants.{On};

use crate::await_cts::AwaitCts;
use crate::await_end::AwaitEnd;
use crate::endings::Ending;
use crate::link::Link;
use crate::sending::Sending;
use crate::states::OutState;
use tick_timers::{T4, Timer};
use tp_wire::AbortReason;

/// How often a CTS may name a packet again that was queued before: the next such CTS ends the message.
pub const MOST_RESENDS: u8 = 2;

/// The state without a window: by whether a packet was never queued.
pub(crate) fn without_window(link: Link, unsent: u32, resends: u8, timer: Timer) -> OutState
    requires from_first { 1 ≤ unsent }
    requires resends { resends ≤ most_resends }
    ensures value { result ≡ state_without_window link unsent resends timer }
    ensures link { link_of result ≡ link }
{
    if unsent <= link.packets() {
        OutState::AwaitCts(AwaitCts {
            link,
            unsent,
            resends,
            timer,
        })
    } else {
        OutState::AwaitEnd(AwaitEnd {
            link,
            resends,
            timer,
        })
    }
}

/// The window from packet `next` on.
fn window_from(link: Link, unsent: u32, resends: u8, granted: u8, next: u32) -> Sending
    requires granted { 1 ≤ granted }
    requires from_first { 1 ≤ next }
    requires to_last { next ≤ packets_of link }
    requires unsent_from { 1 ≤ unsent }
    requires unsent_to { unsent ≤ packets_of link + 1 }
    requires resends { resends ≤ most_resends }
    ensures value { On (OutState.Sending result) ≡ window_opened link unsent resends granted next }
    ensures link { result.link ≡ link }
{
    let until = ((next - 1) + u32::from(granted)).min(link.packets());
    Sending {
        link,
        unsent,
        resends,
        granted,
        next,
        at: next,
        until,
        announced: false,
    }
}

impl OutState {
    /// Takes a CTS of the message at tick `now`: `granted` packets from `next` on, none being a hold.
    pub(crate) fn take_cts(&mut self, granted: u8, next: u32, now: u64) -> Option<Ending>
        ensures step { on_cts self.old granted next now ≡ led result self.new }
        ensures link { link_of self.new ≡ link_of self.old }
        ensures kept { OnSome result (self.new ≡ self.old) }
    {
        if let OutState::Sending(state) = self {
            if state.granted == granted && state.next == next {
                return None;
            }
            if state.unsent <= state.until {
                return Some(Ending::Abort(AbortReason::CtsDuringTransfer));
            }
        }
        self.go_by_cts(granted, next, now)
    }

    /// Follows a CTS when there is no window, or after the window is dropped.
    fn go_by_cts(&mut self, granted: u8, next: u32, now: u64) -> Option<Ending>
        ensures step { cts_without_window (link_of self.old) (unsent_of self.old) (resends_of self.old) granted next now ≡ led result self.new }
        ensures link { link_of self.new ≡ link_of self.old }
        ensures kept { OnSome result (self.new ≡ self.old) }
    {
        let link = self.link();
        let unsent = self.unsent();
        let resends = self.resends();
        if granted == 0 {
            self.go_to(without_window(link, unsent, resends, Timer::start(now, T4)));
            return None;
        }
        if next == 0 || unsent.min(link.packets()) < next {
            return Some(Ending::Abort(AbortReason::Other));
        }
        if next < unsent && resends == MOST_RESENDS {
            return Some(Ending::Abort(AbortReason::RetransmitLimit));
        }
        let resends = resends + u8::from(next < unsent);
        let window = window_from(link, unsent, resends, granted, next);
        self.go_to(OutState::Sending(window));
        None
    }
}
