//! The timer of a sender.
ghost use Rattle.std.specs.Prelude.{◌≡◌};
ghost use Rattle.originator.specs.Readers.{timer_of};

use crate::states::OutState;
use tick_timers::Timer;

impl OutState {
    /// Its timer (T3, after a hold T4). None while packets of a window are still to be queued.
    pub fn timer(&self) -> Option<Timer>
        ensures { result ≡ timer_of self.now }
    {
        match self {
            OutState::AwaitCts(state) => Some(state.timer),
            OutState::Sending(_) => None,
            OutState::AwaitEnd(state) => Some(state.timer),
        }
    }
}
