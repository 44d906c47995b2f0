//! How a message ends for its sender.
ghost use Rattle.std.specs.Prelude.{◌≡◌};
ghost use Rattle.originator.specs.Readers.{link_of};
ghost use Rattle.originator.specs.Endings.{ends, gives_up, aborts, expired, cancelled, aborted, overrun as overrun_over, ended};

use crate::link::Link;
use crate::states::{OutOver, OutState};
use tp_wire::{AbortReason, Outcome};

/// How a frame of the destination ends a message.
#[derive(Clone, Copy, Debug, PartialEq, Eq)]
pub enum Ending {
    /// The frame acknowledges the whole message.
    Acknowledged,
    /// The frame aborts the message, with this reason.
    Aborted(u8),
    /// The frame breaks the rules: the sender aborts the message for this reason.
    Abort(AbortReason),
}

impl Link {
    /// The sender gives the message up: the outcome, and an abort with this reason.
    fn give_up(self, reason: AbortReason, outcome: Outcome) -> OutOver
        ensures { result ≡ gives_up self reason outcome }
    {
        OutOver {
            outcome,
            frame: Some(self.abort_frame(reason)),
        }
    }

    /// The sender aborts the message for this reason.
    fn abort(self, reason: AbortReason) -> OutOver
        ensures { result ≡ aborts self reason }
    {
        self.give_up(reason, Outcome::Aborted(reason.byte()))
    }

    /// Its timer fired.
    pub(crate) fn expire(self) -> OutOver
        ensures { result ≡ expired self }
    {
        self.give_up(AbortReason::Timeout, Outcome::TimedOut)
    }

    /// It is cancelled.
    fn cancel(self) -> OutOver
        ensures { result ≡ cancelled self }
    {
        self.give_up(AbortReason::Other, Outcome::Cancelled)
    }
}

impl OutState {
    /// Its timer fired: the message ends as timed out, and an abort is queued. `is_due` says when it has a timer.
    pub fn expire(self) -> OutOver
        ensures { result ≡ expired (link_of self) }
    {
        self.into_link().expire()
    }

    /// An abort of the message with this reason was taken: it ended, and nothing is queued.
    pub fn abort(self, reason: u8) -> OutOver
        ensures { result ≡ aborted reason }
    {
        self.conclude(Outcome::Aborted(reason))
    }

    /// The message is cancelled: it ended, and an abort is queued.
    pub fn cancel(self) -> OutOver
        ensures { result ≡ cancelled (link_of self) }
    {
        self.into_link().cancel()
    }

    /// The sender's station missed frames: the message ended, and nothing is queued.
    pub fn overrun(self) -> OutOver
        ensures { result ≡ overrun_over }
    {
        self.conclude(Outcome::Overrun)
    }

    /// A frame ends the message in this way.
    pub fn end(self, ending: Ending) -> OutOver
        ensures { result ≡ ended (link_of self) ending }
    {
        match ending {
            Ending::Acknowledged => self.conclude(Outcome::Acknowledged),
            Ending::Aborted(reason) => self.abort(reason),
            Ending::Abort(reason) => self.into_link().abort(reason),
        }
    }

    // It ends without a frame.
    fn conclude(self, outcome: Outcome) -> OutOver
        ensures { result ≡ ends outcome }
    {
        let _link = self.into_link();
        OutOver {
            outcome,
            frame: None,
        }
    }
}
