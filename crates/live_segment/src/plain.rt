//! A call that gives no message, as most calls do.
ghost use Rattle.live_segment.specs.Passing.{IsMadePlainly};

use crate::live::Live;
use live_calls::{WorkerCall, try_plainly};
use live_ends::tell;
use message_events::Events;
use stored_calls::Stored;

impl Live {
    /// Makes a call, if it can give no message. Else, and if the call can't be stored, is refused or finds no memory, this returns false,
    /// and nothing has changed: `apply` then finds places for what is given, or answers why the call isn't made.
    #[inline(always)]
    pub(crate) fn make_plainly(&mut self, call: &WorkerCall) -> bool
        ensures { IsMadePlainly self.old call.now self.new result }
    {
        if self.calls.is_full() {
            return false;
        }
        if self.calls.reserve().is_err() {
            return false;
        }
        let mut told = Events::none(self.alloc);
        if try_plainly(&mut self.segment, *call, &mut told) {
            tell(
                &mut self.doors,
                &mut self.owed,
                &mut self.seats,
                Vec::new(self.alloc),
                &told,
            );
            self.calls.push_reserved(Stored {
                by: None,
                call: call.with_room(true),
            });
            return true;
        }
        false
    }
}
