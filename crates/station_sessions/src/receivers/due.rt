//! The next timer of the incoming sessions.
ghost use Rattle.std.specs.Prelude.{is_some};
ghost use Rattle.tick_timers.specs.Due.{IsDueFrom};
ghost use Rattle.session_table.specs.DueOrder.{first_due};

use super::Receivers;

impl Receivers {
    /// The tick from which on the earliest timer of a session is due. None if there is no session, or if no timer is due up to
    /// the last tick.
    pub fn next_due_at(&self) -> Option<u64>
        ensures { IsDueFrom (λ now. is_some (first_due self.now now)) result }
    {
        self.table.next_due_at()
    }
}
