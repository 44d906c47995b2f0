//! The next timer of a table.
ghost use Rattle.std.specs.Prelude.{false, is_some};
ghost use Rattle.std.specs.Option.{option_map_or};
ghost use Rattle.tick_timers.specs.Due.{IsDueFrom};
ghost use Rattle.tick_timers.specs.Timers.{is_due};
ghost use Rattle.session_table.specs.DueOrder.{first_due};
ghost use Rattle.session_table.specs.Incoming.{timer_of};
ghost use Rattle.session_table.specs.Shape.{content_at};

use super::SessionTable;
use crate::place::{Place, content};
use slab::Slab;
use tick_timers::earlier;

// The tick from which on the timer of the state in a place is due, if there is a state.
fn due_at<T>(places: &Slab<Place<T>>, at: usize) -> Option<u64>
    ensures { IsDueFrom (λ now. option_map_or (λ v. is_due (timer_of v.1) now) (content_at places.now at) false) result }
{
    let (_, state) = content(places, at)?;
    state.timer().due_at()
}

impl<T> SessionTable<T> {
    /// The tick from which on the earliest timer is due. None if there is no session, or if no timer is due up to the last
    /// tick. Held keys are passed over.
    pub fn next_due_at(&self) -> Option<u64>
        ensures { IsDueFrom (λ now. is_some (first_due self.now now)) result }
    {
        let mut tick = None;
        for (_, at) in self.index.entries() {
            tick = earlier(tick, due_at(&self.places, *at));
        }
        tick
    }
}
