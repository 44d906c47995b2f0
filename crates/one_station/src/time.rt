//! The clock, in ticks of 1 ms, and the timers of the sessions (SAE J1939-21, T1 to T4, Tr and Th).
ghost use Rattle.std.specs.Prelude.{◌≡◌, ◌<◌, ◌≤◌, ◌-◌, ◌↔◌, IsErrOf, OnErr};
ghost use Rattle.tick_timers.specs.Due.{IsDueFrom, IsNextFrom};
ghost use Rattle.segment_law.specs.declared.call.Call.TheVariants.{Tick, Fire};
ghost use Rattle.segment_state.specs.Due.{any_due};
ghost use Rattle.segment_state.specs.Next.{any_work};
ghost use Rattle.one_station.specs.Answers.{IsAnswered};

use crate::error::NodeError;
use crate::node::Node;
use segment_core::Call;

impl Node {
    /// The tick of its clock, of 1 ms.
    pub fn now(&self) -> u64
        ensures { result ≡ self.now.segment.now }
    {
        self.segment.now()
    }

    /// Advances the clock to a tick. Timers that are due then are fired by `fire`.
    ///
    /// Refused as `ClockPassed` if the clock is past the tick, and else as `OutOfMemory` if memory is refused.
    pub fn clock(&mut self, tick: u64) -> Result<(), NodeError>
        ensures passed { IsErrOf result NodeError.ClockPassed ↔ (tick < self.old.segment.now) }
        ensures answered { self.old.segment.now ≤ tick → IsAnswered self.old (Tick (tick - self.old.segment.now)) self.new result }
        ensures err { OnErr result (self.new ≡ self.old) }
    {
        let now = self.segment.now();
        if tick < now {
            return Err(NodeError::ClockPassed);
        }
        self.make(Call::Tick { n: tick - now })
    }

    /// Fires the first timer that is due: what waited too long for a frame is ended, or the frame is asked for again. Call it until
    /// it is refused.
    ///
    /// Refused as `NothingDue` if no timer is due, and as `TxFull` if the transmit queue has no place for the frame that it may
    /// need; and else as `OutOfMemory` if memory is refused.
    pub fn fire(&mut self) -> Result<(), NodeError>
        ensures { IsAnswered self.old (Fire self.old.address) self.new result }
    {
        let station = self.address;
        self.make(Call::Fire { station })
    }

    /// The tick at which the next timer is due: the least at which `fire` has something to fire. None if no timer runs that would be
    /// due up to the last tick of `u64`.
    pub fn next_due_at(&self) -> Option<u64>
        ensures { IsDueFrom (any_due self.now.segment) result }
    {
        self.segment.next_due_at()
    }

    /// The first tick, from that of its clock on, at which it has something to do by itself: a frame for the bus, a frame that waits
    /// to be looked at, or a timer that `fire` has to fire. So a loop may sleep until then, unless a frame is read from the bus or
    /// the program makes a call. None if there is no such tick up to the last one of `u64`.
    pub fn next_at(&self) -> Option<u64>
        ensures { IsNextFrom (any_work self.now.segment) self.now.segment.now result }
    {
        self.segment.next_at()
    }
}
