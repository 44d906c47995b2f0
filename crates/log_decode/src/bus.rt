//! A listener to one interface.
ghost use Rattle.std.specs.Prelude.{◌≡◌, ◌++◌, OnOk, IfOk};
ghost use Rattle.log_decode.specs.Decoder.{goes_back, now_at, passed, bus_taken};
ghost use Rattle.log_decode.specs.Due.{NoneDueBefore};
ghost use Rattle.log_decode.specs.Stray.{left_at, bus_stray};
ghost use Rattle.log_decode.specs.Sessions.{losses};
ghost use Rattle.log_decode.specs.View.{new_bus};
ghost use Rattle.log_decode.specs.declared.session.Fate.TheVariants.{Lost};
ghost use Rattle.log_reports.specs.declared.told.Cause.TheVariants.{EndOfLog};

use crate::frames::take_frame;
use crate::session::soonest;
use crate::sessions::{Sessions, tell_all};
use crate::silence::end_due;
use bus_frame::Frame;
use indexmap::IndexMap;
use log_fields::{Iface, LATE};
use log_reports::{Cause, Stray, Told};
use std::alloc::{AllocError, Global};
use std::marker::Model;

/// A listener to one interface.
pub(crate) struct Bus {
    time: u64,
    /// No message under way becomes silent before this time.
    due: u64,
    sessions: Sessions,
}

impl Model for Bus {
    ghost use Rattle.log_decode.specs.View.{Bus};
    ghost use Rattle.log_decode.specs.Due.{NoneDueBefore};

    ghost Value = { Bus };

    ghost view = { λ b. record { time = b.time; sessions = b.sessions.entries } };

    ghost invariant = { λ b. NoneDueBefore b.due b.sessions.entries };
}

impl Drop for Bus {
    fn drop(self) {
        let Bus {
            time: _,
            due: _,
            sessions: _,
        } = self;
    }
}

/// Whether the clock was set back from one time to another.
fn goes_back(before: u64, time: u64) -> bool
    ensures { result ≡ goes_back before time }
{
    before.saturating_sub(time) > LATE
}

/// The time of a frame.
fn now_at(before: u64, time: u64) -> u64
    ensures { result ≡ now_at before time }
{
    if goes_back(before, time) {
        time
    } else {
        before.max(time)
    }
}

/// Time advances, or goes back. None of what is under way becomes silent before `due`, and none of what is left before the time that is
/// returned.
fn pass(
    sessions: &mut Sessions,
    due: u64,
    before: u64,
    time: u64,
    told: &mut Vec<Told>,
) -> Result<u64, AllocError>
    requires { NoneDueBefore due sessions.old.entries }
    ensures told { OnOk result ((sessions.new.entries, told.new.items) ≡ passed before time (sessions.old.entries, told.old.items)) }
    ensures next { IfOk result (λ due. NoneDueBefore due sessions.new.entries) }
    ensures left { OnOk result (sessions.new.entries ≡ left_at before time sessions.old.entries) }
{
    if goes_back(before, time) {
        tell_all(sessions, Cause::WentBack, told)?;
        sessions.truncate(0);
        return Ok(u64::MAX);
    }
    end_due(sessions, due, before.max(time), told)
}

impl Bus {
    /// A bus on which nothing was seen. It takes no memory.
    pub(crate) fn new(alloc: Global) -> Bus
        ensures { result ≡ new_bus }
    {
        Bus {
            time: 0,
            due: u64::MAX,
            sessions: IndexMap::new(alloc),
        }
    }

    /// The time of the last frame, in microseconds; 0 before the first.
    pub(crate) fn time(&self) -> u64
        ensures { result ≡ self.now.time }
    {
        self.time
    }

    /// A frame is seen. Returns its kind if it belongs to a message that isn't under way.
    pub(crate) fn take(
        &mut self,
        alloc: Global,
        most: u32,
        time: u64,
        iface: Iface,
        frame: &Frame,
        told: &mut Vec<Told>,
    ) -> Result<Option<Stray>, AllocError>
        ensures told { OnOk result ((self.new, told.new.items) ≡ bus_taken self.old most time iface frame.now told.old.items) }
        ensures stray { IfOk result (λ stray. stray ≡ bus_stray self.old time iface frame.now) }
    {
        let now = now_at(self.time, time);
        let due = self.due;
        // Until the frame is taken nothing is known of when a message is due.
        self.due = 0;
        let due = pass(&mut self.sessions, due, self.time, time, told)?;
        self.time = now;
        let stray = take_frame(alloc, &mut self.sessions, iface, frame, most, now, told)?;
        self.due = due.min(soonest(now));
        Ok(stray)
    }

    /// The log ends.
    pub(crate) fn finish(&self, told: &mut Vec<Told>) -> Result<(), AllocError>
        ensures { OnOk result (told.new.items ≡ told.old.items ++ losses (Lost EndOfLog) self.now.sessions) }
    {
        tell_all(&self.sessions, Cause::EndOfLog, told)
    }
}
