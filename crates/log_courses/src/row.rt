//! The messages of a PGN between two nodes, and how they ended.
ghost use Rattle.std.specs.Prelude.{◌≡◌, ◌++◌, OnOk, IfOk, flat_map};
ghost use Rattle.log_courses.specs.Rows.{new_row, no_losses, with_loss, lost_of, counted_for, lost_for, losses_of, with_given, with_course, with_end, with_told, mean_of, share_of};

use crate::course::{Course, more};
use log_fields::Iface;
use log_reports::{Cause, Key, Told};
use pgn_ids::{Address, Pgn};
use std::alloc::{AllocError, Global};

/// How many messages are lost, by the cause.
#[derive(Clone, Copy)]
pub struct Losses {
    pub missing: u64,
    pub replaced: u64,
    pub timed_out: u64,
    pub went_back: u64,
    pub acknowledged: u64,
    pub unsound: u64,
    pub too_long: u64,
    pub end_of_log: u64,
}

/// The messages of a PGN from a node to another one, or to all, on an interface. A number that would pass 2^64 - 1
/// stays there.
#[derive(Clone, Copy)]
pub struct Row {
    pub iface: Iface,
    pub pgn: Pgn,
    pub from: Address,
    /// 255 for all.
    pub to: Address,
    /// Messages that were given.
    pub given: u64,
    /// Bytes of these.
    pub bytes: u64,
    /// How long these took, all together, each from its first frame to its last, in microseconds.
    pub time: u64,
    /// The longest of these times.
    pub longest: u64,
    /// Packets that were asked for again, of messages that were given, aborted or lost.
    pub again: u64,
    /// Frames of messages that were given, aborted or lost.
    pub frames: u64,
    /// Messages that are lost.
    pub losses: Losses,
}

/// Why messages weren't given.
#[derive(Clone, Copy)]
pub enum Reason {
    /// They were aborted, for the reason with this byte.
    Abort(u8),
    /// They are lost.
    Loss(Cause),
}

/// How many messages weren't given for a reason.
#[derive(Clone, Copy)]
pub struct ReasonCount {
    pub reason: Reason,
    pub count: u64,
}

/// Puts a count if it isn't 0.
pub(crate) fn put_count(
    found: &mut Vec<ReasonCount>,
    reason: Reason,
    count: u64,
) -> Result<(), AllocError>
    ensures { OnOk result (found.new.items ≡ found.old.items ++ counted_for reason count) }
{
    if count != 0 {
        found.push(ReasonCount { reason, count })?;
    }
    Ok(())
}

/// The causes, in the order of their words.
const CAUSES: [Cause; 8] = [
    Cause::Acknowledged,
    Cause::EndOfLog,
    Cause::Missing,
    Cause::Replaced,
    Cause::WentBack,
    Cause::TimedOut,
    Cause::TooLong,
    Cause::Unsound,
];

impl Losses {
    fn none() -> Losses
        ensures { result ≡ no_losses }
    {
        Losses {
            missing: 0,
            replaced: 0,
            timed_out: 0,
            went_back: 0,
            acknowledged: 0,
            unsound: 0,
            too_long: 0,
            end_of_log: 0,
        }
    }

    fn add(&mut self, cause: Cause)
        ensures { self.new ≡ with_loss cause self.old }
    {
        match cause {
            Cause::Missing => self.missing = more(self.missing),
            Cause::Replaced => self.replaced = more(self.replaced),
            Cause::TimedOut => self.timed_out = more(self.timed_out),
            Cause::WentBack => self.went_back = more(self.went_back),
            Cause::Acknowledged => self.acknowledged = more(self.acknowledged),
            Cause::Unsound => self.unsound = more(self.unsound),
            Cause::TooLong => self.too_long = more(self.too_long),
            Cause::EndOfLog => self.end_of_log = more(self.end_of_log),
        }
    }

    fn of(&self, cause: Cause) -> u64
        ensures { result ≡ lost_of self.now cause }
    {
        match cause {
            Cause::Missing => self.missing,
            Cause::Replaced => self.replaced,
            Cause::TimedOut => self.timed_out,
            Cause::WentBack => self.went_back,
            Cause::Acknowledged => self.acknowledged,
            Cause::Unsound => self.unsound,
            Cause::TooLong => self.too_long,
            Cause::EndOfLog => self.end_of_log,
        }
    }

    fn list(&self, alloc: Global, causes: &[Cause]) -> Result<Vec<ReasonCount>, AllocError>
        ensures { IfOk result (λ found. found.items ≡ flat_map (lost_for self.now) causes.now) }
    {
        let mut found = Vec::new(alloc);
        for cause in causes {
            put_count(&mut found, Reason::Loss(*cause), self.of(*cause))?;
        }
        Ok(found)
    }
}

impl Row {
    /// A row without a message.
    pub(crate) fn new(key: &Key, pgn: Pgn) -> Row
        ensures { result ≡ new_row key.now pgn }
    {
        Row {
            iface: key.iface,
            pgn,
            from: key.from,
            to: key.to,
            given: 0,
            bytes: 0,
            time: 0,
            longest: 0,
            again: 0,
            frames: 0,
            losses: Losses::none(),
        }
    }

    fn add_given(&mut self, course: &Course, bytes: u64)
        ensures { self.new ≡ with_given bytes course.now self.old }
    {
        let span = course.last.time.saturating_sub(course.first.time);
        self.given = more(self.given);
        self.bytes = self.bytes.saturating_add(bytes);
        self.time = self.time.saturating_add(span);
        self.longest = self.longest.max(span);
    }

    fn add_course(&mut self, course: &Course)
        ensures { self.new ≡ with_course course.now self.old }
    {
        self.again = self.again.saturating_add(course.again);
        self.frames = self.frames.saturating_add(course.frames);
    }

    fn add_end(&mut self, course: &Course, told: &Told)
        ensures { self.new ≡ with_end course.now told.now self.old }
    {
        match told {
            Told::Given { bytes, .. } => self.add_given(course, bytes.len() as u64),
            Told::Aborted { .. } => {}
            Told::Lost { cause, .. } => self.losses.add(*cause),
        }
    }

    /// Adds the report on one of its messages, with its course.
    pub(crate) fn add(&mut self, course: &Course, told: &Told)
        ensures { self.new ≡ with_told course.now told.now self.old }
    {
        self.add_course(course);
        self.add_end(course, told);
    }

    /// The causes for which messages are lost, in the order of their words. It fails only if memory is refused.
    pub fn lost(&self, alloc: Global) -> Result<Vec<ReasonCount>, AllocError>
        ensures { IfOk result (λ lost. lost.items ≡ losses_of self.now) }
    {
        self.losses.list(alloc, &CAUSES)
    }

    /// How long a message that was given took on average, in whole microseconds, rounded down; 0 if none was.
    pub fn mean(&self) -> u64
        ensures { result ≡ mean_of self.now }
    {
        if self.given == 0 {
            return 0;
        }
        self.time / self.given
    }

    /// The row's part of so many frames, in parts per thousand, rounded down; 0 if there are none.
    pub fn share(&self, all: u64) -> u64
        ensures { result ≡ share_of self.now.frames all }
    {
        if all == 0 {
            return 0;
        }
        self.frames.saturating_mul(1000) / all
    }
}
