//! The rows of a log.
ghost use Rattle.std.specs.Prelude.{◌≡◌, ◌≤◌, OnOk, OnErr, IfOk, IsSome};
ghost use Rattle.std.specs.List.Sorted.{IsStrictlySortedBy};
ghost use Rattle.std.specs.Map.{keys_of};
ghost use Rattle.log_courses.specs.Rows.{by_row, row_at, put_back, row_told, aborts_told, aborted, aborts_below, frames_named, frames_on, no_summary, with_frame, with_message, rows_of, aborts_of};

use crate::course::Course;
use crate::key::{AbortKey, Name, RowKey};
use crate::row::{Reason, ReasonCount, Row, put_count};
use log_fields::Iface;
use log_reports::{Told, key_told, pgn_told};
use std::alloc::{AllocError, Global};
use std::collections::BTreeMap;
use std::marker::Model;

/// The messages of a log and how they ended. A number that would pass 2^64 - 1 stays there.
pub struct Summary {
    rows: BTreeMap<RowKey, Row>,
    aborts: BTreeMap<AbortKey, u64>,
    frames: BTreeMap<Name, u64>,
}

impl Model for Summary {
    ghost use Rattle.log_courses.specs.Rows.{Summary};

    ghost Value = { Summary };

    ghost view = { λ s. record { rows = s.rows.entries; aborts = s.aborts.entries; frames = s.frames.entries } };
}

impl Drop for Summary {
    fn drop(self) {
        let Summary {
            rows: _,
            aborts: _,
            frames: _,
        } = self;
    }
}

/// How many reasons of an abort there are.
const REASONS: u16 = 256;

impl Summary {
    /// Nothing was seen. It takes no memory.
    pub fn new(alloc: Global) -> Summary
        ensures { result ≡ no_summary }
    {
        Summary {
            rows: BTreeMap::new(alloc),
            aborts: BTreeMap::new(alloc),
            frames: BTreeMap::new(alloc),
        }
    }

    fn frames_named(&self, name: Name) -> u64
        ensures { result ≡ frames_named name self.now.frames }
    {
        self.frames.get(&name).copied().unwrap_or(0)
    }

    /// A frame is seen on an interface, of a message or of none. It fails only if memory is refused, which the first frame of an interface
    /// takes; then nothing has changed.
    #[tactic(auto, using(crate::proofs::PutBack::none_seen))]
    pub fn add_frame(&mut self, iface: Iface) -> Result<(), AllocError>
        ensures counted { OnOk result (self.new ≡ with_frame iface self.old) }
        ensures refused { OnErr result (self.new ≡ self.old) }
        ensures first { OnErr result (frames_on iface self.old ≡ 0) }
    {
        let name = Name::of(iface);
        let seen = self.frames_named(name);
        self.frames.insert(name, seen.saturating_add(1))?;
        Ok(())
    }

    /// Counts a message in its row. Returns the row as it was before, if it was there.
    fn add_row(
        &mut self,
        key: RowKey,
        course: &Course,
        told: &Told,
    ) -> Result<Option<Row>, AllocError>
        ensures told { OnOk result (self.new ≡ record self.old { rows = row_told key course.now told.now self.old.rows }) }
        ensures before { IfOk result (λ row. row ≡ row_at key self.old.rows) }
        ensures ordered { IsStrictlySortedBy by_row (keys_of self.old.rows) }
        ensures there { OnOk result (IsSome (row_at key self.new.rows)) }
        ensures refused { OnErr result (self.new ≡ self.old) }
    {
        let mut row = match self.rows.get(&key) {
            None => Row::new(&key_told(told), pgn_told(told)),
            Some(row) => *row,
        };
        row.add(course, told);
        let before = self.rows.insert(key, row)?;
        Ok(before)
    }

    /// A row that is there becomes what it was before, or goes if it wasn't there.
    fn put_back(&mut self, key: RowKey, before: Option<Row>)
        requires { IsSome (row_at key self.old.rows) }
        ensures { self.new ≡ record self.old { rows = put_back key before self.old.rows } }
    {
        match before {
            None => {
                let _ = self.rows.remove(&key);
            }
            Some(row) => {
                let _ = self.rows.insert(key, row);
            }
        }
    }

    fn add_abort(&mut self, row: RowKey, told: &Told) -> Result<(), AllocError>
        ensures told { OnOk result (self.new ≡ record self.old { aborts = aborts_told row told.now self.old.aborts }) }
        ensures refused { OnErr result (self.new ≡ self.old) }
    {
        match told {
            Told::Given { .. } => Ok(()),
            Told::Aborted { reason, .. } => {
                let key = AbortKey {
                    row,
                    reason: *reason,
                };
                let seen = self.aborts.get(&key).copied().unwrap_or(0);
                self.aborts.insert(key, seen.saturating_add(1))?;
                Ok(())
            }
            Told::Lost { .. } => Ok(()),
        }
    }

    /// Adds the report on a message, with its course. It fails only if memory is refused; then nothing has changed.
    pub fn add(&mut self, course: &Course, told: &Told) -> Result<(), AllocError>
        ensures told { OnOk result (self.new ≡ with_message course.now told.now self.old) }
        ensures refused { OnErr result (self.new ≡ self.old) }
    {
        let key = key_told(told);
        let row = RowKey::of(key.iface, pgn_told(told), key.from, key.to);
        let before = self.add_row(row, course, told)?;
        let Ok(()) = self.add_abort(row, told) else {
            self.put_back(row, before);
            return Err(AllocError);
        };
        Ok(())
    }

    /// The rows, in the order of the names of their interfaces, of their PGNs, senders and destinations.
    pub fn rows(&self, alloc: Global) -> Result<Vec<Row>, AllocError>
        ensures { IfOk result (λ rows. rows.items ≡ rows_of self.now) }
    {
        self.rows.values().copied().collect(alloc)
    }

    fn aborted(&self, row: RowKey, reason: u8) -> u64
        ensures { result ≡ aborted row reason self.now.aborts }
    {
        let key = AbortKey { row, reason };
        self.aborts.get(&key).copied().unwrap_or(0)
    }

    fn aborts_below(
        &self,
        alloc: Global,
        row: RowKey,
        end: u16,
    ) -> Result<Vec<ReasonCount>, AllocError>
        requires { end ≤ 256 }
        ensures { IfOk result (λ found. found.items ≡ aborts_below row self.now.aborts end) }
    {
        let mut found = Vec::new(alloc);
        for at in 0..end {
            let reason = at as u8;
            put_count(&mut found, Reason::Abort(reason), self.aborted(row, reason))?;
        }
        Ok(found)
    }

    /// The reasons for which messages of a row were aborted, from the lowest on.
    pub fn aborts(&self, alloc: Global, row: &Row) -> Result<Vec<ReasonCount>, AllocError>
        ensures { IfOk result (λ aborts. aborts.items ≡ aborts_of row.now self.now) }
    {
        let key = RowKey::of(row.iface, row.pgn, row.from, row.to);
        self.aborts_below(alloc, key, REASONS)
    }

    /// How many frames were seen on an interface, of messages or of none.
    pub fn frames_on(&self, iface: Iface) -> u64
        ensures { result ≡ frames_on iface self.now }
    {
        self.frames_named(Name::of(iface))
    }
}
