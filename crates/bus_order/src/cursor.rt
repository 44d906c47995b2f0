//! The cursors of the stations, and those furthest behind.
ghost use Rattle.std.specs.Prelude.{◌≡◌, ◌<◌, ◌≤◌, ◌==◌, true, false, length, replicate, slice_set, slice_index_or};
ghost use Rattle.bus_order.specs.Bus.{start};
ghost use Rattle.bus_order.specs.Rear.{IsRear};

use std::marker::Model;

/// How far a station is.
#[derive(Clone, Copy, Debug)]
pub(crate) struct Cursor {
    pub(crate) place: u64,
    // How many frames can be repeated, 0 or 1: as wide as the place, so that a cursor is written as a whole.
    again: u64,
}

impl Model for Cursor {
    ghost use Rattle.bus_order.specs.Bus.{Cursor as CursorValue};

    ghost Value = { CursorValue };

    ghost use Rattle.bus_order.specs.CursorFields.{cursor_value, RepeatsOne, cursor_fields, cursor_fields_back};

    ghost view = { cursor_value };

    ghost invariant = { RepeatsOne };

    ghost inverse = { cursor_fields };

    ghost inverse_ok = { cursor_fields_back };
}

impl Cursor {
    /// A cursor before all frames.
    pub(crate) const START: Cursor = Cursor { place: 0, again: 0 };

    /// At a frame that was taken.
    #[inline]
    pub(crate) const fn taken(place: u64) -> Cursor
        ensures { result ≡ record { place = place; repeatable = true } }
    {
        Cursor { place, again: 1 }
    }

    /// At a frame that was passed over.
    #[inline]
    pub(crate) const fn passed(place: u64) -> Cursor
        ensures { result ≡ record { place = place; repeatable = false } }
    {
        Cursor { place, again: 0 }
    }

    /// Whether its frame can be repeated.
    #[inline]
    pub(crate) fn is_repeatable(self) -> bool
        ensures { result ≡ self.repeatable }
    {
        self.again == 1
    }
}

/// The cursors furthest behind: their place, and how many are there.
#[derive(Clone, Copy, Debug)]
pub(crate) struct Rear {
    pub(crate) place: u64,
    pub(crate) count: usize,
}

/// The cursors furthest behind among all.
pub(crate) fn rear_of(cursors: &[Cursor]) -> Rear
    ensures { IsRear result cursors.now }
{
    let Some(first) = cursors.first() else {
        return Rear { place: 0, count: 0 };
    };
    let mut rear = Rear {
        place: first.place,
        count: 1,
    };
    for i in 1..cursors.len() {
        let cursor = &cursors[i];
        if cursor.place < rear.place {
            rear = Rear {
                place: cursor.place,
                count: 1,
            };
        } else if cursor.place == rear.place {
            rear.count += 1;
        }
    }
    rear
}

/// Moves all cursors to one place.
#[inline]
pub(crate) fn bring_all(cursors: &mut [Cursor], to: Cursor)
    ensures { cursors.new ≡ replicate (length cursors.old) to }
{
    cursors.fill(to);
}

/// Moves a cursor on, and returns which are furthest behind then. It looks at all of them only when the last one at the
/// rear leaves.
#[inline]
pub(crate) fn move_cursor(cursors: &mut [Cursor], rear: Rear, at: usize, to: Cursor) -> Rear
    requires at { at < length cursors.old }
    requires rear { IsRear rear cursors.old }
    requires on { (slice_index_or cursors.old at start).place ≤ to.place }
    ensures moved { cursors.new ≡ slice_set cursors.old at to }
    ensures rear { IsRear result cursors.new }
{
    let from = cursors[at];
    cursors[at] = to;
    if from.place != rear.place {
        return rear;
    }
    if to.place == from.place {
        return rear;
    }
    if rear.count > 1 {
        return Rear {
            place: rear.place,
            count: rear.count - 1,
        };
    }
    rear_of(cursors)
}
