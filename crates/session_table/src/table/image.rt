//! The content of a table as plain data.
ghost use Rattle.std.specs.Prelude.{◌≡◌, IfOk};
ghost use Rattle.std.specs.FinMap as map;
ghost use Rattle.std.specs.List.{IsDistinct};
ghost use Rattle.std.specs.Map.{keys_of};
ghost use Rattle.session_table.specs.Key.{key_eq};
ghost use Rattle.session_table.specs.Shape.{content_at};

use super::SessionTable;
use crate::incoming::IncomingImage;
use crate::key::Key;
use crate::place::{Place, content};
use slab::Slab;
use std::alloc::{AllocError, Global};
use std::marker::Model;

/// The content of a `SessionTable`, as plain data: its keys, each with its state, or with nothing while the key is held.
pub struct TableImage<T> {
    entries: Vec<(Key, Option<(T, IncomingImage)>)>,
}

impl<T> Model for TableImage<T> {
    ghost use Rattle.session_table.specs.Sessions.{Sessions, sessions_code};

    ghost Value = { Sessions T };

    ghost coded = { sessions_code T.code };

    ghost use Rattle.std.specs.FinMap as map;
    ghost use Rattle.std.specs.List.{IsDistinct};
    ghost use Rattle.std.specs.Map.{keys_of};
    ghost use Rattle.session_table.specs.Key.{key_eq};

    ghost view = { λ s. map.from_entries s.entries.items };

    ghost invariant = { λ s. IsDistinct key_eq (keys_of s.entries.items) };
}

impl<T: Drop> Drop for TableImage<T> {
    fn drop(self) {
        let TableImage { entries: _ } = self;
    }
}

impl<T: Copy> SessionTable<T> {
    /// Its content, as plain data.
    pub fn image(&self, alloc: Global) -> Result<TableImage<T>, AllocError>
        ensures { IfOk result (λ image. image ≡ self.now) }
    {
        let mut entries = Vec::with_capacity(alloc, self.index.len())?;
        for (key, at) in self.index.entries() {
            let content = content_image(alloc, &self.places, *at)?;
            entries.push((*key, content))?;
        }
        Ok(TableImage { entries })
    }
}

impl<T> TableImage<T> {
    /// The keys, each once, with their states, in whatever order.
    pub fn entries(&self) -> &[(Key, Option<(T, IncomingImage)>)]
        ensures value { map.from_entries result.now ≡ self.now }
        ensures distinct { IsDistinct key_eq (keys_of result.now) }
    {
        self.entries.as_slice()
    }
}

// The content of a place, as plain data.
fn content_image<T: Copy>(
    alloc: Global,
    places: &Slab<Place<T>>,
    at: usize,
) -> Result<Option<(T, IncomingImage)>, AllocError>
    ensures { IfOk result (λ image. image ≡ content_at places.now at) }
{
    match content(places, at) {
        None => Ok(None),
        Some((bound, state)) => {
            let image = state.image(alloc)?;
            Ok(Some((*bound, image)))
        }
    }
}
