//! The steps of a walk over the index of a table, in any order.
ghost use Rattle.std.specs.Prelude.{◌≡◌, false};
ghost use Rattle.std.specs.Option.{option_map_or};
ghost use Rattle.tick_timers.specs.Timers.{is_due};
ghost use Rattle.session_table.specs.DueOrder.{is_above_low, passes};
ghost use Rattle.session_table.specs.Incoming.{timer_of};
ghost use Rattle.session_table.specs.Key.{lesser_of};
ghost use Rattle.session_table.specs.Shape.{content_at};

use crate::key::Key;
use crate::place::{Place, content};
use slab::Slab;

/// Whether there is a state in this place whose timer is due.
pub(crate) fn is_due_at<T>(places: &Slab<Place<T>>, at: usize, now: u64) -> bool
    ensures { result ≡ option_map_or (λ v. is_due (timer_of v.1) now) (content_at places.now at) false }
{
    match content(places, at) {
        None => false,
        Some((_, state)) => state.is_due(now),
    }
}

/// Whether there is a state in the place of this key, and the key is above the low one.
pub(crate) fn is_above_at<T>(places: &Slab<Place<T>>, key: Key, at: usize, low: Option<Key>) -> bool
    ensures { result ≡ passes (is_above_low low) (key, content_at places.now at) }
{
    content(places, at).is_some() && key.is_above(low)
}

/// The lesser of what was found and a key.
pub(crate) fn lesser(found: Option<Key>, key: Key) -> Option<Key>
    ensures { result ≡ lesser_of found key }
{
    match found {
        Some(least) if !key.is_before(least) => Some(least),
        _ => Some(key),
    }
}
