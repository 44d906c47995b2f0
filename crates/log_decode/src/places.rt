//! The place of a key in a map.
ghost use Rattle.std.specs.Prelude.{◌≡◌, ◌<◌, IfSome, is_some};
ghost use Rattle.indexmap.specs.IndexMap.{index_of, index_map_len, get};

use indexmap::IndexMap;
use std::hash::Hash;

/// So few keys are compared one after another, which is faster than hashing one.
const FEW: usize = 8;

/// The place of a key in a map.
#[inline]
pub(crate) fn place_of<K: Eq + Hash, V>(map: &IndexMap<K, V>, key: &K) -> Option<usize>
    ensures place { result ≡ index_of K.eq map.now key.now }
    ensures found { is_some result ≡ is_some (get K.eq map.now key.now) }
    ensures within { IfSome result (λ at. at < index_map_len map.now) }
{
    if map.len() > FEW {
        return map.get_index_of(key);
    }
    for at in 0..map.len() {
        let Some((kept, _)) = map.get_index(at) else {
            return None;
        };
        if *key == *kept {
            return Some(at);
        }
    }
    None
}
