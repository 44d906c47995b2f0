//! What C holds of a node.
ghost use Rattle.std.specs.Prelude.{◌≡◌, Some, IsSome};
ghost use Rattle.fulwethi_c.specs.Held.{Held, held_coded, held_owns};

use c_parts::Parts;
use one_station::Node;
use std::alloc::Global;
use std::marker::{Model, Send};

/// A pointer, which owns a node or nothing. In C it has the pointer alone, and one of zeros owns nothing.
#[repr(C)]
#[derive(Drop)]
pub struct Handle {
    ptr: *mut u8,
    alloc: Global,
    pub ghost node: { Held } by { held_coded },
}

impl Model for Handle {
    ghost also_owns = { λ h. held_owns h.alloc h.ptr h.node };
}

// C may hand it to another thread: it owns all that it holds.
unsafe impl Send for Handle {}

impl Handle {
    pub fn of_parts(parts: Parts<Node, Global>) -> Handle
        ensures { result.node ≡ Some parts.value }
    {
        let Parts { ptr, alloc } = parts;
        Handle {
            ptr: ptr as *mut u8,
            alloc,
        }
    }

    pub fn into_parts(self) -> Parts<Node, Global>
        requires { IsSome self.node }
        ensures { self.node ≡ Some result.value }
    {
        let Handle { ptr, alloc } = self;
        Parts {
            ptr: ptr as *mut Node,
            alloc,
        }
    }
}
