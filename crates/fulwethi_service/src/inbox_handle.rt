//! What C holds of an inbox.
ghost use Rattle.std.specs.Prelude.{◌≡◌, Some, IsSome};
ghost use Rattle.fulwethi_service.specs.HeldInbox.{Held, held_coded, held_owns};

use crate::post::Post;
use c_parts::Parts;
use std::alloc::Global;
use std::marker::{Model, Send};

/// A pointer, which owns an inbox or nothing. In C it has the pointer alone, and one of zeros owns nothing.
#[repr(C)]
#[derive(Drop)]
pub struct InboxHandle {
    ptr: *mut u8,
    alloc: Global,
    pub ghost post: { Held } by { held_coded },
}

impl Model for InboxHandle {
    ghost also_owns = { λ h. held_owns h.alloc h.ptr h.post };
}

// C may hand it to another thread: it owns all that it holds.
unsafe impl Send for InboxHandle {}

impl InboxHandle {
    /// What C holds from now on.
    pub fn of_box(held: Box<Post, Global>) -> InboxHandle
        ensures { result.post ≡ Some held.value }
    {
        InboxHandle::of_parts(Parts::of(held))
    }

    /// What C held.
    pub fn into_box(self) -> Box<Post, Global>
        requires { IsSome self.post }
        ensures { self.post ≡ Some result.value }
    {
        self.into_parts().into_box()
    }

    fn of_parts(parts: Parts<Post, Global>) -> InboxHandle
        ensures { result.post ≡ Some parts.value }
    {
        let Parts { ptr, alloc } = parts;
        InboxHandle {
            ptr: ptr as *mut u8,
            alloc,
        }
    }

    fn into_parts(self) -> Parts<Post, Global>
        requires { IsSome self.post }
        ensures { self.post ≡ Some result.value }
    {
        let InboxHandle { ptr, alloc } = self;
        Parts {
            ptr: ptr as *mut Post,
            alloc,
        }
    }
}
