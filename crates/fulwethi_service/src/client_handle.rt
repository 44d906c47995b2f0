//! What C holds of a client.
ghost use Rattle.std.specs.Prelude.{◌≡◌, Some, IsSome};
ghost use Rattle.fulwethi_service.specs.HeldClient.{Held, held_coded, held_owns};

use crate::desk::Desk;
use c_parts::Parts;
use std::alloc::Global;
use std::marker::{Model, Send};

/// A pointer, which owns a client or nothing. In C it has the pointer alone, and one of zeros owns nothing.
#[repr(C)]
#[derive(Drop)]
pub struct ClientHandle {
    ptr: *mut u8,
    alloc: Global,
    pub ghost desk: { Held } by { held_coded },
}

impl Model for ClientHandle {
    ghost also_owns = { λ h. held_owns h.alloc h.ptr h.desk };
}

// C may hand it to another thread: it owns all that it holds.
unsafe impl Send for ClientHandle {}

impl ClientHandle {
    /// What C holds from now on.
    pub fn of_box(held: Box<Desk, Global>) -> ClientHandle
        ensures { result.desk ≡ Some held.value }
    {
        ClientHandle::of_parts(Parts::of(held))
    }

    /// What C held.
    pub fn into_box(self) -> Box<Desk, Global>
        requires { IsSome self.desk }
        ensures { self.desk ≡ Some result.value }
    {
        self.into_parts().into_box()
    }

    fn of_parts(parts: Parts<Desk, Global>) -> ClientHandle
        ensures { result.desk ≡ Some parts.value }
    {
        let Parts { ptr, alloc } = parts;
        ClientHandle {
            ptr: ptr as *mut u8,
            alloc,
        }
    }

    fn into_parts(self) -> Parts<Desk, Global>
        requires { IsSome self.desk }
        ensures { self.desk ≡ Some result.value }
    {
        let ClientHandle { ptr, alloc } = self;
        Parts {
            ptr: ptr as *mut Desk,
            alloc,
        }
    }
}
