//! What C holds of a service.
ghost use Rattle.std.specs.Prelude.{◌≡◌, Some, IsSome};
ghost use Rattle.fulwethi_service.specs.HeldService.{Held, held_coded, held_owns};
ghost use Rattle.fulwethi_service.specs.Served.{HoldsOf};

use c_parts::Parts;
use live_segment::Live;
use std::alloc::Global;
use std::marker::{Model, Send};

/// A pointer, which owns a service or nothing. In C it has the pointer alone, and one of zeros owns nothing.
#[repr(C)]
#[derive(Drop)]
pub struct ServiceHandle {
    ptr: *mut u8,
    alloc: Global,
    pub ghost live: { Held } by { held_coded },
}

impl Model for ServiceHandle {
    ghost also_owns = { λ h. held_owns h.alloc h.ptr h.live };
}

// C may hand it to another thread: it owns all that it holds.
unsafe impl Send for ServiceHandle {}

impl ServiceHandle {
    /// What C holds from now on.
    pub fn of_box(held: Box<Live, Global>) -> ServiceHandle
        ensures owns { result.live ≡ Some held.value }
        ensures holds { HoldsOf held.value }
    {
        holds_of(&held);
        ServiceHandle::of_parts(Parts::of(held))
    }

    /// What C held.
    pub fn into_box(self) -> Box<Live, Global>
        requires { IsSome self.live }
        ensures { self.live ≡ Some result.value }
    {
        self.into_parts().into_box()
    }

    fn of_parts(parts: Parts<Live, Global>) -> ServiceHandle
        ensures { result.live ≡ Some parts.value }
    {
        let Parts { ptr, alloc } = parts;
        ServiceHandle {
            ptr: ptr as *mut u8,
            alloc,
        }
    }

    fn into_parts(self) -> Parts<Live, Global>
        requires { IsSome self.live }
        ensures { self.live ≡ Some result.value }
    {
        let ServiceHandle { ptr, alloc } = self;
        Parts {
            ptr: ptr as *mut Live,
            alloc,
        }
    }
}

// What holds of its record, for the clauses: it does nothing.
fn holds_of(live: &Live)
    ensures { HoldsOf live.now }
{
    live.laws();
}
