//! A desk's box as C holds it, or none.

ghost use Rattle.std.specs.Prelude.{◌≡◌, Option, IsSome, None, Some};
ghost use Rattle.conversation.specs.declared.host_desk.HostDesk.{HostDesk};
ghost use Rattle.telgovan_c.specs.DeskHolding.{desk_owns, desk_coded};

use crate::parts::Parts;
use conversation::HostDesk;
use std::alloc::Global;
use std::marker::Model;

/// What C holds of the box of a desk: its address, which is C's to carry and not to follow, or any
/// address where there is no box.
#[repr(C)]
pub struct HeldDesk {
    ptr: *mut u8,
    alloc: Global,
    pub ghost kept: { Option HostDesk } by { desk_coded },
}

impl Model for HeldDesk {
    ghost also_owns = { λ h. desk_owns h.alloc h.ptr h.kept };
}

impl HeldDesk {
    /// None.
    pub(crate) fn none(alloc: Global) -> HeldDesk
        ensures { result.kept ≡ None }
    {
        HeldDesk {
            ptr: std::ptr::null_mut(),
            alloc,
        }
    }

    /// This box, by its parts.
    pub(crate) fn of_parts(parts: Parts<HostDesk, Global>) -> HeldDesk
        ensures { result.kept ≡ Some parts.value }
    {
        let Parts { ptr, alloc } = parts;
        HeldDesk {
            ptr: ptr as *mut u8,
            alloc,
        }
    }

    /// The box's parts, where there is one.
    pub(crate) fn into_parts(self) -> Parts<HostDesk, Global>
        requires { IsSome self.kept }
        ensures { Some result.value ≡ self.kept }
    {
        let HeldDesk { ptr, alloc } = self;
        Parts {
            ptr: ptr as *mut HostDesk,
            alloc,
        }
    }

    /// Lets go of one with no box.
    pub(crate) fn leave(self)
        requires { self.kept ≡ None }
    {
        let HeldDesk { ptr: _, alloc: _ } = self;
    }
}

unsafe impl Send for HeldDesk {}
