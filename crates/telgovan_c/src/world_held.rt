//! The box of a job under way, as C holds it, or none.

ghost use Rattle.std.specs.Prelude.{◌≡◌, Option, IsSome, None, Some};
ghost use Rattle.job_core.specs.Representation.{WorldState};
ghost use Rattle.telgovan_c.specs.WorldHolding.{world_owns, world_coded};

use crate::parts::Parts;
use job_core::World;
use std::alloc::Global;
use std::marker::Model;

/// What C holds of the box of a job: its address, which is C's to carry and not to follow, or any
/// address where there is no box.
#[repr(C)]
pub struct HeldWorld {
    ptr: *mut u8,
    alloc: Global,
    pub ghost kept: { Option WorldState } by { world_coded },
}

impl Model for HeldWorld {
    ghost also_owns = { λ h. world_owns h.alloc h.ptr h.kept };
}

impl HeldWorld {
    /// None.
    pub(crate) fn none(alloc: Global) -> HeldWorld
        ensures { result.kept ≡ None }
    {
        HeldWorld {
            ptr: std::ptr::null_mut(),
            alloc,
        }
    }

    /// This box, by its parts.
    pub(crate) fn of_parts(parts: Parts<World, Global>) -> HeldWorld
        ensures { result.kept ≡ Some parts.value }
    {
        let Parts { ptr, alloc } = parts;
        HeldWorld {
            ptr: ptr as *mut u8,
            alloc,
        }
    }

    /// The box's parts, where there is one.
    pub(crate) fn into_parts(self) -> Parts<World, Global>
        requires { IsSome self.kept }
        ensures { Some result.value ≡ self.kept }
    {
        let HeldWorld { ptr, alloc } = self;
        Parts {
            ptr: ptr as *mut World,
            alloc,
        }
    }

    /// Lets go of one with no box.
    pub(crate) fn leave(self)
        requires { self.kept ≡ None }
    {
        let HeldWorld { ptr: _, alloc: _ } = self;
    }
}

unsafe impl Send for HeldWorld {}
