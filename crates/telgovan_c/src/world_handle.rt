//! The handle of a job under way.

ghost use Rattle.std.specs.Prelude.{◌≡◌, None, Some, is_some, option_map};

use crate::parts::Parts;
use crate::world_held::HeldWorld;
use job_core::World;
use std::alloc::Global;

/// A job under way that C holds, or none. All bytes 0 are a handle that holds none.
#[repr(C)]
pub struct WorldHandle {
    held: HeldWorld,
    opened: bool,
    ghost tied: { opened ≡ is_some held.kept },
}

impl WorldHandle {
    /// A handle that holds none.
    pub(crate) fn none(alloc: Global) -> WorldHandle
        ensures { result.held.kept ≡ None }
    {
        WorldHandle {
            held: HeldWorld::none(alloc),
            opened: false,
        }
    }

    /// A handle that holds this box.
    pub(crate) fn of(world: Box<World, Global>) -> WorldHandle
        ensures { result.held.kept ≡ Some world.value }
    {
        WorldHandle {
            held: HeldWorld::of_parts(Parts::of(world)),
            opened: true,
        }
    }

    /// What the handle holds.
    pub(crate) fn into_box(self) -> Option<Box<World, Global>>
        ensures { option_map (λ b. b.value) result ≡ self.held.kept }
    {
        let WorldHandle { held, opened } = self;
        if opened {
            Some(held.into_parts().into_box())
        } else {
            held.leave();
            None
        }
    }
}

impl Drop for WorldHandle {
    fn drop(self) {
        drop(self.into_box());
    }
}
