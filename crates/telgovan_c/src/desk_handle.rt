//! The handle of a desk.

ghost use Rattle.std.specs.Prelude.{◌≡◌, None, Some, is_some, option_map};

use crate::desk_held::HeldDesk;
use crate::parts::Parts;
use conversation::HostDesk;
use std::alloc::Global;

/// A desk that C holds, or none. All bytes 0 are a handle that holds none.
#[repr(C)]
pub struct DeskHandle {
    held: HeldDesk,
    made: bool,
    ghost tied: { made ≡ is_some held.kept },
}

impl DeskHandle {
    /// A handle that holds none.
    pub(crate) fn none(alloc: Global) -> DeskHandle
        ensures { result.held.kept ≡ None }
    {
        DeskHandle {
            held: HeldDesk::none(alloc),
            made: false,
        }
    }

    /// A handle that holds this box.
    pub(crate) fn of(desk: Box<HostDesk, Global>) -> DeskHandle
        ensures { result.held.kept ≡ Some desk.value }
    {
        DeskHandle {
            held: HeldDesk::of_parts(Parts::of(desk)),
            made: true,
        }
    }

    /// What the handle holds.
    pub(crate) fn into_box(self) -> Option<Box<HostDesk, Global>>
        ensures { option_map (λ b. b.value) result ≡ self.held.kept }
    {
        let DeskHandle { held, made } = self;
        if made {
            Some(held.into_parts().into_box())
        } else {
            held.leave();
            None
        }
    }
}

impl Drop for DeskHandle {
    fn drop(self) {
        drop(self.into_box());
    }
}
