//! A task that C holds between calls.

ghost use Rattle.std.specs.Prelude.{◌≡◌, None, Some, option_map};

use crate::boxed::Boxed;
use crate::program_handle::ProgramHandle;
use std::alloc::Global;

/// A task that C holds, or none. All bytes 0 are a handle that holds none.
#[repr(C)]
#[derive(Drop)]
pub struct TaskHandle {
    handle: ProgramHandle,
}

impl TaskHandle {
    /// A handle that holds none.
    pub(crate) fn none(alloc: Global) -> TaskHandle
        ensures { result.handle.held.kept ≡ None }
    {
        TaskHandle {
            handle: ProgramHandle::none(alloc),
        }
    }

    /// A handle that holds this box.
    pub(crate) fn of(boxed: Box<Boxed, Global>) -> TaskHandle
        ensures { result.handle.held.kept ≡ Some boxed.value }
    {
        TaskHandle {
            handle: ProgramHandle::of(boxed),
        }
    }

    /// What the handle holds.
    pub(crate) fn into_box(self) -> Option<Box<Boxed, Global>>
        ensures { option_map (λ b. b.value) result ≡ self.handle.held.kept }
    {
        let TaskHandle { handle } = self;
        handle.into_box()
    }
}
