//! The bytes of live tasks in the job's buffer.

ghost use Rattle.std.specs.Prelude.{◌≡◌, ◌+◌, ◌≤◌, ℕ, length, slice_get, Some};
ghost use Rattle.job_core.specs.Filled.{filled_buffer};
ghost use Rattle.job_core.specs.declared.live.Live.{Live};

use crate::live::Live;

/// Copies each live part to where it lies.
pub fn fill(buffer: &mut Vec<u8>, lives: &[Option<Live>])
    requires { (n : ℕ) (live : Live) → slice_get lives.now n ≡ Some (Some live) →
        live.part.base + length live.part.bytes ≤ length buffer.old.items }
    ensures { buffer.new.items ≡ filled_buffer lives.now buffer.old.items }
{
    for live in lives {
        if let Some(live) = live {
            live.part().copy_to(buffer);
        }
    }
}
