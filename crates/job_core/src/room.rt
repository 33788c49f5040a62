//! The memory that live tasks' parts take.

ghost use Rattle.std.specs.Prelude.{◌≡◌};
ghost use Rattle.job_core.specs.Rooms.{room_of};

use crate::live::Live;

/// For how many bytes a part has room, if the task is alive.
pub fn room_of(live: &Option<Live>) -> Option<usize>
    ensures { result ≡ room_of live.now }
{
    match live {
        Some(live) => Some(live.part().room()),
        None => None,
    }
}
