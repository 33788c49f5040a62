//! What a stretch of instructions stopped at.

ghost use Rattle.yielding.specs.Stops.{IsStopOf};

use interpreter::Pause;

/// The first id of a helper of the host's.
const FIRST_OF_HOST: u32 = 64;

/// What a stretch stopped at: its limit, or an instruction that the task runs without its host, or
/// a call of a helper of the host's.
#[derive(Clone, Copy)]
pub(crate) enum Stop {
    AtLimit,
    ByItself,
    Asks(u32),
}

/// What a stretch stopped at that ended so.
#[inline(always)]
pub(crate) fn stop_of(pause: Pause) -> Stop
    ensures { IsStopOf pause result }
{
    match pause {
        Pause::AtLimit => Stop::AtLimit,
        Pause::Exits => Stop::ByItself,
        Pause::Calls(helper, _) => {
            if helper < FIRST_OF_HOST {
                return Stop::ByItself;
            }
            Stop::Asks(helper)
        }
    }
}
