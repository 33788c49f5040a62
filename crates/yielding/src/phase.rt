//! Where a task stands between two pieces of its run.

ghost use Rattle.std.specs.Prelude.{◌≡◌};
ghost use Rattle.yielding.specs.Standing.{has_ended, phase_after, waits};

use crate::event::PieceEnd;

/// Where a task stands between two pieces of its run.
#[derive(Clone, Copy, Debug, PartialEq, Eq)]
pub enum Phase {
    /// It goes on with its next instruction.
    Ready,
    /// It waits for the answer to a call of a helper of the host's.
    Waits,
    /// It has ended.
    Ended,
}

/// Whether the task waits for an answer.
pub(crate) fn waits(phase: Phase) -> bool
    ensures { result ≡ waits phase }
{
    match phase {
        Phase::Ready => false,
        Phase::Waits => true,
        Phase::Ended => false,
    }
}

/// Whether the task has ended.
pub(crate) fn has_ended(phase: Phase) -> bool
    ensures { result ≡ has_ended phase }
{
    match phase {
        Phase::Ready => false,
        Phase::Waits => false,
        Phase::Ended => true,
    }
}

/// Where a task stands after a piece that ended so.
pub(crate) fn phase_after(event: &PieceEnd) -> Phase
    ensures { result ≡ phase_after event.now }
{
    match event {
        PieceEnd::AtLimit => Phase::Ready,
        PieceEnd::Asks(_) => Phase::Waits,
        PieceEnd::Ended(_) => Phase::Ended,
    }
}
