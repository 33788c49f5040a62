//! What a gate is told of one task: that it begins, and then, once, that it has ended.

ghost use Rattle.std.specs.Prelude.{◌≡◌};

use crate::gate::Gate;

/// A task that a gate was told is about to run, whose end it has yet to be told. Its type isn't
/// `Drop`: it goes by [`tell_after`] alone.
pub(crate) struct Begun {
    number: u32,
}

/// Tells the gate that the task of this number is about to run.
pub(crate) fn tell_before<G: Gate>(gate: &G, number: u32) -> Begun
    ensures begun { G.begins gate.now number }
    ensures number { result.number ≡ number }
{
    gate.before(number);
    Begun { number }
}

/// Tells the gate that this task has ended.
pub(crate) fn tell_after<G: Gate>(gate: &G, begun: Begun)
    ensures { G.ends gate.now begun.number }
{
    let Begun { number } = begun;
    gate.after(number);
}
