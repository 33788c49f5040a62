//! The laws of the definitions.

ghost use Rattle.std.specs.Prelude.{◌≡◌, ◌≢◌, ℕ, ◌<◌, List, length};
ghost use Rattle.flow_graph.specs.Flow.{IsFlow};
ghost use Rattle.helpers.specs.Table.{Table};
ghost use Rattle.verifier.specs.declared.refusals.Refusal.{Refusal};
ghost use Rattle.verifier.specs.declared.refusals.Refusal.TheVariants.{NoMemory};
ghost use Rattle.verifier.specs.Checked.{Checked};
ghost use Rattle.verifier.specs.Refusals.{RefusesProgram, IsAccepted};
ghost use Rattle.verifier.specs.InStates.{Subject, InState, AreInStates, in_state};

/// Of a program that has a graph, `arrive` solves its equation: the entry state arrives at the
/// first slot, and elsewhere the join over all edges arrives.
pub fn in_states_are_joined()
    ensures { (p : Subject) (order : List ℕ) → IsFlow (record { code = p.code; order = order })
        → AreInStates p (in_state p) }
{}

/// And nothing else solves it.
pub fn in_states_are_unique()
    ensures { (p : Subject) (order : List ℕ) (other : ℕ → InState)
        → IsFlow (record { code = p.code; order = order }) → AreInStates p other →
        (s : ℕ) → s < length p.code → other s ≡ in_state p s }
{}

/// A program has one refusal at most, but for want of memory.
pub fn one_refusal()
    ensures { (need : ℕ) (bytes : List ℕ) (helpers : Table) (f g : Refusal)
        → RefusesProgram need bytes helpers f → RefusesProgram need bytes helpers g
        → f ≢ NoMemory → g ≢ NoMemory → f ≡ g }
{}

/// A program that is accepted is refused for want of memory alone.
pub fn nothing_refused()
    ensures { (need : ℕ) (bytes : List ℕ) (helpers : Table) (v : Checked) (f : Refusal)
        → IsAccepted need bytes helpers v
        → RefusesProgram need bytes helpers f → f ≡ NoMemory }
{}
