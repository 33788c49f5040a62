//! What the definitions mean: credit is conserved, parts tile the buffer, and steps follow edges.

ghost use Rattle.std.specs.Prelude.{◌≡◌, ℕ, List, length, Bool, Some};
ghost use Rattle.machine_model.specs.Following.{FollowsEdge};
ghost use Rattle.machine_model.specs.Machine.{Entries, Program, State, effect};
ghost use Rattle.machine_model.specs.JobState.{JobState, Move, run, step, credit_of, AreTiles};

/// Over every schedule, the credit that is held, returned and spent is what was there at the start.
pub fn conserves_credit()
    ensures { (programs : List Program) (j k : JobState) (moves : List Move)
        → run programs j moves ≡ Some k →
        credit_of k ≡ credit_of j }
{}

/// The ranges of the tasks, live and ended, tile the buffer after each step from a job where they
/// do, and the buffer is as long as before.
pub fn keeps_tiling()
    ensures tiles { (programs : List Program) (j k : JobState) (n : ℕ) (refuses : Bool)
        → step programs j n refuses ≡ Some k →
        AreTiles j.tasks (length j.buffer) → AreTiles k.tasks (length k.buffer) }
    ensures size { (programs : List Program) (j k : JobState) (n : ℕ) (refuses : Bool)
        → step programs j n refuses ≡ Some k →
        AreTiles j.tasks (length j.buffer) → length k.buffer ≡ length j.buffer }
{}

/// Where an instruction doesn't end its task, the task goes on at the end of one of the
/// instruction's edges.
pub fn steps_follow_edges()
    ensures { (p : Program) (entries : Entries) (s : State)
        → FollowsEdge p.code s.slot (effect p entries s) }
{}
