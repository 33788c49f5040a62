//! The laws of a tree of tasks: whatever the schedule, it comes to one answer.

ghost use Rattle.std.specs.Prelude.{◌≡◌, ◌↔◌, ℕ, List, [], length, map, take, drop, slice_get, sum_by, Bool, Some, false};
ghost use Rattle.std.specs.List.Sorted.{IsPermutation};
ghost use Rattle.machine_model.specs.Machine.{Entries, Program, State};
ghost use Rattle.machine_model.specs.JobState.{Ended, Ending, JobState, Move, Task, start, step, run, AreTiles, IsComplete, spent_by};
ghost use Rattle.task_trees.specs.Families.{AreParents, GrowBy, HavePlaces};
ghost use Rattle.task_trees.specs.Solo.{SpawnRequest, IsGiven, RanAlone, Solo};
ghost use Rattle.task_trees.specs.Eval.{Eval, Finished, JobComes, SoloThenChildren};
ghost use Rattle.task_trees.specs.Answer.{HasAnswer, NoRefusals, PlaysToAnswer, RootComes, ended_in};

/// A task by itself, whose spawns are answered alike, comes to one end.
pub fn runs_once_alone()
    ensures { (p : Program) (entries : Entries) (s : State) (asked others : List SpawnRequest)
        (r0 r0' : ℕ)
        (last last' : State) →
        Solo p entries s asked r0 last → Solo p entries s others r0' last' →
        map (λ (a : SpawnRequest). a.refused) asked ≡ map (λ (a : SpawnRequest). a.refused) others →
        (asked ≡ others) × (r0 ≡ r0') × (last ≡ last') }
{}

/// What a task comes to with all that it spawns is one list.
pub fn evaluates_once()
    ensures { (programs : List Program) (t : Task) (bytes : List ℕ) (xs ys : List Finished) →
        Eval programs t bytes xs → Eval programs t bytes ys → xs ≡ ys }
{}

/// What a task comes to with all that it spawns is exactly what it comes to by itself, its spawns
/// all taken, and what each of its children comes to.
pub fn evaluates_by_itself_first()
    ensures { (programs : List Program) (t : Task) (bytes : List ℕ) (fs : List Finished)
        → t.size ≡ length bytes →
        Eval programs t bytes fs ↔ SoloThenChildren programs t bytes fs }
{}

/// A step whose spawn isn't refused leaves the ended tasks, joined with what the live ones come to,
/// as they were, but for their order.
pub fn steps_keep_answer()
    ensures forth { (programs : List Program) (j k : JobState) (n : ℕ) (xs : List Finished)
        → step programs j n false ≡ Some k →
        AreTiles j.tasks (length j.buffer) → JobComes programs j xs → (ys : List Finished)
        × JobComes programs k ys × IsPermutation xs ys }
    ensures back { (programs : List Program) (j k : JobState) (n : ℕ) (ys : List Finished)
        → step programs j n false ≡ Some k →
        AreTiles j.tasks (length j.buffer) → JobComes programs k ys → (xs : List Finished)
        × JobComes programs j xs × IsPermutation xs ys }
{}

/// A complete run in which no spawn was refused has the buffer, the credit spent and the R0s by
/// place that the root comes to by itself with all that it spawns.
pub fn one_answer()
    ensures { (programs : List Program) (credit : ℕ) (buffer : List ℕ) (moves : List Move)
        (last : JobState) →
        run programs (start credit buffer) moves ≡ Some last → NoRefusals moves → IsComplete last →
        (fs : List Finished) × RootComes programs credit buffer fs
        × HasAnswer (length buffer) last fs }
{}

/// Two complete runs of one job in which no spawn was refused have the same buffer, the same credit
/// spent, and the same tasks at the same places, whatever their schedules and numbers.
pub fn schedules_agree()
    ensures { (programs : List Program) (credit : ℕ) (buffer : List ℕ) (moves others : List Move)
        (last other : JobState) →
        run programs (start credit buffer) moves ≡ Some last → NoRefusals moves → IsComplete last →
        run programs (start credit buffer) others ≡ Some other → NoRefusals others
        → IsComplete other →
        (last.buffer ≡ other.buffer) × (sum_by spent_by last.tasks ≡ sum_by spent_by other.tasks)
        × IsPermutation (ended_in last.buffer last.tasks) (ended_in other.buffer other.tasks) }
{}

/// After each step, the places of the tasks are told by their parents: a spawn by task n adds n to
/// them.
pub fn keeps_parents()
    ensures start { (credit : ℕ) (buffer : List ℕ)
        → let j : JobState = start credit buffer in AreParents [] j.tasks }
    ensures step { (programs : List Program) (j k : JobState) (n : ℕ) (refuses : Bool)
        (parents : List ℕ) →
        step programs j n refuses ≡ Some k → AreParents parents j.tasks →
        (parents' : List ℕ) × GrowBy n j k parents parents' × AreParents parents' k.tasks }
{}

/// Over every schedule, no two tasks of a job have one place.
pub fn places_differ()
    ensures { (programs : List Program) (credit : ℕ) (buffer : List ℕ) (moves : List Move)
        (last : JobState) →
        run programs (start credit buffer) moves ≡ Some last → HavePlaces last }
{}

/// A run over a schedule is one that refuses nothing but spawns. Where it refuses none and its last
/// job is complete, that has the answer of the root.
pub fn plays_to_answer()
    ensures { (programs : List Program) (credit : ℕ) (buffer : List ℕ) (moves : List Move)
        (last : JobState) →
        run programs (start credit buffer) moves ≡ Some last →
        PlaysToAnswer programs credit buffer (map (λ (m : Move). m.number) moves) last }
{}

/// Where the credit and the buffer of a job suffice for its root: over every schedule, with
/// refusals or without, each ended task has the use and the R0 that it comes to by itself, on some
/// part that suffices for its program, under some answers.
pub fn each_ran_alone()
    ensures { (programs : List Program) (p : Program) (credit : ℕ) (buffer : List ℕ)
        (moves : List Move) (last : JobState) (n : ℕ) (e : Ending) →
        slice_get programs 0 ≡ Some p → IsGiven p credit buffer →
        run programs (start credit buffer) moves ≡ Some last
        → slice_get last.tasks n ≡ Some (Ended e) →
        RanAlone programs e (take e.size (drop e.base last.buffer)) }
{}
