//! The laws of a register whose tasks are all over, and of tasks that agree from parent to child.

ghost use Rattle.std.specs.Prelude.{◌≡◌, ◌==◌, ℕ, List, [], ◌∷◌, ◌++◌, length, map, true};
ghost use Rattle.std.specs.List.{count_by};
ghost use Rattle.credit_book.specs.declared.event.Event.{Event};
ghost use Rattle.credit_book.specs.declared.event.Event.TheVariants.{Spawn, Park, Claim, End};
ghost use Rattle.credit_book.specs.History.{IsComplete, May, is_alive, standing_at, table_of};
ghost use Rattle.task_register.specs.declared.seats.TaskStart.{TaskStart};
ghost use Rattle.task_register.specs.declared.seats.TaskResult.{TaskResult};
ghost use Rattle.task_register.specs.Rule.{with_start, with_end};
ghost use Rattle.job_answer.specs.Agreement.{RegisterAgrees};
ghost use Rattle.machine_model.specs.Machine.{Entries, Program, State};
ghost use Rattle.task_register.specs.declared.seats.RegisterState.{RegisterState};
ghost use Rattle.job_answer.specs.Gathered.{IsGathered, GatheredTree, GivesAnswer, numbers_to, root_start};
ghost use Rattle.job_answer.specs.Closing.{ClosesJob};
ghost use Rattle.job_answer.specs.OneAnswer.{AllRan, HasOneAnswer, IsJobAnswer, IsPaidFor, IsWholeRun, RunsOrNot, TellsAnswer, row_of_end};
ghost use Rattle.credit_book.specs.declared.book.Report.{Report as ReportOf};
ghost use Rattle.task_trees.specs.Solo.{Solo, SpawnRequest};
ghost use Rattle.virtual_machine.specs.Through.{GoesThrough};
ghost use Rattle.task_register.specs.declared.seats.SeatedTask.{SeatedTask};
ghost use Rattle.job_answer.specs.Children.{AddsEachChild, HasAdded};
ghost use Rattle.std.specs.List.Sorted.{IsPermutation};
ghost use Rattle.task_trees.specs.Eval.{Finished};
ghost use Rattle.task_trees.specs.Answer.{RootComes, joined_bytes, spent_in};
ghost use Rattle.job_answer.specs.SpawnTree.{IsSpawnTree, LeavesCredit, NoneRefused, TaskRun, finished_run};

use helpers::Spawner;

/// The tasks of a register, all over, each of which ran by itself on what it was started with, and
/// whose children are what it handed over, agree from parent to child. Where none of them was
/// refused a spawn, they are the one answer.
pub fn gathers()
    ensures { (programs : List Program) (credit : ℕ) (buffer : List ℕ) (known : RegisterState) →
        IsGathered programs credit buffer known → (f : GatheredTree programs credit buffer known)
        × (NoneRefused f.tasks → GivesAnswer programs credit buffer known f.tasks) }
{}

/// Whatever a spawner goes through while a task runs by itself: the seat that it has knows just the
/// children that the task was given, in order.
pub fn seats_know_children<S: Spawner>()
    ensures { (own : S → SeatedTask) → AddsEachChild own S.spawns →
        (base : ℕ) (old new : S) (asked : List SpawnRequest) → GoesThrough S.spawns base old asked new
        → HasAdded base (own old) asked (own new) }
{}

/// What a task that runs by itself holds at its end, with the credit of its children, is what it was
/// given, and it spent no more than it holds. So each task that is over was paid for.
pub fn credit_is_kept()
    ensures alone { (program : Program) (entries : Entries) (s last : State) (asked : List SpawnRequest)
        (r0 : ℕ) → Solo program entries s asked r0 last → LeavesCredit s.held asked last }
    ensures paid { (programs : List Program) (o : TaskResult) → RunsOrNot programs o → IsPaidFor o }
{}

/// A register under a job's lock, beside its book: they agree after each event, and once no task is
/// alive each is over, once.
pub fn registers_agree()
    ensures spawn { (known : RegisterState) (history : List Event)
        (parent child program share arg base len : ℕ) (b : TaskStart) → RegisterAgrees known history →
        May (table_of history) (Spawn parent child program share arg base len) →
        b.parent ≡ parent → b.program ≡ program → b.share ≡ share → b.arg ≡ arg →
        RegisterAgrees (with_start known b) (history ++ Spawn parent child program share arg base len ∷ []) }
    ensures park { (known : RegisterState) (history : List Event) (n : ℕ) → RegisterAgrees known history →
        May (table_of history) (Park n) → RegisterAgrees known (history ++ Park n ∷ []) }
    ensures claim { (known : RegisterState) (history : List Event) (n : ℕ) → RegisterAgrees known history →
        is_alive (standing_at (table_of history) n).stage ≡ true
        → RegisterAgrees known (history ++ Claim n ∷ []) }
    ensures end { (known : RegisterState) (history : List Event) (o : TaskResult)
        → RegisterAgrees known history →
        May (table_of history) (End o.own.number o.used o.r0 o.ran o.base o.bytes) →
        RegisterAgrees (with_end known o)
        (history ++ End o.own.number o.used o.r0 o.ran o.base o.bytes ∷ []) }
    ensures once { (known : RegisterState) (history : List Event) → RegisterAgrees known history
        → IsComplete (table_of history) → (n : ℕ)
        → count_by (λ (o : TaskResult). o.own.number == n) known.over
        ≡ count_by (λ (k : ℕ). k == n) (numbers_to (length known.starts)) }
{}

/// Tasks that agree from parent to child, none of which was refused a spawn, are what the root
/// comes to, in some order.
pub fn spawn_trees_come()
    ensures { (programs : List Program) (credit : ℕ) (buffer : List ℕ) (parents : List ℕ)
        (tasks : List TaskRun) →
        IsSpawnTree programs credit buffer parents tasks → NoneRefused tasks → (fs : List Finished)
        × RootComes programs credit buffer fs × IsPermutation (map finished_run tasks) fs }
{}

/// The same, and the bytes that they left, joined in whatever order, are those of the root's
/// answer, as is the credit that they spent.
pub fn spawn_trees_answer()
    ensures { (programs : List Program) (credit : ℕ) (buffer : List ℕ) (parents : List ℕ)
        (tasks : List TaskRun) (ended : List Finished) →
        IsSpawnTree programs credit buffer parents tasks → NoneRefused tasks →
        IsPermutation ended (map finished_run tasks) → (fs : List Finished)
        × RootComes programs credit buffer fs × IsPermutation (map finished_run tasks) fs
        × (joined_bytes (length buffer) ended ≡ joined_bytes (length buffer) fs)
        × (spent_in ended ≡ spent_in fs) }
{}

/// What a job closes to is the one answer, where each task ran and no spawn was refused.
pub fn closes_to_answer()
    ensures { (programs : List Program) (job credit : ℕ) (buffer : List ℕ) (report : ReportOf) →
        ClosesJob job credit (length buffer) (root_start credit buffer) (RunsOrNot programs) report
        → AllRan report → HasOneAnswer programs credit buffer report }
{}

/// What a job closes to is its one answer, where each task is whole.
pub fn closes_to_whole_answer()
    ensures { (programs : List Program) (job credit : ℕ) (buffer : List ℕ) (report : ReportOf) →
        ClosesJob job credit (length buffer) (root_start credit buffer)
        (λ (o : TaskResult). RunsOrNot programs o × IsWholeRun o) report
        → IsJobAnswer programs credit buffer report }
{}

/// A job has one answer: what its root comes to. So two answers of it have one buffer, one sum and
/// the same tasks, each once, and whatever gives what the root comes to gives this answer.
pub fn answers_are_one()
    ensures comes { (programs : List Program) (credit : ℕ) (buffer : List ℕ) (report : ReportOf) →
        IsJobAnswer programs credit buffer report → (fs : List Finished)
        × RootComes programs credit buffer fs × TellsAnswer (length buffer) report fs }
    ensures is { (programs : List Program) (credit : ℕ) (buffer : List ℕ) (report : ReportOf)
        (fs : List Finished) → IsJobAnswer programs credit buffer report
        → RootComes programs credit buffer fs → TellsAnswer (length buffer) report fs }
    ensures same { (programs : List Program) (credit : ℕ) (buffer : List ℕ) (a b : ReportOf) →
        IsJobAnswer programs credit buffer a → IsJobAnswer programs credit buffer b →
        (a.buffer.items ≡ b.buffer.items) × (a.spent ≡ b.spent)
        × IsPermutation (map row_of_end a.tasks.items) (map row_of_end b.tasks.items) }
{}
