//! What each seat of a register of starts knows, and the kinds of step.

use atomic_table::{Join, Play, Split, TableRule};
use std::collections::LinkedList;
use std::marker::{Brand, PhantomData};

/// What a task was started with, and the number of its parent. No value of it is made.
pub struct TaskStart {
    pub parent: u32,
    pub program: u16,
    pub share: u32,
    pub arg: u64,
    pub base: usize,
    pub bytes: LinkedList<u8>,
}

/// A task: its number, what it was started with, and the children that it has so far, in order. No
/// value of it is made.
pub struct SeatedTask {
    pub number: u32,
    pub birth: TaskStart,
    pub children: LinkedList<TaskStart>,
}

/// A task that is over: what it used, R0, whether it ran, whether it is whole, and where it left
/// which bytes. A whole one ran, and none of its spawns was refused. No value of it is made.
pub struct TaskResult {
    pub own: SeatedTask,
    pub used: u32,
    pub r0: u64,
    pub ran: bool,
    pub whole: bool,
    pub base: usize,
    pub bytes: LinkedList<u8>,
}

/// All tasks that were started, by number, and those that are over, in the order of their ends. No
/// value of it is made.
pub struct RegisterState {
    pub starts: LinkedList<TaskStart>,
    pub over: LinkedList<TaskResult>,
}

/// What a seat knows. No value of it is made.
///
/// The keeper knows all that was started and all that is over, and the seat of a task that task.
/// For the time of a step the keeper is the seat of a task too, and of a child of it. It keeps the
/// seats of tasks that wait, in order.
pub struct TaskView {
    pub is_keeper: bool,
    pub known: RegisterState,
    pub is_task: bool,
    pub task: SeatedTask,
    pub has_child: bool,
    pub child: SeatedTask,
    pub waiting: LinkedList<SeatedTask>,
}

/// Names one job: the table of its register, its board, what its root is started with, and what
/// holds of each task that is over. Each call of a program picks it.
pub trait JobId {
    ghost use Rattle.atomic_table.specs.Seated.{TableId};
    ghost use Rattle.credit_book.specs.Boards.{Sign};
    ghost use Rattle.task_register.specs.declared.seats.TaskStart.{TaskStart};
    ghost use Rattle.task_register.specs.declared.seats.TaskResult.{TaskResult};

    ghost table: { TableId };

    ghost board: { Sign };

    ghost root: { TaskStart };

    ghost runs: { TaskResult → Type 0 };
}

impl JobId for Brand {
    ghost use Rattle.task_register.specs.Rule.{no_task_table, no_start};

    ghost table = { no_task_table };

    ghost board = { record { table = no_task_table; job = 0; issued = 0 } };

    ghost root = { no_start };

    ghost runs = { λ _. Unit {0} };
}

/// Each task has one seat, which knows all its children.
pub struct OneSeatATask;

impl TableRule<(), TaskView, ()> for OneSeatATask {
    ghost use Rattle.task_register.specs.Rule.{IsTaskRegister, first_keeper_view};

    ghost holds = { λ _ s. IsTaskRegister s.views };

    ghost first = { λ _. first_keeper_view };
}

/// The keeper takes in the seat of a task.
pub struct TakesTask;

impl Join<TaskView> for TakesTask {
    ghost use Rattle.task_register.specs.Rule.{with_task, empty_task_view};

    ghost both = { with_task };

    ghost spent = { empty_task_view };
}

/// The keeper gives the seat of a task away.
pub struct LeavesTask;

impl Split<TaskView> for LeavesTask {
    ghost use Rattle.task_register.specs.Rule.{without_task, only_task};

    ghost left = { without_task };

    ghost right = { only_task };
}

/// The keeper takes in the seat of a task that waits, behind those that wait already.
pub struct KeepsTask;

impl Join<TaskView> for KeepsTask {
    ghost use Rattle.task_register.specs.Rule.{with_waiting, empty_task_view};

    ghost both = { with_waiting };

    ghost spent = { empty_task_view };
}

/// The keeper gives the seat of the task away that has waited longest.
pub struct LeavesFirst;

impl Split<TaskView> for LeavesFirst {
    ghost use Rattle.task_register.specs.Rule.{without_first_waiting, only_first};

    ghost left = { without_first_waiting };

    ghost right = { only_first };
}

/// The keeper gives the seat of a new child away.
pub struct LeavesChild;

impl Split<TaskView> for LeavesChild {
    ghost use Rattle.task_register.specs.Rule.{without_child, only_child};

    ghost left = { without_child };

    ghost right = { only_child };
}

/// Says what a step may enter. Each call picks it.
pub trait StartRule {
    ghost use Rattle.task_register.specs.declared.seats.TaskStart.{TaskStart};

    ghost enters: { TaskStart → Type 0 };
}

impl StartRule for Brand {
    ghost enters = { λ _. Unit {0} };
}

/// Says what an end may be. Each call picks it.
pub trait EndRule {
    ghost use Rattle.task_register.specs.declared.seats.TaskResult.{TaskResult};

    ghost ends: { TaskResult → Type 0 };
}

impl EndRule for Brand {
    ghost ends = { λ _. Unit {0} };
}

/// The keeper enters the root, where nothing was started so far.
pub struct EntersRoot<E: StartRule> {
    of: PhantomData<E>,
}

impl<E: StartRule> Play<(), TaskView> for EntersRoot<E> {
    ghost use Rattle.task_register.specs.Rule.{BeginsJob};

    ghost then = { BeginsJob E.enters };
}

/// The keeper enters a child of the task that it is the seat of.
pub struct EntersChild<E: StartRule> {
    of: PhantomData<E>,
}

impl<E: StartRule> Play<(), TaskView> for EntersChild<E> {
    ghost use Rattle.task_register.specs.Rule.{AddsChild};

    ghost then = { AddsChild E.enters };
}

/// The task that the keeper is the seat of is over.
pub struct EndsTask<E: EndRule> {
    of: PhantomData<E>,
}

impl<E: EndRule> Play<(), TaskView> for EndsTask<E> {
    ghost use Rattle.task_register.specs.Rule.{ClosesTask};

    ghost then = { ClosesTask E.ends };
}

/// The keeper finds what each task that is over was started with, and all its children.
pub struct FindsAll;

impl Play<(), TaskView> for FindsAll {
    ghost use Rattle.task_register.specs.Rule.{KnowsAll};

    ghost then = { KnowsAll };
}
