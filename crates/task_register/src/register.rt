//! The register of a job's starts, which exists in proofs alone.

ghost use Rattle.std.specs.Prelude.{◌≡◌, ◌<◌, ◌∷◌, ◌++◌, [], length, slice_get, Some};
ghost use Rattle.task_register.specs.Rule.{AllKnown, EachIs, IsOpen, keeper_view, fresh_task, empty_register, task_seat, with_start, with_end, with_one_more};
ghost use Rattle.task_register.specs.Handing.{IsSeatOf, start_by, ended_with};
ghost use Rattle.task_register.specs.declared.seats.TaskStart.{TaskStart as StartOf};
ghost use Rattle.task_register.specs.declared.seats.TaskResult.{TaskResult as EndedOf};

use crate::seats::{
    EndRule, EndsTask, EntersChild, EntersRoot, FindsAll, JobId, KeepsTask, LeavesChild,
    LeavesFirst, LeavesTask, OneSeatATask, StartRule, TakesTask, TaskView,
};
use atomic_table::{Seat, Table};
use credit_book::{Outcome, Ticket};
use refusal::NoMemory;
use std::alloc::Global;
use std::marker::{Brand, Model, PhantomData};
use std::snapshot::Snapshot;

/// An empty register that has no name yet.
#[derive(Drop)]
pub struct NewTaskRegister {
    table: Table<(), TaskView, (), OneSeatATask, Global>,
    seat: Seat<(), TaskView>,
}

impl Model for NewTaskRegister {
    ghost use Rattle.std.specs.Prelude.{◌≡◌, []};
    ghost use Rattle.atomic_table.specs.Seated.{TableId};
    ghost use Rattle.task_register.specs.Rule.{first_keeper_view};

    ghost Value = { TableId };

    ghost view = { λ r. r.table.shared.table_id };

    ghost invariant = { λ r. (r.table.shared.table_id.words ≡ 1)
        × (r.seat.table_id ≡ r.table.shared.table_id) × (r.seat.me ≡ (first_keeper_view, [])) };
}

/// The register of one job. It lies under the job's lock. Contracts see it as the tasks that were
/// started and those that are over.
#[derive(Drop)]
pub struct TaskRegister<J: JobId> {
    table: Table<(), TaskView, (), OneSeatATask, Global>,
    seat: Seat<(), TaskView>,
    of: PhantomData<J>,
}

impl<J: JobId> Model for TaskRegister<J> {
    ghost use Rattle.std.specs.Prelude.{◌≡◌, [], slice_get, Some};
    ghost use Rattle.task_register.specs.Rule.{keeper_view, EachIs};
    ghost use Rattle.task_register.specs.Register.{RegisterModel};

    ghost Value = { RegisterModel };

    ghost view = { λ b. record { known = b.seat.me.0.known; waiting = b.seat.me.0.waiting } };

    ghost invariant = { λ b. (b.table.shared.table_id ≡ J.table)
        × (b.table.shared.table_id.words ≡ 1) × (b.seat.table_id ≡ J.table)
        × (b.seat.me ≡ (keeper_view b.seat.me.0.known b.seat.me.0.waiting, []))
        × (slice_get b.seat.me.0.known.starts 0 ≡ Some J.root)
        × EachIs J.runs b.seat.me.0.known.over };
}

/// The seat of one task, which goes with its ticket and its outcome. Contracts see it as the task.
#[derive(Drop)]
pub struct TaskSeat<J: JobId> {
    seat: Seat<(), TaskView>,
    of: PhantomData<J>,
}

impl<J: JobId> Model for TaskSeat<J> {
    ghost use Rattle.std.specs.Prelude.{◌≡◌, []};
    ghost use Rattle.task_register.specs.Rule.{task_seat};
    ghost use Rattle.task_register.specs.declared.seats.SeatedTask.{SeatedTask};

    ghost Value = { SeatedTask };

    ghost view = { λ t. t.seat.me.0.task };

    ghost invariant = { λ t. (t.seat.table_id ≡ J.table)
        × (t.seat.me ≡ (task_seat t.seat.me.0.task, [])) };
}

impl NewTaskRegister {
    /// An empty register. It may answer that there is no memory.
    pub fn new(alloc: Global) -> Result<NewTaskRegister, NoMemory> {
        match Table::of_words(alloc, &[0], &()) {
            Ok((table, seat)) => Ok(NewTaskRegister { table, seat }),
            Err(_) => Err(NoMemory),
        }
    }

    // Enters what the rule says as the root.
    fn begin_as<E: StartRule>(
        mut self,
    ) -> (
        Table<(), TaskView, (), OneSeatATask, Global>,
        Seat<(), TaskView>,
        Seat<(), TaskView>,
    )
        requires some { (b : StartOf) × E.enters b }
        ensures { (b : StartOf) × E.enters b × (result.0.shared.table_id ≡ self)
            × (result.0.shared.table_id.words ≡ 1) × (result.1.table_id ≡ self)
            × (result.2.table_id ≡ self)
            × (result.1.me ≡ (keeper_view (with_start empty_register b) [], []))
            × (result.2.me ≡ (task_seat (fresh_task 0 b), [])) }
    {
        let NewTaskRegister { table, seat } = self;
        let mut keeper = seat;
        table.shared.load::<EntersRoot<E>>(&mut keeper, 0);
        let root = table.shared.split_seat::<LeavesChild>(&mut keeper);
        (table, keeper, root)
    }

    /// The register under a name, with the seat of the root.
    pub fn named<J: JobId>(self) -> (TaskRegister<J>, TaskSeat<J>)
        requires { self ≡ J.table }
        ensures register { result.0
            ≡ record { known = with_start empty_register J.root; waiting = [] } }
        ensures root { result.1 ≡ fresh_task 0 J.root }
    {
        let (table, keeper, root) = self.begin_as::<RootOf<J>>();
        let starts = TaskRegister {
            table,
            seat: keeper,
            of: PhantomData,
        };
        let seat = TaskSeat {
            seat: root,
            of: PhantomData,
        };
        (starts, seat)
    }
}

/// Enters the root of the job.
struct RootOf<J: JobId> {
    of: PhantomData<J>,
}

impl<J: JobId> StartRule for RootOf<J> {
    ghost use Rattle.std.specs.Prelude.{◌≡◌};

    ghost enters = { λ b. b ≡ J.root };
}

impl<J: JobId> TaskRegister<J> {
    // Enters what the rule says as a child of the seat's task.
    fn add_child_as<E: StartRule>(
        &mut self,
        parent: TaskSeat<J>,
        child: &Ticket,
    ) -> (TaskSeat<J>, TaskSeat<J>)
        requires some { (b : StartOf) × E.enters b × (b.parent ≡ parent.number) }
        ensures { (b : StartOf) × E.enters b
            × (result.0 ≡ with_one_more parent b)
            × (result.1 ≡ fresh_task (length self.old.known.starts) b)
            × (self.new ≡ record self.old { known = with_start self.old.known b }) }
    {
        let _ = child;
        let TaskSeat { seat, of: _ } = parent;
        let table = &self.table;
        table.shared.join_seat::<TakesTask>(&mut self.seat, seat);
        table.shared.load::<EntersChild<E>>(&mut self.seat, 0);
        let child = table.shared.split_seat::<LeavesChild>(&mut self.seat);
        let parent = table.shared.split_seat::<LeavesTask>(&mut self.seat);
        (
            TaskSeat {
                seat: parent,
                of: PhantomData,
            },
            TaskSeat {
                seat: child,
                of: PhantomData,
            },
        )
    }

    // The seat's task is over, as the rule says.
    fn close_as<E: EndRule>(&mut self, seat: TaskSeat<J>, outcome: &Snapshot<Outcome>, whole: bool)
        requires some { (o : EndedOf) × E.ends o × (o.own ≡ seat) }
        requires runs { (o : EndedOf) → E.ends o → J.runs o }
        ensures { (o : EndedOf) × E.ends o × (o.own ≡ seat)
            × IsOpen self.old.known self.old.waiting seat
            × (self.new ≡ record self.old { known = with_end self.old.known o }) }
    {
        let _ = outcome;
        let _ = whole;
        let TaskSeat { seat, of: _ } = seat;
        let table = &self.table;
        table.shared.join_seat::<TakesTask>(&mut self.seat, seat);
        table.shared.load::<EndsTask<E>>(&mut self.seat, 0);
    }

    /// A child of the seat's task is started with what its ticket has, under the next number. The
    /// seat's own seat again, and that of the child.
    pub fn add_child(&mut self, parent: TaskSeat<J>, child: &Ticket) -> (TaskSeat<J>, TaskSeat<J>)
        requires next { child.now.number ≡ length self.old.known.starts }
        ensures parent { result.0 ≡ with_one_more parent (start_by parent.number child.now) }
        ensures child { IsSeatOf child.now result.1 }
        ensures register { self.new ≡ record self.old {
          known = with_start self.old.known (start_by parent.number child.now);
        } }
    {
        self.add_child_as::<Brand>(parent, child)
    }

    /// The seat's task, which is open, is over with this outcome, whole or not.
    pub fn close(&mut self, seat: TaskSeat<J>, outcome: &Snapshot<Outcome>, whole: bool)
        requires runs { J.runs (ended_with seat outcome.now.value whole) }
        ensures open { IsOpen self.old.known self.old.waiting seat }
        ensures over { self.new ≡ record self.old {
          known = with_end self.old.known (ended_with seat outcome.now.value whole);
        } }
    {
        self.close_as::<Brand>(seat, outcome, whole);
    }

    /// Keeps the seat of a task that waits, behind those that wait already.
    pub fn park(&mut self, seat: TaskSeat<J>)
        ensures { self.new ≡ record self.old { waiting = self.old.waiting ++ seat ∷ [] } }
    {
        let TaskSeat { seat, of: _ } = seat;
        let table = &self.table;
        table.shared.join_seat::<KeepsTask>(&mut self.seat, seat);
    }

    /// The seat of the task that has waited longest.
    pub fn claim(&mut self) -> TaskSeat<J>
        requires { 0 < length self.old.waiting }
        ensures first { self.old.waiting ≡ result ∷ self.new.waiting }
        ensures known { self.new.known ≡ self.old.known }
    {
        let table = &self.table;
        let seat = table.shared.split_seat::<LeavesFirst>(&mut self.seat);
        TaskSeat {
            seat,
            of: PhantomData,
        }
    }

    /// Each task that is over was started so, and has just these children.
    pub fn look(&mut self)
        ensures same { self.new ≡ self.old }
        ensures all { AllKnown self.old.known }
        ensures root { slice_get self.old.known.starts 0 ≡ Some J.root }
        ensures runs { EachIs J.runs self.old.known.over }
    {
        let table = &self.table;
        table.shared.load::<FindsAll>(&mut self.seat, 0);
    }
}
