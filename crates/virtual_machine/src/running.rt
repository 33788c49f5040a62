//! One task, from its entry to its end.

ghost use Rattle.std.specs.Prelude.{◌≡◌, ℕ, ◌≤◌};
ghost use Rattle.machine_model.specs.Value.{Registers};
ghost use Rattle.helpers.specs.Table.{job_table};
ghost use Rattle.verifier.specs.Checked.{program_of};
ghost use Rattle.interpreter.specs.Representation.{RepresentsTask, IsCovered, at_slot, state_of};
ghost use Rattle.interpreter.specs.Children.{MayHandOver};
ghost use Rattle.virtual_machine.specs.Through.{GoesThrough, RunsAlone, whole_after};

use crate::observing::RunObserver;
use helpers::{Part, Spawner};
use interpreter::{ControlPoint, Credit, Frame};
use std::alloc::Global;
use verifier::Verified;

/// How many instructions a task runs at most until its observer is told.
const STRETCH: usize = 256;

/// The end of a run: R0, and whether no spawn of it was refused for want of memory.
#[derive(Clone, Copy, Debug, PartialEq, Eq)]
pub struct RunEnd {
    pub r0: u64,
    pub whole: bool,
}

/// A run that was `whole` stays so behind an instruction, but for a spawn that was `refused`.
fn is_whole_after(refused: bool, whole: bool) -> bool
    ensures { result ≡ whole_after refused whole }
{
    if refused { false } else { whole }
}

/// Runs a task from slot 0 to its end, whatever the frame's own slot is. Returns R0, and whether
/// no spawn of the run was refused for want of memory. Whatever task the frame represents, what
/// happens is the run of that task by itself, whose spawns the spawner answered one after the other.
/// The observer is told of each stretch.
///
/// The call asks for a program that may call a job's helpers alone, and for a spawner that takes
/// each child which a task with so much credit may hand over, whatever it has taken before.
pub fn run_to_end<S: Spawner, L: RunObserver>(
    alloc: Global,
    frame: &mut Frame,
    code: &Verified,
    part: &mut Part,
    credit: &mut Credit,
    spawner: &mut S,
    observer: &L,
) -> RunEnd
    requires own { code.now.helpers ≡ job_table }
    requires covered { IsCovered code.now (at_slot frame.old 0) part.old credit.old }
    requires children { (s : S) → S.entries s ≡ S.entries spawner.old
        → MayHandOver (S.entries spawner.old) credit.old.held (S.asks s) }
    ensures alone { (registers : Registers)
        → RepresentsTask code.now (at_slot frame.old 0) registers →
        RunsAlone (program_of code.now) (S.entries spawner.old)
        (state_of (at_slot frame.old 0) part.old credit.old registers)
        (λ asked. GoesThrough S.spawns part.old.base spawner.old asked spawner.new) result.r0
        credit.new.used part.new.bytes result.whole }
    ensures base { part.new.base ≡ part.old.base }
    ensures entries { S.entries spawner.new ≡ S.entries spawner.old }
{
    let mut slot = 0;
    let mut whole = true;
    loop {
        let ran = frame.run_at(alloc, code, slot, STRETCH, part, credit, spawner);
        observer.pause();
        whole = is_whole_after(ran.refused, whole);
        match ran.next {
            ControlPoint::At(next) => slot = next,
            ControlPoint::Ended(r0) => return RunEnd { r0, whole },
        }
    }
}
