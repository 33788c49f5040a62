//! One task, from its ticket to its outcome.

ghost use Rattle.std.specs.Prelude.{◌≡◌, ◌≤◌, ◌^◌, ◌<◌, ◌↔◌, Bool, true, IsTrue, IsSome, length, map};
ghost use Rattle.machine_model.specs.JobState.{entries_of};
ghost use Rattle.helpers.specs.Table.{job_table};
ghost use Rattle.verifier.specs.Checked.{program_of, IsVerified};
ghost use Rattle.job_core.specs.Admitted.{AreOwn};
ghost use Rattle.interpreter.specs.Representation.{zeroed};
ghost use Rattle.interpreter.specs.Children.{MayHandOver};
ghost use Rattle.virtual_machine.specs.Through.{GoesThrough};
ghost use Rattle.workers.specs.Heard.{HasHeard};
ghost use Rattle.workers.specs.Outcomes.{IsOutcome, IsRunBy, Suffices};

use crate::gate::{Gate, GateAndObserver};
use crate::gate_calls::{tell_after, tell_before};
use crate::outcome::{ObservedRun, not_run};
use credit_book::{Outcome, Ticket};
use helpers::{Entry, Spawner};
use interpreter::{Credit, Frame};
use machine_model::MAX_CREDIT;
use std::alloc::Global;
use verifier::Verified;
use virtual_machine::{Frames, Nobody, RunEnd, RunObserver, run_to_end};

/// What a spawn has to know of the program of this number, if the list has it. The call asks for at
/// most 65,536 programs.
pub fn entry_in(programs: &[Verified], program: u64) -> Option<Entry>
    requires { length programs.now ≤ 65536 }
    ensures entry { result ≡ entries_of (map program_of programs.now) program }
    ensures few { IsSome result → program < 2 ^ 16 }
{
    let code = programs.get(program as usize)?;
    let need = code.need();
    Some(Entry {
        cost: code.cost(),
        need,
    })
}

/// Whether the credit and the part of the ticket's task suffice for its program.
fn suffices(code: &Verified, ticket: &Ticket) -> bool
    ensures value { IsTrue result ↔ Suffices code.now ticket.now }
    ensures verified { IsVerified code.now }
{
    let need = code.need() as usize;
    code.cost() <= ticket.held() && ticket.held() <= MAX_CREDIT && need <= ticket.part().len()
}

/// Runs the ticket's task on a frame of zeros, and hands the spawner back.
fn run_ticket<'c, 's, 'g, S: Spawner, G: Gate + RunObserver>(
    frame: &mut Frame,
    task: (Ticket, &'c Verified, &'s mut S, &'g G, Global),
) -> (ObservedRun, &'s mut S)
    requires zeroed { frame.old ≡ zeroed }
    requires verified { IsVerified task.1.now }
    requires own { task.1.now.helpers ≡ job_table }
    requires suffices { Suffices task.1.now task.0 }
    requires children { (s : S) → S.entries s ≡ S.entries task.2.now
        → MayHandOver (S.entries task.2.now) task.0.held (S.asks s) }
    ensures alone { IsRunBy task.entry.1.now (S.entries task.entry.2.now) task.entry.0
        (λ asked. GoesThrough S.spawns task.entry.0.part.base task.entry.2.now asked result.1.now)
        result.0.outcome result.0.whole }
    ensures entries { S.entries result.1.now ≡ S.entries task.entry.2.now }
    ensures same { result.1.ghost_name ≡ task.entry.2.ghost_name }
    ensures heard { HasHeard G.begins G.ends task.entry.3.now task.entry.0.number }
{
    let (ticket, code, spawner, gate, alloc) = task;
    let (job, number) = (ticket.job(), ticket.number());
    let begun = tell_before(gate, number);
    frame.enter(ticket.part().len() as u32, ticket.arg());
    let mut credit = Credit {
        held: ticket.held(),
        used: 0,
    };
    let mut part = ticket.into_part();
    let RunEnd { r0, whole } = run_to_end(
        alloc,
        frame,
        code,
        &mut part,
        &mut credit,
        spawner,
        gate,
    );
    tell_after(gate, begun);
    let outcome = Outcome {
        job,
        number,
        used: credit.used,
        r0,
        ran: true,
        part,
    };
    (ObservedRun { outcome, whole }, spawner)
}

/// Runs the ticket's task to its end, by itself, on a frame of zeros, or not at all. Returns its
/// outcome, and whether it ran and no spawn of it was refused. The gate is told of a task that runs,
/// and how it goes on as well.
///
/// The task isn't run where no frame can be had, or where the list has no program of its number,
/// its credit is under the program's cost or over 2,147,483,647, or its part is shorter than the
/// program's need. The call asks for programs that may call a job's helpers alone, and for a
/// spawner that knows the programs of the list and takes each child which a task with so much
/// credit may hand over, whatever it has taken before.
pub(crate) fn work_observed<S: Spawner, G: Gate + RunObserver>(
    alloc: Global,
    ticket: Ticket,
    programs: &[Verified],
    spawner: &mut S,
    frames: &mut Frames,
    gate: &G,
) -> ObservedRun
    requires own { AreOwn programs.now }
    requires knows { S.entries spawner.old ≡ entries_of (map program_of programs.now) }
    requires children { (s : S) → S.entries s ≡ S.entries spawner.old
        → MayHandOver (S.entries spawner.old) ticket.held (S.asks s) }
    ensures outcome { IsOutcome programs.now ticket
        (λ asked. GoesThrough S.spawns ticket.part.base spawner.old asked spawner.new)
        (spawner.new ≡ spawner.old) result.outcome result.whole }
    ensures entries { S.entries spawner.new ≡ S.entries spawner.old }
    ensures heard { result.outcome.ran ≡ true
        → HasHeard G.begins G.ends gate.now ticket.number }
{
    let Some(code) = programs.get(ticket.program() as usize) else {
        return not_run(ticket);
    };
    if !suffices(code, &ticket) {
        return not_run(ticket);
    }
    match frames.with_frame(
        ticket.job(),
        (ticket, code, spawner, gate, alloc),
        run_ticket,
    ) {
        Ok((observed, back)) => {
            let _ = back;
            observed
        }
        Err((ticket, _, back, _, _)) => {
            let _ = back;
            not_run(ticket)
        }
    }
}

/// Runs the ticket's task to its end, by itself, on a frame of zeros, or not at all. The gate is
/// told of a task that runs.
///
/// The task isn't run where no frame can be had, or where the list has no program of its number,
/// its credit is under the program's cost or over 2,147,483,647, or its part is shorter than the
/// program's need. The call asks for programs that may call a job's helpers alone, and for a
/// spawner that knows the programs of the list and takes each child which a task with so much
/// credit may hand over, whatever it has taken before.
pub fn work_one<S: Spawner, G: Gate>(
    alloc: Global,
    ticket: Ticket,
    programs: &[Verified],
    spawner: &mut S,
    frames: &mut Frames,
    gate: &G,
) -> Outcome
    requires own { AreOwn programs.now }
    requires knows { S.entries spawner.old ≡ entries_of (map program_of programs.now) }
    requires children { (s : S) → S.entries s ≡ S.entries spawner.old
        → MayHandOver (S.entries spawner.old) ticket.held (S.asks s) }
    ensures outcome { (whole : Bool) × IsOutcome programs.now ticket
        (λ asked. GoesThrough S.spawns ticket.part.base spawner.old asked spawner.new)
        (spawner.new ≡ spawner.old) result whole }
    ensures entries { S.entries spawner.new ≡ S.entries spawner.old }
    ensures heard { result.ran ≡ true → HasHeard G.begins G.ends gate.now ticket.number }
{
    let gate_and_observer = GateAndObserver {
        gate,
        observer: &Nobody,
    };
    let ObservedRun { outcome, .. } = work_observed(
        alloc,
        ticket,
        programs,
        spawner,
        frames,
        &gate_and_observer,
    );
    outcome
}
