//! Jobs that C ran for a desk, and what they came to.

ghost use Rattle.std.specs.Prelude.{◌≡◌, ◌≤◌, IfOk, IfErr, map};
ghost use Rattle.telgovan_c.specs.Desks.{desk_in};
ghost use Rattle.telgovan_c.specs.Finishing.{FinishesJob, IsFinishedBy, IsJobOutcome, RefusesEnds, RefusesTold, task_end_of};

use crate::desk_handle::DeskHandle;
use crate::jobs::{JobReport, ReportedTask};
use conversation::HostDesk;
use credit_book::{Report, TaskEnd};
use std::alloc::Global;
use std::mem::replace;

// The handle holds no desk.
const NO_DESK: u32 = 41;
// A number over its limit.
const OVER_LIMIT: u32 = 65;
// A growth was refused.
const NO_MEMORY: u32 = 99;

// A task that C tells. Each counts as run.
fn end_of(task: &ReportedTask) -> TaskEnd
    requires { task.now.program ≤ 65535 }
    ensures { result ≡ task_end_of task.now }
{
    TaskEnd {
        number: task.number,
        program: task.program as u16,
        arg: task.argument,
        given: task.given,
        spent: task.spent,
        rest: task.returned,
        r0: task.r0,
        ran: true,
    }
}

// The tasks that C tells.
fn ends_of(alloc: Global, tasks: &[ReportedTask]) -> Result<Vec<TaskEnd>, u32>
    ensures ok { IfOk result (λ ends. ends.items ≡ map task_end_of tasks.now) }
    ensures err { IfErr result (λ status. RefusesEnds tasks.now status) }
{
    let mut ends = Vec::new(alloc);
    for task in tasks {
        if task.program > 65535 {
            return Err(OVER_LIMIT);
        }
        if ends.push(end_of(task)).is_err() {
            return Err(NO_MEMORY);
        }
    }
    Ok(ends)
}

// The report of a job that was played, as C tells it.
fn report_of(
    alloc: Global,
    report: &JobReport,
    buffer: &[u8],
    tasks: &[ReportedTask],
) -> Result<Report, u32>
    ensures ok { IfOk result (λ told. (told.spent ≡ report.now.spent)
        × (told.returned ≡ report.now.returned) × (told.buffer.items ≡ buffer.now)
        × (told.tasks.items ≡ map task_end_of tasks.now)) }
    ensures err { IfErr result (λ status. RefusesEnds tasks.now status) }
{
    let tasks = ends_of(alloc, tasks)?;
    let mut own = Vec::new(alloc);
    if own.extend_from_slice(buffer).is_err() {
        return Err(NO_MEMORY);
    }
    Ok(Report {
        spent: report.spent,
        returned: report.returned,
        buffer: own,
        tasks,
    })
}

// What a job came to, as C tells it: its report, or the number of what it failed by.
fn outcome_of(
    alloc: Global,
    report: &JobReport,
    buffer: &[u8],
    tasks: &[ReportedTask],
) -> Result<Result<Report, u8>, u32>
    ensures ok { IfOk result (λ outcome. IsJobOutcome report.now buffer.now tasks.now outcome) }
    ensures err { IfErr result (λ status. RefusesTold report.now tasks.now status) }
{
    if report.status == 0 {
        return match report_of(alloc, report, buffer, tasks) {
            Ok(report) => Ok(Ok(report)),
            Err(status) => Err(status),
        };
    }
    if report.status > 255 {
        return Err(OVER_LIMIT);
    }
    Ok(Err(report.status as u8))
}

// Ends a job at a desk with what it came to.
fn finish_at(desk: &mut HostDesk, job: u64, outcome: Result<Report, u8>) -> u32
    ensures { IsFinishedBy desk.old job outcome desk.new result }
{
    match desk.finish(job, outcome) {
        Ok(()) => 0,
        Err(fault) => u32::from(fault.code()),
    }
}

// Ends a job of what the handle holds, and gives the handle back.
fn finish_held(
    alloc: Global,
    desk: DeskHandle,
    job: u64,
    report: &JobReport,
    buffer: &[u8],
    tasks: &[ReportedTask],
) -> (DeskHandle, u32)
    ensures { FinishesJob (desk_in desk) job report.now buffer.now tasks.now (desk_in result.0)
        result.1 }
{
    match desk.into_box() {
        Some(mut desk) => match outcome_of(alloc, report, buffer, tasks) {
            Ok(outcome) => {
                let status = finish_at(&mut desk, job, outcome);
                (DeskHandle::of(desk), status)
            }
            Err(status) => (DeskHandle::of(desk), status),
        },
        None => (DeskHandle::none(alloc), NO_DESK),
    }
}

/// Ends a job that was handed over, with its report, its buffer and its tasks; or, where the
/// report's status isn't 0, by that number. It answers 0; or 76 where no job of this number was
/// handed over and is open, 65 where the status is over 255 or the place of a task's program over
/// 65,535, 41 where the handle holds no desk, or 99. After a refusal nothing changed.
#[unsafe(no_mangle)]
pub extern "C" fn telgovan_desk_finish(
    alloc: Global,
    desk: &mut DeskHandle,
    job: u64,
    report: &JobReport,
    buffer: &[u8],
    tasks: &[ReportedTask],
) -> u32
    ensures { FinishesJob (desk_in desk.old) job report.now buffer.now tasks.now (desk_in desk.new)
        result }
{
    let taken = replace(desk, DeskHandle::none(alloc));
    let (kept, status) = finish_held(alloc, taken, job, report, buffer, tasks);
    *desk = kept;
    status
}
