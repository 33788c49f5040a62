//! Tasks that C holds between calls, which stop where they ask their host.

ghost use Rattle.std.specs.Prelude.{◌≡◌, ◌≤◌, None, Some, length, option_map};
ghost use Rattle.std.specs.Arc.{arc_value};
ghost use Rattle.telgovan_c.specs.Programs.{held_program};
ghost use Rattle.telgovan_c.specs.Tasks.{IsResumed, IsBegun, event_told, refused_event, held_task, boxed_task};

use crate::boxed::Boxed;
use crate::program_handle::ProgramHandle;
use crate::programs::sendable;
use crate::task_handle::TaskHandle;
use machine_model::{MAX_CREDIT, MAX_PART};
use std::alloc::Global;
use std::mem::replace;
use yielding::{HostedTask, PieceEnd};

// The handle holds no program.
const NO_PROGRAM: u32 = 41;
// The handle holds no task that goes on.
const NO_TASK: u32 = 47;
// A number over its limit.
const OVER_LIMIT: u32 = 65;
// A growth was refused.
const NO_MEMORY: u32 = 99;

// The kinds of event.
const AT_LIMIT: u32 = 0;

const ASKS: u32 = 1;

const ENDED: u32 = 2;

/// Why a piece of a task's run ended: `kind` is 0 where as many instructions ran as may, 1 where
/// the task waits for the answer of a helper, with its arguments, and 2 where it has ended, with
/// R0. `used` is what it has used of its credit. Where `status` isn't 0 nothing happened.
#[repr(C)]
#[derive(Clone, Copy)]
pub struct TaskEvent {
    pub r0: u64,
    pub arguments: [u64; 5],
    pub status: u32,
    pub kind: u32,
    pub helper: u32,
    pub used: u32,
}

// Nothing happened, for the refusal of this number.
fn refused_event(number: u32) -> TaskEvent
    ensures { result ≡ refused_event number }
{
    TaskEvent {
        r0: 0,
        arguments: [0; 5],
        status: number,
        kind: AT_LIMIT,
        helper: 0,
        used: 0,
    }
}

// What C is told of an event.
fn event_told(event: PieceEnd, used: u32) -> TaskEvent
    ensures { result ≡ event_told event used }
{
    match event {
        PieceEnd::AtLimit => TaskEvent {
            r0: 0,
            arguments: [0; 5],
            status: 0,
            kind: AT_LIMIT,
            helper: 0,
            used,
        },
        PieceEnd::Asks(question) => {
            let arguments = question.arguments;
            TaskEvent {
                r0: 0,
                arguments,
                status: 0,
                kind: ASKS,
                helper: question.helper,
                used,
            }
        }
        PieceEnd::Ended(r0) => TaskEvent {
            r0,
            arguments: [0; 5],
            status: 0,
            kind: ENDED,
            helper: 0,
            used,
        },
    }
}

// Lets the handle hold a task of the box's program, in place of the one that it held.
fn start_boxed(
    alloc: Global,
    boxed: &Boxed,
    credit: u32,
    argument: u64,
    length: usize,
    task: &mut TaskHandle,
) -> u32
    ensures { IsBegun (Some (arc_value boxed.now.program)) argument credit length
        (held_task task.old) (held_task task.new) result }
{
    if credit > MAX_CREDIT || length > MAX_PART {
        return OVER_LIMIT;
    }
    let Ok(owner) = boxed.owner() else {
        return NO_MEMORY;
    };
    match HostedTask::start(owner, credit, argument, length) {
        Ok(started) => match boxed.running(alloc, started) {
            Ok(running) => {
                *task = sendable(TaskHandle::of(running));
                0
            }
            Err(_) => NO_MEMORY,
        },
        Err(fault) => u32::from(fault.code()),
    }
}

// Lets another handle hold a task of the program, and gives the program's handle back.
fn start_held(
    alloc: Global,
    program: ProgramHandle,
    credit: u32,
    argument: u64,
    length: usize,
    task: &mut TaskHandle,
) -> (ProgramHandle, u32)
    ensures begun { IsBegun (held_program program) argument credit length (held_task task.old)
        (held_task task.new) result.1 }
    ensures same { held_program result.0 ≡ held_program program }
{
    match program.into_box() {
        Some(boxed) => {
            let status = start_boxed(alloc, &boxed, credit, argument, length, task);
            (ProgramHandle::of(boxed), status)
        }
        None => (ProgramHandle::none(alloc), NO_PROGRAM),
    }
}

// Goes on with a task.
fn go_task(task: &mut HostedTask, answer: u64, memory: &mut [u8], limit: u32) -> TaskEvent
    ensures { IsResumed (Some task.old) answer limit memory.old memory.new (Some task.new) result }
{
    match task.go(answer, memory, limit) {
        Ok(event) => event_told(event, task.used()),
        Err(fault) => refused_event(u32::from(fault.code())),
    }
}

// Goes on with the box's task, if it has one.
fn go_boxed(boxed: &mut Boxed, answer: u64, memory: &mut [u8], limit: u32) -> TaskEvent
    ensures gone { IsResumed (boxed_task boxed.old) answer limit memory.old memory.new
        (boxed_task boxed.new) result }
{
    match &mut boxed.task {
        Some(task) => go_task(task, answer, memory, limit),
        None => refused_event(NO_TASK),
    }
}

// Goes on with what the handle holds, and gives the handle back.
fn go_held(
    alloc: Global,
    task: TaskHandle,
    answer: u64,
    memory: &mut [u8],
    limit: u32,
) -> (TaskHandle, TaskEvent)
    ensures { IsResumed (held_task task) answer limit memory.old memory.new (held_task result.0)
        result.1 }
{
    match task.into_box() {
        Some(mut boxed) => {
            let told = go_boxed(&mut boxed, answer, memory, limit);
            (TaskHandle::of(boxed), told)
        }
        None => (TaskHandle::none(alloc), refused_event(NO_TASK)),
    }
}

/// Starts a task of the program that the first handle holds, with this credit and this argument, on
/// a memory of so many bytes, and lets the second handle hold it in place of the one that it held.
/// Nothing runs yet. It answers 0; or 41 where there is no program, 65 where the length is over
/// 65,536 or the credit is over 2,147,483,647, 42 where the credit is under the cost, 43 where the
/// length is under the need, or 99, after which the second handle holds what it held.
#[unsafe(no_mangle)]
pub extern "C" fn telgovan_task_start(
    alloc: Global,
    program: &mut ProgramHandle,
    credit: u32,
    argument: u64,
    length: usize,
    task: &mut TaskHandle,
) -> u32
    ensures begun { IsBegun (held_program program.old) argument credit length (held_task task.old)
        (held_task task.new) result }
    ensures same { held_program program.new ≡ held_program program.old }
{
    let taken = replace(program, ProgramHandle::none(alloc));
    let (kept, status) = start_held(alloc, taken, credit, argument, length, task);
    *program = kept;
    status
}

/// Goes on with the task that the handle holds. Where it waits for an answer it gets this one. Then
/// `limit` instructions run at most, until one ends the task or asks for a helper of the host's. It
/// answers the event's status: 47 where the handle holds no task, or its task has ended, 43 where
/// the memory has another length than at the start, or 0.
#[unsafe(no_mangle)]
pub extern "C" fn telgovan_task_go(
    alloc: Global,
    task: &mut TaskHandle,
    answer: u64,
    memory: &mut [u8],
    limit: u32,
    event: &mut TaskEvent,
) -> u32
    ensures gone { IsResumed (held_task task.old) answer limit memory.old memory.new
        (held_task task.new) event.new }
    ensures status { result ≡ event.new.status }
{
    let taken = replace(task, TaskHandle::none(alloc));
    let (kept, told) = go_held(alloc, taken, answer, memory, limit);
    *task = kept;
    *event = told;
    event.status
}

/// Lets go of the task that the handle holds. The handle holds none from then on.
#[unsafe(no_mangle)]
pub extern "C" fn telgovan_task_drop(alloc: Global, task: &mut TaskHandle)
    ensures { held_task task.new ≡ None }
{
    *task = TaskHandle::none(alloc);
}
