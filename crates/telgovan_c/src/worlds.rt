//! Jobs under way that C holds between calls, and runs task by task.

ghost use Rattle.std.specs.Prelude.{◌≡◌, None};
ghost use Rattle.telgovan_c.specs.Worlds.{HasRun, IsBufferGiven, IsBufferTold, IsOpened, IsOpenedFrom, IsRunTold, TellsWorld, came_number, no_step, opened_report, r0_at_end, world_in};

use crate::admitting::{CutJob, admit_pieces};
use crate::jobs::{CodePiece, JobReport, refused_report};
use crate::programs::sendable;
use crate::texts::{Written, refused_text, write_into};
use crate::world_handle::WorldHandle;
use job_core::{AdmitFault, Job, Stepped, World};
use std::alloc::Global;
use std::mem::replace;

// The handle holds no job.
const NO_JOB: u32 = 41;
// A growth was refused.
const NO_MEMORY: u32 = 99;

// What a run of a task came to.
const SKIPPED: u32 = 0;

const WENT: u32 = 1;

const ENDED: u32 = 2;

/// What a run of a task came to, and how the job stands behind it. `came_to` is 0 where the task
/// isn't alive, 1 where it goes on, and 2 where it has ended, with R0; `count` is how many
/// instructions ran. `tasks` is how many tasks there are. `held` is the credit of the live ones,
/// `returned` and `spent` that of the ended ones, and `used` what all have used. `is_complete` says
/// that no task is alive. Where `status` isn't 0 nothing happened.
#[repr(C)]
#[derive(Clone, Copy)]
pub struct WorldStep {
    pub r0: u64,
    pub status: u32,
    pub came_to: u32,
    pub count: u32,
    pub tasks: u32,
    pub held: u32,
    pub returned: u32,
    pub spent: u32,
    pub used: u32,
    pub is_complete: bool,
}

// The report of a job at its start, which has one task.
fn opened_report() -> JobReport
    ensures { result ≡ opened_report }
{
    JobReport {
        tasks: 1,
        status: 0,
        spent: 0,
        returned: 0,
        program: 0,
        slot: 0,
        has_program: false,
        has_slot: false,
    }
}

// Nothing happened, since there is no job.
fn no_step() -> WorldStep
    ensures { result ≡ no_step }
{
    WorldStep {
        r0: 0,
        status: NO_JOB,
        came_to: SKIPPED,
        count: 0,
        tasks: 0,
        held: 0,
        returned: 0,
        spent: 0,
        used: 0,
        is_complete: false,
    }
}

// The number of what a run came to.
fn came_number(came: Stepped) -> u32
    ensures { result ≡ came_number came }
{
    match came {
        Stepped::Skipped => SKIPPED,
        Stepped::Went => WENT,
        Stepped::Ended(_) => ENDED,
    }
}

// R0 of a task that has ended, else 0.
fn r0_at_end(came: Stepped) -> u64
    ensures { result ≡ r0_at_end came }
{
    match came {
        Stepped::Skipped => 0,
        Stepped::Went => 0,
        Stepped::Ended(r0) => r0,
    }
}

// Lets the handle hold a job at its start, in place of the one that it held.
fn open_job(alloc: Global, job: Job, world: &mut WorldHandle) -> JobReport
    ensures { IsOpened job (world_in world.old) (world_in world.new) result }
{
    let Ok(opened) = World::open(alloc, job) else {
        return refused_report(&AdmitFault::NoMemory);
    };
    match Box::new(alloc, opened) {
        Ok(boxed) => {
            *world = sendable(WorldHandle::of(boxed));
            opened_report()
        }
        Err(_) => refused_report(&AdmitFault::NoMemory),
    }
}

// Lets the handle hold a job of these pieces at its start, or tells the refusal.
fn open_pieces(
    alloc: Global,
    code: &[u8],
    pieces: &[CodePiece],
    credit: u32,
    buffer: &[u8],
    world: &mut WorldHandle,
) -> JobReport
    ensures { IsOpenedFrom code.now pieces.now credit buffer.now (world_in world.old)
        (world_in world.new) result }
{
    match admit_pieces(alloc, code, pieces, credit, buffer) {
        Ok(found) => {
            let CutJob { job, .. } = found;
            open_job(alloc, job, world)
        }
        Err(told) => told,
    }
}

// What a run came to, and how the job stands.
fn told_of(world: &World, count: u32, came: Stepped) -> WorldStep
    ensures came { result.came_to ≡ came_number came }
    ensures r0 { result.r0 ≡ r0_at_end came }
    ensures count { result.count ≡ count }
    ensures status { result.status ≡ 0 }
    ensures world { TellsWorld world.now result }
{
    let totals = world.totals();
    WorldStep {
        r0: r0_at_end(came),
        status: 0,
        came_to: came_number(came),
        count,
        tasks: world.len(),
        held: totals.held,
        returned: totals.returned,
        spent: totals.spent,
        used: totals.used,
        is_complete: world.is_complete(),
    }
}

// Runs a task of a job.
fn run_task(alloc: Global, world: &mut World, number: u32, limit: u32) -> WorldStep
    ensures { HasRun world.old number limit world.new result }
{
    let (count, came) = world.run(alloc, number, limit);
    told_of(world, count, came)
}

// Runs a task of what the handle holds, and gives the handle back.
fn run_held(alloc: Global, world: WorldHandle, number: u32, limit: u32) -> (WorldHandle, WorldStep)
    ensures { IsRunTold (world_in world) number limit (world_in result.0) result.1 }
{
    match world.into_box() {
        Some(mut boxed) => {
            let told = run_task(alloc, &mut boxed, number, limit);
            (WorldHandle::of(boxed), told)
        }
        None => (WorldHandle::none(alloc), no_step()),
    }
}

// Writes the buffer of a job as it is now.
fn write_buffer(alloc: Global, world: &World, room: &mut [u8]) -> Written
    ensures { IsBufferTold world.now room.old room.new result }
{
    match world.buffer(alloc) {
        Ok(buffer) => write_into(&buffer, room),
        Err(_) => refused_text(NO_MEMORY, None),
    }
}

// Writes the buffer of what the handle holds, and gives the handle back.
fn buffer_held(alloc: Global, world: WorldHandle, room: &mut [u8]) -> (WorldHandle, Written)
    ensures told { IsBufferGiven (world_in world) room.old room.new result.1 }
    ensures same { world_in result.0 ≡ world_in world }
{
    match world.into_box() {
        Some(boxed) => {
            let told = write_buffer(alloc, &boxed, room);
            (WorldHandle::of(boxed), told)
        }
        None => (WorldHandle::none(alloc), refused_text(NO_JOB, None)),
    }
}

/// Admits a job of the programs that these pieces of the code are, of which the first is the
/// root's, and lets the handle hold it at its start, in place of the job that it held: its root
/// alone, with all of the credit, on a copy of the buffer. It answers the report's status. Where
/// that isn't 0, which is as by `telgovan_job`, the handle holds what it held.
#[unsafe(no_mangle)]
pub extern "C" fn telgovan_world_open(
    alloc: Global,
    code: &[u8],
    pieces: &[CodePiece],
    credit: u32,
    buffer: &[u8],
    world: &mut WorldHandle,
    report: &mut JobReport,
) -> u32
    ensures opened { IsOpenedFrom code.now pieces.now credit buffer.now (world_in world.old)
        (world_in world.new) report.new }
    ensures status { result ≡ report.new.status }
{
    *report = open_pieces(alloc, code, pieces, credit, buffer, world);
    report.status
}

/// Runs a task of the job that the handle holds on from its next instruction: `limit` instructions
/// at most, or until it ends. It tells what that came to, and how the job stands then, also where
/// the task isn't alive or the limit is 0. It answers the status: 0, or 41 where the handle holds
/// no job.
#[unsafe(no_mangle)]
pub extern "C" fn telgovan_world_run(
    alloc: Global,
    world: &mut WorldHandle,
    number: u32,
    limit: u32,
    step: &mut WorldStep,
) -> u32
    ensures run { IsRunTold (world_in world.old) number limit (world_in world.new) step.new }
    ensures status { result ≡ step.new.status }
{
    let taken = replace(world, WorldHandle::none(alloc));
    let (kept, told) = run_held(alloc, taken, number, limit);
    *world = kept;
    *step = told;
    step.status
}

/// Writes the buffer of the job that the handle holds, as it is now: what ended tasks left, and the
/// parts of the live ones. It answers the status: 41 where the handle holds no job, 65 where the
/// buffer doesn't fit, with the length that it takes, 99, or 0.
#[unsafe(no_mangle)]
pub extern "C" fn telgovan_world_buffer(
    alloc: Global,
    world: &mut WorldHandle,
    room: &mut [u8],
    told: &mut Written,
) -> u32
    ensures told { IsBufferGiven (world_in world.old) room.old room.new told.new }
    ensures same { world_in world.new ≡ world_in world.old }
    ensures status { result ≡ told.new.status }
{
    let taken = replace(world, WorldHandle::none(alloc));
    let (kept, written) = buffer_held(alloc, taken, room);
    *world = kept;
    *told = written;
    told.status
}

/// Lets go of the job that the handle holds, with all of its tasks. The handle holds none from then
/// on.
#[unsafe(no_mangle)]
pub extern "C" fn telgovan_world_drop(alloc: Global, world: &mut WorldHandle)
    ensures { world_in world.new ≡ None }
{
    *world = WorldHandle::none(alloc);
}
