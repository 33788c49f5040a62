//! Whole jobs, played in the caller's thread.

ghost use Rattle.std.specs.Prelude.{◌≡◌, ◌≤◌, ◌+◌, ◌<◌, length, slice_range, IfOk, IfSome, IfNone};
ghost use Rattle.job_core.specs.Admission.{IsWithinLimits};
ghost use Rattle.telgovan_c.specs.Jobs.{AreCutTo, AreWritten, IsJob, IsJobOf, RefusesNumbers, IsWithinNumbers, missing_report, played_report, refused_report, reported_task};

use job_core::{AdmitFault, ProgramBytes, Report, TaskEnd, admit, play_lowest};
use machine_model::{MAX_CREDIT, MAX_PART};
use refusal::NoMemory;
use std::alloc::Global;

// The code has no such piece.
const NO_SUCH_PIECE: u32 = 43;

/// A program of a job: the piece of the code that is its bytes, so many from `start` on, and the
/// bytes that each of its tasks needs of its part.
#[repr(C)]
#[derive(Clone, Copy)]
pub struct CodePiece {
    pub start: u64,
    pub length: u64,
    pub need: u32,
}

/// A task that ended: its number, its program's place, its argument, the credit that it was given,
/// how much of that it spent and returned, and R0 at its end.
#[repr(C)]
#[derive(Clone, Copy)]
pub struct ReportedTask {
    pub argument: u64,
    pub r0: u64,
    pub number: u32,
    pub program: u32,
    pub given: u32,
    pub spent: u32,
    pub returned: u32,
}

/// What a job came to: `status` is 0 where it was played, with the credit that it spent and
/// returned, and how many tasks it had. Otherwise `status` is the number of the refusal, `program`
/// the place of the program that it is about, if `has_program`, and `slot` where it stands in that,
/// if `has_slot`.
#[repr(C)]
#[derive(Clone, Copy)]
pub struct JobReport {
    pub tasks: u64,
    pub status: u32,
    pub spent: u32,
    pub returned: u32,
    pub program: u32,
    pub slot: u32,
    pub has_program: bool,
    pub has_slot: bool,
}

/// The report of a job that isn't admitted.
pub(crate) fn refused_report(fault: &AdmitFault) -> JobReport
    ensures { result ≡ refused_report fault.now }
{
    let program = fault.program();
    let slot = fault.slot();
    JobReport {
        tasks: 0,
        status: u32::from(fault.code()),
        spent: 0,
        returned: 0,
        program: program.unwrap_or(0),
        slot: slot.unwrap_or(0),
        has_program: program.is_some(),
        has_slot: slot.is_some(),
    }
}

/// The report of a job whose program of this place isn't in the code.
pub(crate) fn missing_report(place: u32) -> JobReport
    ensures { result ≡ missing_report place }
{
    JobReport {
        tasks: 0,
        status: NO_SUCH_PIECE,
        spent: 0,
        returned: 0,
        program: place,
        slot: 0,
        has_program: true,
        has_slot: false,
    }
}

// A task of the report, for C.
fn task_of(end: &TaskEnd) -> ReportedTask
    ensures { result ≡ reported_task end.now }
{
    ReportedTask {
        argument: end.arg,
        r0: end.r0,
        number: end.number,
        program: u32::from(end.program),
        given: end.given,
        spent: end.spent,
        returned: end.rest,
    }
}

// Writes as many of the tasks as there is room for.
fn write_tasks(ends: &[TaskEnd], tasks: &mut [ReportedTask])
    ensures { AreWritten ends.now tasks.old tasks.new }
{
    let mut done = 0;
    while done < tasks.len() {
        if done == ends.len() {
            return;
        }
        tasks[done] = task_of(&ends[done]);
        done += 1;
    }
}

// Writes what a job left of its buffer and its tasks.
fn write_report(report: &Report, buffer: &mut [u8], tasks: &mut [ReportedTask]) -> JobReport
    requires same { length report.now.buffer.items ≡ length buffer.old }
    ensures buffer { buffer.new ≡ report.now.buffer.items }
    ensures tasks { AreWritten report.now.tasks.items tasks.old tasks.new }
    ensures report { result ≡ played_report report.now }
{
    buffer.copy_from_slice(&report.buffer);
    write_tasks(&report.tasks, tasks);
    JobReport {
        tasks: report.tasks.len() as u64,
        status: 0,
        spent: report.spent,
        returned: report.returned,
        program: 0,
        slot: 0,
        has_program: false,
        has_slot: false,
    }
}

/// Why a job with so many programs, this credit and so many bytes is refused, whatever they are.
pub(crate) fn over_limits(count: usize, credit: u32, size: usize) -> Option<AdmitFault>
    ensures some { IfSome result (λ fault. RefusesNumbers count credit size fault) }
    ensures none { IfNone result (IsWithinNumbers count credit size) }
{
    if count == 0 {
        return Some(AdmitFault::NoPrograms);
    }
    if count > 16 {
        return Some(AdmitFault::TooManyPrograms);
    }
    if credit > MAX_CREDIT || size > MAX_PART {
        return Some(AdmitFault::TooLarge);
    }
    None
}

// The bytes of a piece, if the code has it.
fn piece_in<'a>(code: &'a [u8], piece: &CodePiece) -> Option<&'a [u8]>
    ensures some { IfSome result (λ bytes. (piece.now.start + piece.now.length ≤ length code.now)
        × (bytes.now ≡ slice_range code.now piece.now.start (piece.now.start + piece.now.length))) }
    ensures none { IfNone result (length code.now < piece.now.start + piece.now.length) }
{
    let size = code.len() as u64;
    if piece.start > size || piece.length > size - piece.start {
        return None;
    }
    let start = piece.start as usize;
    let end = (piece.start + piece.length) as usize;
    Some(&code[start..end])
}

/// The same bytes, in memory of their own.
pub(crate) fn copied(alloc: Global, bytes: &[u8]) -> Result<Vec<u8>, NoMemory>
    ensures { IfOk result (λ copy. copy.items ≡ bytes.now) }
{
    let mut copy = Vec::new(alloc);
    copy.extend_from_slice(bytes)?;
    Ok(copy)
}

/// The programs of the pieces, up to the first that the code doesn't have.
pub(crate) fn cut(
    alloc: Global,
    code: &[u8],
    pieces: &[CodePiece],
) -> Result<Vec<ProgramBytes>, NoMemory>
    ensures { IfOk result (λ programs. AreCutTo code.now pieces.now programs.items) }
{
    let mut programs = Vec::new(alloc);
    for piece in pieces {
        let Some(bytes) = piece_in(code, piece) else {
            return Ok(programs);
        };
        let code = copied(alloc, bytes)?;
        programs.push(ProgramBytes {
            need: piece.need,
            code,
        })?;
    }
    Ok(programs)
}

// A job of these programs, admitted and played on the buffer.
fn play_programs(
    alloc: Global,
    programs: &[ProgramBytes],
    credit: u32,
    buffer: &mut [u8],
    tasks: &mut [ReportedTask],
) -> JobReport
    requires limits { IsWithinLimits programs.now credit buffer.old }
    ensures { IsJobOf programs.now credit buffer.old buffer.new tasks.old tasks.new result }
{
    let Ok(own) = copied(alloc, buffer) else {
        return refused_report(&AdmitFault::NoMemory);
    };
    match admit(alloc, programs, credit, own) {
        Ok(job) => match play_lowest(alloc, job) {
            Ok(report) => write_report(&report, buffer, tasks),
            Err(_) => refused_report(&AdmitFault::NoMemory),
        },
        Err(fault) => refused_report(&fault),
    }
}

// A job of the programs that these pieces of the code are, where the numbers are within their
// limits.
fn play_within(
    alloc: Global,
    code: &[u8],
    pieces: &[CodePiece],
    credit: u32,
    buffer: &mut [u8],
    tasks: &mut [ReportedTask],
) -> JobReport
    requires limits { IsWithinNumbers (length pieces.now) credit (length buffer.old) }
    ensures { IsJob code.now pieces.now credit buffer.old buffer.new tasks.old tasks.new result }
{
    match cut(alloc, code, pieces) {
        Ok(programs) => {
            if programs.len() < pieces.len() {
                return missing_report(programs.len() as u32);
            }
            play_programs(alloc, &programs, credit, buffer, tasks)
        }
        Err(_) => refused_report(&AdmitFault::NoMemory),
    }
}

// A job of the programs that these pieces of the code are.
fn play_pieces(
    alloc: Global,
    code: &[u8],
    pieces: &[CodePiece],
    credit: u32,
    buffer: &mut [u8],
    tasks: &mut [ReportedTask],
) -> JobReport
    ensures { IsJob code.now pieces.now credit buffer.old buffer.new tasks.old tasks.new result }
{
    match over_limits(pieces.len(), credit, buffer.len()) {
        Some(fault) => refused_report(&fault),
        None => play_within(alloc, code, pieces, credit, buffer, tasks),
    }
}

/// Admits a job of the programs that these pieces of the code are, of which the first is the
/// root's, and plays it to its end on the buffer, in place: always the live task of lowest number
/// next. It writes as many of its tasks as there is room for, in order of their numbers, and
/// answers the report's status.
///
/// The refusals, of which the first that applies comes, and which leave the buffer and the tasks as
/// they were: 61 there is no piece, 62 there are over 16, 65 the credit is over 2,147,483,647 or
/// the buffer has over 65,536 bytes; 43 a piece isn't in the code, with its place; the first
/// refusal of a program, with its place and its slot; 63 the credit is under the root's cost, 64
/// the buffer is shorter than its need. 99 may come behind the first three.
#[unsafe(no_mangle)]
pub extern "C" fn telgovan_job(
    alloc: Global,
    code: &[u8],
    pieces: &[CodePiece],
    credit: u32,
    buffer: &mut [u8],
    tasks: &mut [ReportedTask],
    report: &mut JobReport,
) -> u32
    ensures job { IsJob code.now pieces.now credit buffer.old buffer.new tasks.old tasks.new
        report.new }
    ensures status { result ≡ report.new.status }
{
    *report = play_pieces(alloc, code, pieces, credit, buffer, tasks);
    report.status
}
