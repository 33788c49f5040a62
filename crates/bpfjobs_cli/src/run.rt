//! Jobs that are run on threads.

ghost use Rattle.std.specs.Prelude.{◌≡◌, ◌≤◌, IfOk, None};
ghost use Rattle.bpfjobs_cli.specs.Printed.{Prints, reply_line};
ghost use Rattle.sessions.specs.Replies.{result_data};
ghost use Rattle.bpfjobs_cli.specs.Runs.{IsWatched, PrintsRun};

use crate::answer::{Answer, answer_failure, answer_reply};
use crate::declined::read_job;
use crate::run_watch::RunWatch;
use credit_book::Report;
use refusal::NoMemory;
use sessions::Reply;
use std::alloc::Global;
use std::sync::Wait;
use std::thread::Threads;
use workers::{OpenGate, run_whole};

// The number of a job that nobody else sees.
const NUMBER: u64 = 0;

// The report of a job, as the reply.
fn answer_report(alloc: Global, report: &Report) -> Result<Answer, NoMemory>
    ensures { IfOk result (λ answer. Prints answer.text.items answer.status answer.code
        (reply_line
        (result_data report.now.buffer.items report.now.returned report.now.spent
        report.now.tasks.items)) 0 None) }
{
    let result = Reply::Result {
        buffer: &report.buffer,
        returned: report.returned,
        spent: report.spent,
        tasks: &report.tasks,
    };
    answer_reply(alloc, &result, 0)
}

/// The one answer of the job that the input says, which so many threads run, 1 to 16; or the refusal:
/// 99 where there is no memory for it. Either is a reply. It returns if its waits do.
pub fn answer_run<R: Threads + Wait + Sync>(
    rt: &R,
    alloc: Global,
    workers: u32,
    input: &[u8],
) -> Result<Answer, NoMemory>
    requires { (1 ≤ workers) × (workers ≤ 16) }
    ensures { IfOk result (λ answer. PrintsRun input.now answer.text.items answer.status answer.code) }
{
    answer_watched(rt, alloc, workers, input, &OpenGate)
}

/// The same, of a run that is watched. The watch was given the board of a job that has a report.
pub fn answer_watched<R: Threads + Wait + Sync, W: RunWatch + Sync>(
    rt: &R,
    alloc: Global,
    workers: u32,
    input: &[u8],
    watch: &W,
) -> Result<Answer, NoMemory>
    requires { (1 ≤ workers) × (workers ≤ 16) }
    ensures printed { IfOk result
        (λ answer. PrintsRun input.now answer.text.items answer.status answer.code) }
    ensures watched { IfOk result
        (λ answer. IsWatched (W.opens watch.now) input.now answer.code) }
{
    let (job, _) = match read_job(alloc, input, false) {
        Ok(order) => order,
        Err(why) => return why.answer(alloc),
    };
    let (board, post, reader) = match job.board(alloc, NUMBER) {
        Ok(opening) => opening,
        Err(NoMemory) => return answer_failure(alloc, 99),
    };
    watch.opened(job.credit(), board, reader);
    match run_whole(rt, alloc, job, post, workers, watch) {
        Ok(report) => answer_report(alloc, &report),
        Err(why) => answer_failure(alloc, why.code()),
    }
}
