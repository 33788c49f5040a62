//! Runners behind a stream: one of the tests, whose starts and looks are chosen, and one of std's ends
//! whose job waits for the next request.

use crate::frames::frames;
use crate::stop::{ScenarioFault, holds};
use accounts::{Account, Desk};
use credit_book::{Progress, Report};
use job_core::Job;
use std::alloc::Global;
use streams::{InlineRunner, Runner, Tap, pass_finished, serve_stream};

/// Answers each start alike, sees the same of each job, and never ends one.
#[derive(Drop)]
struct Chosen {
    start: Result<(), u8>,
    seen: Progress,
}

impl Runner for Chosen {
    ghost use Rattle.std.specs.Prelude.{◌≡◌, None};

    ghost held = { λ _. 0 };

    ghost ready = { λ _. Unit {0} };

    ghost starts = { λ _ _ _ _ _. Unit {0} };

    ghost looks = { λ _ _ _ _. Unit {0} };

    ghost takes = { λ _ result _. result ≡ None };

    fn start(&mut self, _alloc: Global, _number: u64, _job: Job) -> Result<(), u8> {
        self.start
    }

    fn look(&mut self, _number: u64) -> Progress {
        self.seen
    }

    fn take(&mut self) -> Option<(u64, Result<Report, u8>)> {
        None
    }
}

const REQUESTS: [&str; 5] = [
    "{\"op\":\"grant\",\"tenant\":\"t\",\"amount\":100}",
    "{\"op\":\"submit\",\"tenant\":\"t\",\"credit\":34,\"buffer\":\"\",\"programs\":[{\"need\":0,\"code\":\"b70000002a0000009500000000000000\"}]}",
    "{\"op\":\"status\",\"job\":1}",
    "{\"op\":\"result\",\"job\":1}",
    "{\"op\":\"account\",\"tenant\":\"t\"}",
];

/// The replies where the runner has seen 5 and 2 of a job that runs.
const OPEN: [&str; 5] = [
    "{\"balance\":100,\"granted\":100,\"ok\":true,\"open\":0,\"spent\":0}",
    "{\"job\":1,\"ok\":true}",
    "{\"complete\":false,\"ok\":true,\"returned\":2,\"spent\":5}",
    "{\"code\":77,\"ok\":false}",
    "{\"balance\":66,\"granted\":100,\"ok\":true,\"open\":34,\"spent\":0}",
];

/// The replies where the start is refused by 81, which ends the job.
const REFUSED: [&str; 5] = [
    "{\"balance\":100,\"granted\":100,\"ok\":true,\"open\":0,\"spent\":0}",
    "{\"job\":1,\"ok\":true}",
    "{\"code\":81,\"ok\":false}",
    "{\"code\":81,\"ok\":false}",
    "{\"balance\":100,\"granted\":100,\"ok\":true,\"open\":0,\"spent\":0}",
];

/// Serves requests by a runner, whose replies have to be these. How many there are.
fn served<N: Runner>(
    alloc: Global,
    desk: &mut Desk,
    runner: &mut N,
    requests: &[&str],
    replies: &[&str],
) -> Result<u64, ScenarioFault>
    requires { N.ready runner.old }
    ensures { N.ready runner.new }
{
    let bytes = frames(alloc, requests)?;
    let replies = frames(alloc, replies)?;
    let mut reader = Tap::new(bytes.as_slice());
    let mut writer = Tap::new(Vec::new(alloc));
    let answer = serve_stream(alloc, &mut reader, &mut writer, desk, runner);
    holds(
        writer.into_inner().as_slice() == replies.as_slice(),
        "other replies are written",
    )?;
    match answer {
        Ok(count) => Ok(count),
        Err(_) => Err(ScenarioFault::Differs("a stream in memory failed")),
    }
}

/// How many replies tell what the runner sees, and how many a start that is refused.
pub fn replies(alloc: Global) -> Result<Vec<u64>, ScenarioFault> {
    let seen = Progress {
        spent: 5,
        returned: 2,
        complete: false,
    };
    let mut numbers = Vec::new(alloc);
    for (start, replies) in [(Ok(()), &OPEN), (Err(81), &REFUSED)] {
        let mut runner = Chosen { start, seen };
        let mut desk = Desk::new(alloc);
        let count = served(alloc, &mut desk, &mut runner, &REQUESTS, replies)?;
        numbers.push(count)?;
    }
    Ok(numbers)
}

/// The account of the one tenant, or zeros.
fn account(desk: &Desk) -> Account {
    match desk.account("t") {
        Ok(account) => account,
        Err(_) => Account {
            granted: 0,
            balance: 0,
            opened: 0,
            spent: 0,
        },
    }
}

/// Replies, and what is open of a job that waits for its next request in the runner; what it has
/// spent once it has passed, and whether the runner has another.
pub fn passed_on(alloc: Global) -> Result<Vec<u64>, ScenarioFault> {
    let mut desk = Desk::new(alloc);
    let mut runner = InlineRunner::new(alloc);
    let [grant, submit, ..] = REQUESTS;
    let [granted, taken, ..] = OPEN;
    let count = served(
        alloc,
        &mut desk,
        &mut runner,
        &[grant, submit],
        &[granted, taken],
    )?;
    let opened = account(&desk).opened;
    pass_finished(&mut desk, &mut runner);
    let spent = account(&desk).spent;
    let others = u64::from(runner.take().is_some());
    let mut numbers = Vec::new(alloc);
    numbers.extend_from_slice(&[count, opened, spent, others])?;
    Ok(numbers)
}
