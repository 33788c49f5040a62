//! A desk that grants and takes jobs, by itself and behind a stream.

use crate::frames::frames;
use crate::hearing::replied;
use crate::stop::{ScenarioFault, holds};
use crate::tree::{CREDIT, buffer, programs, told};
use accounts::{Account, Desk};
use job_core::{Job, ProgramBytes, play_lowest};
use std::alloc::Global;
use streams::{InlineRunner, StreamFault, Tap, serve_stream};

/// More tenants than a node of the tree of tenants holds.
const TENANTS: [&str; 13] = [
    "a",
    "b",
    "c",
    "d",
    "e",
    "f",
    "g",
    "h",
    "i",
    "j",
    "k",
    "l",
    "tenant-of-some-length",
];

/// How many jobs are taken.
const JOBS: u64 = 3;

/// What is granted to each tenant.
const GRANT: u32 = 240;

/// The account of a tenant, which has to add up. That of one that was granted nothing has zeros
/// alone.
fn account(desk: &Desk, tenant: &str) -> Result<Account, ScenarioFault> {
    let account = match desk.account(tenant) {
        Ok(account) => account,
        Err(_) => Account {
            granted: 0,
            balance: 0,
            opened: 0,
            spent: 0,
        },
    };
    let taken = account.opened.checked_add(account.spent);
    let sum = match taken {
        Some(taken) => taken.checked_add(account.balance),
        None => None,
    };
    holds(sum == Some(account.granted), "an account doesn't add up")?;
    Ok(account)
}

/// A grant that is refused changes nothing, and is made when it comes again.
fn grant(alloc: Global, desk: &mut Desk, tenant: &str) -> Result<(), ScenarioFault> {
    let before = account(desk, tenant)?;
    for _ in 0..2u8 {
        match desk.grant(alloc, tenant, GRANT) {
            Ok(after) => {
                let more = Some(after.granted) == before.granted.checked_add(u64::from(GRANT));
                holds(more, "a grant of another amount")?;
                return holds(account(desk, tenant)? == after, "a grant isn't kept");
            }
            Err(fault) => holds(fault.code() == 99, "a grant is refused by another number")?,
        }
        holds(
            account(desk, tenant)? == before,
            "a grant that was refused changed the account",
        )?;
    }
    Err(ScenarioFault::Differs("a grant is refused twice"))
}

/// A job that is refused changes nothing, and is taken under the same number when it comes again.
fn submit(
    alloc: Global,
    desk: &mut Desk,
    tenant: &str,
    programs: &[ProgramBytes],
    number: u64,
) -> Result<Job, ScenarioFault> {
    let before = account(desk, tenant)?;
    for _ in 0..2u8 {
        match desk.submit(alloc, tenant, programs, CREDIT, buffer(alloc)?) {
            Ok((taken, job)) => {
                holds(taken == number, "a job has another number")?;
                let after = account(desk, tenant)?;
                let more = Some(after.opened) == before.opened.checked_add(u64::from(CREDIT));
                holds(more, "a job's credit isn't open")?;
                return Ok(job);
            }
            Err(fault) => holds(fault.code() == 99, "a job is refused by another number")?,
        }
        holds(
            account(desk, tenant)? == before,
            "a job that was refused changed the account",
        )?;
    }
    Err(ScenarioFault::Differs("a job is refused twice"))
}

/// Plays the job and ends it. Where that finds no memory the job fails, and its credit is back.
fn finish(
    alloc: Global,
    desk: &mut Desk,
    tenant: &str,
    number: u64,
    job: Job,
) -> Result<Vec<u64>, ScenarioFault> {
    let before = account(desk, tenant)?;
    let Ok(report) = play_lowest(alloc, job) else {
        holds(desk.finish(number, Err(99)).is_ok(), "a job isn't open")?;
        let after = account(desk, tenant)?;
        let back = Some(before.opened) == after.opened.checked_add(u64::from(CREDIT))
            && before.spent == after.spent;
        holds(back, "the credit of a job that failed isn't back")?;
        return Err(ScenarioFault::Refused);
    };
    let spent = report.spent;
    holds(
        desk.finish(number, Ok(report)).is_ok(),
        "a job that was played isn't open",
    )?;
    let after = account(desk, tenant)?;
    let charged = Some(after.spent) == before.spent.checked_add(u64::from(spent))
        && Some(before.opened) == after.opened.checked_add(u64::from(CREDIT));
    holds(charged, "a job is charged otherwise than its report says")?;
    let Ok(report) = desk.result(number) else {
        return Err(ScenarioFault::Differs("a report is gone"));
    };
    told(alloc, report)
}

/// Takes jobs of two tenants, and ends all but the last.
fn take_jobs(alloc: Global, desk: &mut Desk) -> Result<(), ScenarioFault> {
    let programs = programs(alloc)?;
    for number in 1..=JOBS {
        let tenant = if number % 2 == 0 { "b" } else { TENANTS[12] };
        let job = submit(alloc, desk, tenant, &programs, number)?;
        if number < JOBS {
            finish(alloc, desk, tenant, number, job)?;
        }
    }
    Ok(())
}

/// Each tenant's balance and open credit.
fn balances(alloc: Global, desk: &Desk) -> Result<Vec<u64>, ScenarioFault> {
    let mut numbers = Vec::new(alloc);
    for tenant in TENANTS {
        let account = account(desk, tenant)?;
        numbers.push(account.balance)?;
        numbers.push(account.opened)?;
    }
    Ok(numbers)
}

/// Grants to all tenants, and jobs of two of them, with the accounts that are left.
pub fn kept(alloc: Global) -> Result<Vec<u64>, ScenarioFault> {
    let mut desk = Desk::new(alloc);
    for tenant in TENANTS {
        grant(alloc, &mut desk, tenant)?;
    }
    take_jobs(alloc, &mut desk)?;
    balances(alloc, &desk)
}

/// The replies to a report of the desk.
pub fn answered(alloc: Global) -> Result<Vec<u64>, ScenarioFault> {
    let programs = programs(alloc)?;
    let mut desk = Desk::new(alloc);
    grant(alloc, &mut desk, "t")?;
    let job = submit(alloc, &mut desk, "t", &programs, 1)?;
    finish(alloc, &mut desk, "t", 1, job)?;
    match desk.result(1) {
        Ok(report) => replied(alloc, report),
        Err(_) => Err(ScenarioFault::Differs("a report is gone")),
    }
}

const REQUESTS: [&str; 6] = [
    "{\"op\":\"grant\",\"tenant\":\"t\",\"amount\":100}",
    "{\"op\":\"submit\",\"tenant\":\"t\",\"credit\":34,\"buffer\":\"0000000000000000\",\"programs\":[{\"need\":4,\"code\":\"bf16000000000000b701000001000000b70200000a000000b703000004000000b70400000900000085000000010000007306000000000000b7000000000000009500000000000000\"},{\"need\":4,\"code\":\"7331000000000000b7000000000000009500000000000000\"}]}",
    "{\"op\":\"status\",\"job\":1}",
    "{\"op\":\"result\",\"job\":1}",
    "{\"op\":",
    "{\"op\":\"account\",\"tenant\":\"t\"}",
];

const REPLIES: [&str; 6] = [
    "{\"balance\":100,\"granted\":100,\"ok\":true,\"open\":0,\"spent\":0}",
    "{\"job\":1,\"ok\":true}",
    "{\"complete\":true,\"ok\":true,\"returned\":7,\"spent\":27}",
    "{\"buffer\":\"0000000009000000\",\"ok\":true,\"returned\":7,\"spent\":27,\"tasks\":[{\"number\":0,\"program\":0,\"r0\":0,\"ran\":true,\"rest\":0,\"spent\":24},{\"number\":1,\"program\":1,\"r0\":0,\"ran\":true,\"rest\":7,\"spent\":3}]}",
    "{\"code\":72,\"ok\":false}",
    "{\"balance\":73,\"granted\":100,\"ok\":true,\"open\":0,\"spent\":27}",
];

/// Whether a stream that ended so has these replies. Where memory is refused, either its end tells
/// so, behind a beginning of the replies, or a reply does.
fn has_replies(
    answer: Result<u64, StreamFault>,
    written: &[u8],
    replies: &[u8],
) -> Result<(), ScenarioFault> {
    match answer {
        Ok(count) => holds(count == 6, "not every frame is answered")?,
        Err(StreamFault::ReadFailed) => return Err(ScenarioFault::Differs("the reader failed")),
        Err(_) => {
            let begins = replies.get(..written.len()) == Some(written);
            holds(begins, "what is written is no beginning of the replies")?;
            return Err(ScenarioFault::Refused);
        }
    }
    if written == replies {
        Ok(())
    } else {
        Err(ScenarioFault::Refused)
    }
}

/// A stream of requests, served. The account adds up, and the job's credit is open, spent or back.
pub fn served(alloc: Global) -> Result<Vec<u64>, ScenarioFault> {
    let stream = frames(alloc, &REQUESTS)?;
    let replies = frames(alloc, &REPLIES)?;
    let mut reader = Tap::new(stream.as_slice());
    let mut writer = Tap::new(Vec::new(alloc));
    let mut desk = Desk::new(alloc);
    let mut runner = InlineRunner::new(alloc);
    let answer = serve_stream(alloc, &mut reader, &mut writer, &mut desk, &mut runner);
    let written = writer.into_inner();
    let account = account(&desk, "t")?;
    has_replies(answer, &written, &replies)?;
    let mut numbers = Vec::new(alloc);
    numbers.extend_from_slice(&[written.len() as u64, account.balance, account.spent])?;
    Ok(numbers)
}
