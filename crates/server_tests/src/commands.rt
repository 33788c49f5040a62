//! Commands whose input or output fails at some call: where the input fails nothing is written, and
//! where the output does, a beginning of the answer.

use crate::failing_ends::{ALWAYS, Dripping, Filling};
use crate::stop::{ScenarioFault, holds};
use bpfjobs_cli::{Command, perform};
use std::alloc::Global;
use std::sync::Wait;
use std::thread::Threads;
use streams::{StreamFault, Tap};

/// A program in hexadecimal, and its verdict.
const PROGRAM: &str = "b70000002a0000009500000000000000";

const VERDICT: &str = "accepted cost 2\n";

/// A job of that program, and what it comes to.
const JOB: &str =
    "{\"programs\":[{\"need\":0,\"code\":\"b70000002a0000009500000000000000\"}],\"credit\":2,\"buffer\":\"\"}";

const RESULT: &str =
    "{\"buffer\":\"\",\"ok\":true,\"returned\":0,\"spent\":2,\"tasks\":[{\"number\":0,\"program\":0,\"r0\":42,\"ran\":true,\"rest\":0,\"spent\":2}]}\n";

/// The calls of the reader and of the writer that go well. A verdict's input comes in four pieces
/// of 10 bytes, and its answer goes in four of 5; a job's in five of 20, and in three of 50.
const VERDICTS: [(u64, u64); 11] = [
    (0, ALWAYS),
    (1, ALWAYS),
    (2, ALWAYS),
    (3, ALWAYS),
    (4, ALWAYS),
    (5, ALWAYS),
    (ALWAYS, 0),
    (ALWAYS, 1),
    (ALWAYS, 2),
    (ALWAYS, 3),
    (ALWAYS, 4),
];

const JOBS: [(u64, u64); 5] = [(0, ALWAYS), (5, ALWAYS), (ALWAYS, 0), (ALWAYS, 2), (6, 3)];

/// Adds the status or the number of the fault, and how many bytes of the answer were written.
fn tell(
    numbers: &mut Vec<u64>,
    answer: Result<u8, StreamFault>,
    written: &[u8],
    whole: &str,
) -> Result<(), ScenarioFault> {
    let told = match answer {
        Ok(status) => status,
        Err(fault) => fault.code(),
    };
    holds(
        whole.as_bytes().starts_with(written),
        "what is written is no beginning of the answer",
    )?;
    numbers.push(u64::from(told))?;
    numbers.push(written.len() as u64)?;
    Ok(())
}

fn reader(text: &str, step: usize, calls: u64) -> Dripping<'_> {
    Dripping {
        rest: text.as_bytes(),
        step,
        calls,
    }
}

fn writer(alloc: Global, step: usize, calls: u64) -> Filling {
    Filling {
        bytes: Vec::new(alloc),
        step,
        calls,
        fails: true,
    }
}

/// What verdicts come to.
pub fn verdicts<R: Threads + Wait + Sync>(
    rt: &R,
    alloc: Global,
) -> Result<Vec<u64>, ScenarioFault> {
    let mut numbers = Vec::new(alloc);
    for (reads, writes) in VERDICTS {
        let mut reader = Tap::new(reader(PROGRAM, 10, reads));
        let mut writer = Tap::new(writer(alloc, 5, writes));
        let command = Command::Verify { need: 0 };
        let answer = perform(rt, alloc, command, &mut reader, &mut writer).map(|done| done.status);
        tell(&mut numbers, answer, &writer.into_inner().bytes, VERDICT)?;
    }
    Ok(numbers)
}

/// What runs of a job on a thread come to.
pub fn jobs<R: Threads + Wait + Sync>(rt: &R, alloc: Global) -> Result<Vec<u64>, ScenarioFault> {
    let mut numbers = Vec::new(alloc);
    for (reads, writes) in JOBS {
        let mut reader = Tap::new(reader(JOB, 20, reads));
        let mut writer = Tap::new(writer(alloc, 50, writes));
        let command = Command::Run { workers: 1 };
        let answer = perform(rt, alloc, command, &mut reader, &mut writer).map(|done| done.status);
        tell(&mut numbers, answer, &writer.into_inner().bytes, RESULT)?;
    }
    Ok(numbers)
}
