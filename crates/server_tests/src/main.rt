//! What shows only inside a process: streams, sessions and desks without a socket, lanes, gates and
//! pools of threads. It goes through scenarios, and prints the numbers that each comes to.
//!
//! Where one request for memory of a scenario among the first ten is refused, whichever that is,
//! it looks that all stands as it has to, calls again, and prints the same. With nothing on
//! standard input the program goes through all scenarios. With `NAME AHEAD MOST` it makes and drops
//! AHEAD requests for memory, goes through the scenario of this name, and then tells whether a
//! request of the scenario's was refused, or how many it made if that is under MOST: for this it
//! makes up to MOST requests more, one of which is refused where none was before.
#![tactic(auto)]

mod requests;
mod stop;

// the job of two tasks, and texts as a stream
mod frames;
mod tree;

// where any request for memory may be refused
mod arenas;
mod asking;
mod desks;
mod giving_back;
mod hearing;
mod pools;
mod worlds;

// ends that fail, and runners behind a stream
mod commands;
mod failing_ends;
mod runners;
mod wording;

// lanes, without a pool
mod order;
mod passing;
mod stealing;
mod tally;
mod tickets;

// tasks by hand, tasks that meet, and threads that look
mod by_hand;
mod lookers;
mod looking;
mod meeting;
mod opened;

use requests::{ScenarioCall, make, question_of};
use std::alloc::Global;
use std::io;
use std::io::{Read, Write};
use std::process::ExitCode;
use std::sync::Wait;
use std::thread::Threads;
use stop::ScenarioFault;

const NAMES: [&str; 32] = [
    "played", "stepped", "heard", "replied", "desk", "stream", "frames", "workers", "whole",
    "runner", "given", "reads", "writes", "drips", "fills", "empties", "texts", "taps", "verdicts",
    "jobs", "chosen", "passed", "order", "own", "halves", "passes", "lanes", "left", "answers",
    "meetings", "looks", "faults",
];

/// One turn of a scenario in which memory may be refused.
fn turn<R>(rt: R, alloc: Global, name: &str) -> Result<Vec<u64>, ScenarioFault>
where
    R: Threads + Wait + Copy + Send + Sync + Drop + 'static,
{
    match name {
        "played" => worlds::played(alloc),
        "stepped" => worlds::stepped(alloc),
        "heard" => hearing::heard(alloc),
        "replied" => desks::answered(alloc),
        "desk" => desks::kept(alloc),
        "stream" => desks::served(alloc),
        "frames" => arenas::placed(alloc),
        "workers" => pools::run_by_two(&rt, alloc),
        "whole" => pools::run_whole_by_two(&rt, alloc),
        "runner" => pools::run_by_runner(rt, alloc),
        "given" => giving_back::given_back(alloc),
        _ => by_itself(rt, alloc, name),
    }
}

/// Another scenario.
fn by_itself<R>(rt: R, alloc: Global, name: &str) -> Result<Vec<u64>, ScenarioFault>
where
    R: Threads + Wait + Copy + Send + Sync + Drop + 'static,
{
    match name {
        "faults" => wording::faults(alloc),
        "texts" => hearing::written(alloc),
        "taps" => failing_ends::handed_on(alloc),
        "verdicts" => commands::verdicts(&rt, alloc),
        "jobs" => commands::jobs(&rt, alloc),
        "chosen" => runners::replies(alloc),
        "passed" => runners::passed_on(alloc),
        "order" => order::in_order(alloc),
        "own" => order::own_first(alloc),
        "halves" => order::by_halves(alloc),
        "passes" => passing::by_passes(&rt, alloc),
        "lanes" => stealing::by_lanes(&rt, alloc),
        "left" => by_hand::left(alloc),
        "answers" => pools::answers(rt, alloc),
        "meetings" => meeting::meetings(&rt, alloc),
        "looks" => looking::looked_at(&rt, alloc),
        _ => failing_ends::swept_by_name(alloc, name),
    }
}

/// What a scenario comes to. One request alone is refused, so that its second turn goes through.
fn came_to<R>(rt: R, alloc: Global, name: &str) -> Result<Vec<u64>, ScenarioFault>
where
    R: Threads + Wait + Copy + Send + Sync + Drop + 'static,
{
    match turn(rt, alloc, name) {
        Err(ScenarioFault::Refused) => turn(rt, alloc, name),
        other => other,
    }
}

/// Prints what a scenario came to.
fn print<W: Write>(
    output: &mut W,
    name: &str,
    answer: &Result<Vec<u64>, ScenarioFault>,
) -> io::Result<()> {
    write!(output, "{name}")?;
    match answer {
        Ok(numbers) => {
            for number in numbers {
                write!(output, " {number}")?;
            }
        }
        Err(ScenarioFault::Refused) => write!(output, ": refused again")?,
        Err(ScenarioFault::Differs(what)) => write!(output, ": {what}")?,
    }
    writeln!(output)
}

/// The longest input, which is read in one piece.
const INPUT_LEN: usize = 64;

/// Goes through one scenario, with requests ahead of it and behind it.
fn ask<R, W>(rt: R, alloc: Global, output: &mut W, question: &ScenarioCall) -> io::Result<()>
where
    R: Threads + Wait + Copy + Send + Sync + Drop + 'static,
    W: Write,
{
    let made = make(alloc, question.ahead);
    let answer = came_to(rt, alloc, question.name);
    print(output, question.name, &answer)?;
    let behind = make(alloc, question.most);
    if made < question.ahead {
        writeln!(output, "refused ahead of the scenario")
    } else if behind < question.most {
        writeln!(output, "refused behind {} more", behind)
    } else {
        writeln!(output, "refused once")
    }
}

fn main(rt: HostRuntime) -> ExitCode {
    let alloc = rt.alloc();
    let mut input = [0u8; INPUT_LEN];
    let mut output = rt.stdout();
    let Ok(length) = rt.reader().read(&mut input) else {
        return ExitCode::from(3);
    };
    if length == 0 {
        for name in NAMES {
            if print(&mut output, name, &came_to(rt, alloc, name)).is_err() {
                return ExitCode::from(3);
            }
        }
        return ExitCode::SUCCESS;
    }
    match question_of(input.get(..length).unwrap_or(&[])) {
        Some(question) => match ask(rt, alloc, &mut output, &question) {
            Ok(()) => ExitCode::SUCCESS,
            Err(_) => ExitCode::from(3),
        },
        None => ExitCode::from(2),
    }
}
