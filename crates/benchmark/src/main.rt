//! `benchmark`: runs each scenario once and prints what it came to. `benchmark time`: prints how
//! long a step of `play` takes, in nanoseconds, how many slots `verify` judges in a second, and how
//! quick `execute_program` is.
#![tactic(auto)]

mod book_timing;
mod lane_timing;
mod pool_timing;
mod protocol_timing;
mod results;
mod scenario;
mod single;
mod stream_timing;
mod timing;

use pool_timing::print_pool_times;
use results::print_results;
use std::env;
use std::process::ExitCode;
use stream_timing::print_stream_times;
use timing::print_times;

fn main(rt: HostRuntime) -> anyhow::Result<ExitCode> {
    let alloc = rt.alloc();
    let mut words = Vec::new(alloc);
    for word in env::args(&rt)?.skip(1) {
        words.push(word)?;
    }
    let mut output = rt.stdout();
    match words.as_slice() {
        [] => print_results(alloc, &mut output)?,
        [word] if word.as_str() == "time" => {
            print_times(&rt, alloc, &mut output)?;
            print_pool_times(&rt, alloc, &mut output)?;
            print_stream_times(&rt, alloc, &mut output)?;
        }
        _ => return Ok(ExitCode::from(2)),
    }
    Ok(ExitCode::SUCCESS)
}
