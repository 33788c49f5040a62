//! `core_tests FILE..`: reads rows of what neither a built program nor the library for C shows:
//! orders, the states that are kept, traps of the reference, tables of helpers, and machines with
//! helpers of a caller's own. It tells the rows that disagree. Then it goes through calls of books,
//! parts and runs by hand, and tells each that answers otherwise.
#![tactic(auto)]

mod answers;
mod row;
mod scenarios;

// what is asked of one program
mod alone;
mod callers;
mod graphs;
mod kept;
mod turns;

// calls by hand
mod asking;
mod books;
mod parts;
mod pointers;
mod refused_spawns;
mod wording;

use answers::answer;
use row::rows_of;
use scenarios::tell_scenarios;
use std::alloc::Global;
use std::io::Write;
use std::process::ExitCode;
use std::{env, fs};

/// Prints each row of the text whose answer is another, and answers how many there are.
fn print_differing<W: Write>(
    alloc: Global,
    name: &str,
    text: &str,
    output: &mut W,
) -> anyhow::Result<usize> {
    let mut count = 0usize;
    let rows = rows_of(alloc, text)?;
    for row in &rows {
        let found = answer(alloc, row)?;
        if found.as_str() != row.answer {
            count = count.saturating_add(1);
            writeln!(output, "{name}, line {}: {found}", row.line)?;
        }
    }
    let told = rows.len().saturating_sub(count);
    writeln!(output, "{name}: {told} rows agree")?;
    Ok(count)
}

fn main(rt: HostRuntime) -> anyhow::Result<ExitCode> {
    let alloc = rt.alloc();
    let mut output = rt.stdout();
    let mut count = 0usize;
    for name in env::args(&rt)?.skip(1) {
        let text = fs::read_to_string(&rt, name.as_str())?;
        let differing = print_differing(alloc, name.as_str(), text.as_str(), &mut output)?;
        count = count.saturating_add(differing);
    }
    count = count.saturating_add(tell_scenarios(alloc, &mut output)?);
    if count == 0 {
        Ok(ExitCode::SUCCESS)
    } else {
        Ok(ExitCode::from(1))
    }
}
