//! Calls that find no memory: what was handed in comes back, what stood is as it was, and the call
//! goes through once it is made again.

use crate::stop::{ScenarioFault, holds};
use crate::tree::programs;
use credit_book::{Board, Book, Post, Ticket};
use helpers::{HelperTable, Part};
use job_core::ProgramBytes;
use run_trace::JobPrograms;
use std::alloc::Global;
use verifier::{Refusal, verify};

const CREDIT: u32 = 34;

const SIZE: usize = 8;

/// A book, whose opening is called once more where it was refused.
fn opened(alloc: Global, post: Post, root: Part) -> Result<(Book, Ticket), ScenarioFault> {
    match Book::open(alloc, post, root) {
        Ok(book) => Ok(book),
        Err(unopened) => {
            holds(unopened.root.len() == SIZE, "another part comes back")?;
            Ok(Book::open(alloc, unopened.post, unopened.root)?)
        }
    }
}

/// Whether there are so many programs, each with its instructions.
fn has(list: &JobPrograms, count: usize) -> bool {
    list.programs.len() == count && list.listings.len() == count
}

/// One program more, which is added once more where that was refused.
fn added(
    alloc: Global,
    list: &mut JobPrograms,
    program: &ProgramBytes,
) -> Result<(), ScenarioFault> {
    let code = program.code.as_slice();
    match verify(alloc, program.need, code, &HelperTable::job()) {
        Ok(_) => {
            let count = list.programs.len();
            if list.add(alloc, program.need, code).is_err() {
                holds(has(list, count), "a refused program has left something")?;
                list.add(alloc, program.need, code)?;
            }
            Ok(())
        }
        Err(Refusal::NoMemory) => Err(ScenarioFault::Refused),
        Err(_) => Err(ScenarioFault::Differs("a program isn't accepted")),
    }
}

/// A book's job, its credit and its bytes, and how many programs are listed.
pub fn given_back(alloc: Global) -> Result<Vec<u64>, ScenarioFault> {
    let (_board, post, _reader) = Board::open(alloc, 1, CREDIT)?;
    let root = Part::whole(vec![in alloc; 0; SIZE]?);
    let (book, ticket) = opened(alloc, post, root)?;
    let mut list = JobPrograms::none(alloc);
    let programs = programs(alloc)?;
    for _ in 0..3 {
        for program in &programs {
            added(alloc, &mut list, program)?;
        }
    }
    holds(has(&list, 6), "a program is missing")?;
    let mut numbers = Vec::new(alloc);
    numbers.push(book.job())?;
    numbers.push(u64::from(book.issued()))?;
    numbers.push(ticket.part().len() as u64)?;
    numbers.push(list.programs.len() as u64)?;
    Ok(numbers)
}
