//! Tickets of one book, for lanes alone.

use crate::stop::ScenarioFault;
use credit_book::{Board, Book, Ticket};
use helpers::{Part, SpawnRecord};
use std::alloc::Global;

/// A book whose root spawns tasks with 1 of credit each, up to 2,000,000 of them.
#[derive(Drop)]
pub struct Tickets {
    book: Book,
}

impl Tickets {
    /// The book of a new job.
    pub fn open(alloc: Global) -> Result<Tickets, ScenarioFault> {
        let (_board, post, _reader) = Board::open(alloc, 1, 2_000_001)?;
        let (book, _root) = Book::open(alloc, post, Part::whole(Vec::new(alloc)))?;
        Ok(Tickets { book })
    }

    /// The ticket of the next task. They are numbered from 1.
    pub fn next(&mut self, alloc: Global) -> Result<Ticket, ScenarioFault> {
        let child = SpawnRecord {
            program: 0,
            share: 1,
            arg: 0,
            part: Part::whole(Vec::new(alloc)),
        };
        match self.book.spawn(0, child) {
            Ok(ticket) => Ok(ticket),
            Err(_) => Err(ScenarioFault::Differs("a spawn is refused")),
        }
    }
}

/// The number of a ticket, or 0.
pub fn number_of(ticket: Option<Ticket>) -> u64 {
    match ticket {
        Some(ticket) => u64::from(ticket.number()),
        None => 0,
    }
}
