//! How often each ticket was seen.

use credit_book::Ticket;
use refusal::NoMemory;
use std::alloc::Global;
use std::sync::atomic::{AtomicBool, AtomicU32, Ordering};

/// A mark for each number from 0 on, and whether all tickets were pushed, and whether something
/// went wrong.
#[derive(Drop)]
pub struct Tally {
    marks: Vec<AtomicU32>,
    is_over: AtomicBool,
    has_failed: AtomicBool,
}

impl Tally {
    /// Nothing was seen yet, of so many numbers.
    pub fn new(alloc: Global, count: usize) -> Result<Tally, NoMemory> {
        let mut marks = Vec::new(alloc);
        for _ in 0..count {
            marks.push(AtomicU32::new(0))?;
        }
        Ok(Tally {
            marks,
            is_over: AtomicBool::new(false),
            has_failed: AtomicBool::new(false),
        })
    }

    /// Marks a ticket. Its number.
    pub fn see(&self, ticket: &Ticket) -> u32 {
        let number = ticket.number();
        self.mark(number);
        number
    }

    /// Marks the ticket of this number.
    pub fn mark(&self, number: u32) {
        match self.marks.get(number as usize) {
            Some(mark) => {
                let _ = mark.fetch_add(1, Ordering::SeqCst);
            }
            None => self.fail(),
        }
    }

    /// Marks the tickets of these numbers, which have to rise.
    pub fn mark_rising(&self, numbers: &[u32]) {
        let mut last = 0;
        for number in numbers {
            if *number <= last {
                self.fail();
            }
            self.mark(*number);
            last = *number;
        }
    }

    /// Says that all tickets were pushed.
    pub fn end(&self) {
        self.is_over.store(true, Ordering::SeqCst);
    }

    /// Whether all tickets were pushed.
    pub fn is_over(&self) -> bool {
        self.is_over.load(Ordering::SeqCst)
    }

    /// Says that something went wrong.
    pub fn fail(&self) {
        self.has_failed.store(true, Ordering::SeqCst);
    }

    /// Whether nothing went wrong, and each number but 0 was seen once.
    pub fn is_whole(&self) -> bool {
        for (number, mark) in self.marks.iter().enumerate() {
            let wanted = u32::from(number != 0);
            if mark.load(Ordering::SeqCst) != wanted {
                return false;
            }
        }
        !self.has_failed.load(Ordering::SeqCst)
    }
}
