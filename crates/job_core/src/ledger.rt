//! The tasks by number, and the spawner that adds to them.

ghost use Rattle.std.specs.Prelude.{◌≡◌, ◌≤◌, [], ◌∷◌, ◌++◌, true, vec_len};
ghost use Rattle.credit_book.specs.declared.event.Event.TheVariants.{End};
ghost use Rattle.credit_book.specs.declared.event.Stage.TheVariants.{Fresh};
ghost use Rattle.credit_book.specs.History.{table_of, standing_at};

use crate::live::{Live, Vacant};
use credit_book::{Book, BookFault, Outcome, Refused};
use helpers::{Entry, SpawnRecord, Spawner};
use std::alloc::Global;

/// The live tasks by number, the book of all of them, and what a spawn has to know of each program.
/// `turn` is the number of the task that runs, and `parents` has the number of each task's parent,
/// from the first child on.
#[derive(Drop)]
pub struct TaskLedger {
    pub alloc: Global,
    pub entries: Vec<Entry>,
    pub lives: Vec<Option<Live>>,
    pub book: Book,
    pub turn: u32,
    pub parents: Vec<u32>,
    ghost few: { vec_len entries ≤ 65536 },
}

impl TaskLedger {
    /// Ends the task of a number: what it used of its credit is spent, the rest comes back, and the
    /// bytes of its part are collected.
    pub fn end(&mut self, number: u32, live: Live, r0: u64)
        requires standing { standing_at (table_of self.old.book.history) number
            ≡ record { held = live.credit.held; stage = Fresh } }
        requires used { live.credit.used ≤ live.credit.held }
        ensures history { self.new.book.history
            ≡ self.old.book.history
            ++ End number live.credit.used r0 true live.part.base live.part.bytes ∷ [] }
        ensures book { (self.new.book.board ≡ self.old.book.board)
            × (self.new.book.size ≡ self.old.book.size) }
        ensures same { (self.new.entries.items ≡ self.old.entries.items)
            × (self.new.lives.items ≡ self.old.lives.items)
            × (self.new.turn ≡ self.old.turn) × (self.new.parents.items ≡ self.old.parents.items) }
    {
        let outcome = Outcome {
            job: self.book.job(),
            number,
            used: live.credit().used,
            r0,
            ran: true,
            part: live.into_part(),
        };
        match self.book.end(outcome) {
            Ok(_) => {}
            Err(_) => unreachable!(),
        }
    }
}

impl Spawner for TaskLedger {
    ghost use Rattle.std.specs.Prelude.{◌≡◌, length, slice_get};
    ghost use Rattle.credit_book.specs.History.{May, table_of};
    ghost use Rattle.credit_book.specs.Books.{spawn_event};
    ghost use Rattle.job_core.specs.Seats.{ChildEnters};

    ghost entries = { λ ledger. slice_get ledger.entries.items };

    ghost asks = { λ ledger child.
        May (table_of ledger.book.history) (spawn_event ledger.turn (length (table_of ledger.book.history).standings) child) };

    ghost spawns = { λ old child reply new. (new.entries.items ≡ old.entries.items)
        × (new.turn ≡ old.turn)
        × (new.book.board ≡ old.book.board) × (new.book.size ≡ old.book.size)
        × ChildEnters old.turn old.lives.items old.parents.items old.book.history child reply
        new.lives.items new.parents.items new.book.history };

    ghost calls = { λ old helper arguments answer new. (answer ≡ 0) × (new ≡ old) };

    fn entry(&self, program: u64) -> Option<Entry> {
        let entry = self.entries.get(program as usize)?;
        Some(*entry)
    }

    fn spawn(&mut self, child: SpawnRecord) -> Result<(), SpawnRecord> {
        // Room is found first: a spawn in the book can't be undone.
        if self.lives.reserve(1).is_err() || self.parents.reserve(1).is_err() {
            return Err(child);
        }
        let Ok(place) = Vacant::new(self.alloc) else {
            return Err(child);
        };
        match self.book.spawn(self.turn, child) {
            Ok(ticket) => {
                self.lives.push_reserved(Some(place.enter(ticket)));
                self.parents.push_reserved(self.turn);
                Ok(())
            }
            Err(Refused { fault, value }) => match fault {
                BookFault::NoMemory => Err(value),
                BookFault::Stranger => unreachable!(),
                BookFault::OverSpent => unreachable!(),
                BookFault::CreditLow => unreachable!(),
            },
        }
    }

    /// A job's programs call no helper of a caller's, so that nobody asks.
    fn call(&mut self, _id: u32, _arguments: [u64; 5]) -> u64 {
        0
    }
}
