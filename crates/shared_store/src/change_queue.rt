//! Changes that wait to be committed.

ghost use Rattle.std.specs.Prelude.{◌≡◌, ◌≢◌, ◌++◌, ◌∷◌, [], IfErr, IfOk, OnErr, OnOk, length};
ghost use Rattle.shared_store.specs.Faults.{RefusesAdding};

use crate::history::{HistoryFront, HistoryName, HistoryWord};
use desk_records::StoredChange;
use std::alloc::Global;
use std::marker::Model;
use std::mem;

// As many changes as ever.
const MOST_CHANGES: u64 = 1 << 60;

/// The reason why no change is added.
#[derive(Drop)]
pub enum AddFault<J: HistoryName> {
    /// A growth was refused.
    NoMemory,
    /// These are as many changes as ever.
    TooMany(HistoryFront<J>),
    /// Another queue has added to the history, which is this one now.
    Outrun(HistoryFront<J>),
}

/// The changes that wait, beside the history that says so. Contracts see those that were added so
/// far, and those of them that were taken to be committed.
#[derive(Drop)]
pub struct ChangeQueue<J: HistoryName> {
    waiting: Vec<StoredChange>,
    taken: HistoryFront<J>,
    added: HistoryFront<J>,
    alloc: Global,
}

impl<J: HistoryName> Model for ChangeQueue<J> {
    ghost use Rattle.std.specs.Prelude.{◌≡◌, ◌++◌};
    ghost use Rattle.shared_store.specs.Keeping.{QueuedChanges};

    ghost Value = { QueuedChanges };

    ghost view = { λ q. record { added = q.added; taken = q.taken; waiting = q.waiting.items } };

    ghost invariant = { λ q. q.added ≡ q.taken ++ q.waiting.items };
}

impl<J: HistoryName> ChangeQueue<J> {
    /// A queue of a history that has no change yet.
    pub fn new(alloc: Global, front: HistoryFront<J>) -> ChangeQueue<J>
        requires { front ≡ [] }
        ensures { (result.added ≡ []) × (result.taken ≡ []) × (result.waiting ≡ []) }
    {
        ChangeQueue {
            waiting: Vec::new(alloc),
            taken: front.again(),
            added: front,
            alloc,
        }
    }

    /// All changes that were added so far.
    pub fn added(&self) -> &HistoryFront<J>
        ensures { result.now ≡ self.now.added }
    {
        &self.added
    }

    /// Adds a change behind all others.
    pub fn add(&mut self, word: &HistoryWord<J>, change: StoredChange) -> Result<(), AddFault<J>>
        ensures ok { OnOk result ((self.new.added ≡ self.old.added ++ change ∷ [])
            × (self.new.waiting ≡ self.old.waiting ++ change ∷ [])
            × (self.new.taken ≡ self.old.taken)) }
        ensures err { OnErr result (self.new ≡ self.old) }
        ensures refused { IfErr result (RefusesAdding self.old.added) }
    {
        if self.added.len() >= MOST_CHANGES {
            return Err(AddFault::TooMany(self.added.again()));
        }
        if self.waiting.reserve(1).is_err() {
            return Err(AddFault::NoMemory);
        }
        let mut added = self.added.again();
        if !added.add(word, &change) {
            return Err(AddFault::Outrun(added));
        }
        self.added = added;
        self.waiting.push_reserved(change);
        Ok(())
    }

    /// Takes all that wait, in order, where those that were taken before are all that is committed.
    /// Answers them with a front of all that was added, or else a front of those taken before.
    pub fn take_behind(
        &mut self,
        committed: &HistoryFront<J>,
    ) -> Result<(Vec<StoredChange>, HistoryFront<J>), HistoryFront<J>>
        ensures behind { IfOk result (λ r. r.1 ≡ committed.now ++ r.0.items) }
        ensures all { IfOk result (λ r. (r.1 ≡ self.old.added) × (r.0.items ≡ self.old.waiting)
            × (self.new ≡ record {
              added = self.old.added;
              taken = self.old.added;
              waiting = [];
            })) }
        ensures other { IfErr result (λ taken. (self.new ≡ self.old)
            × (length taken ≢ length committed.now)) }
    {
        if !self.taken.is_same(committed) {
            return Err(self.taken.again());
        }
        let after = self.added.again();
        self.taken = self.added.again();
        let batch = mem::replace(&mut self.waiting, Vec::new(self.alloc));
        Ok((batch, after))
    }
}
