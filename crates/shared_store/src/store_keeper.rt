//! A store that threads share, and the changes that are committed to it.

ghost use Rattle.std.specs.Prelude.{◌≡◌, ◌++◌, [], None, IfErr, IfOk, IsSome, IsTrue, OnOk, length, nat_le};
ghost use mathlib.Core.List.{IsPrefix};
ghost use Rattle.sqlite_trees.specs.Tree.{Trees};
ghost use Rattle.desk_store.specs.RowStores.{IsHonest};
ghost use Rattle.shared_store.specs.Faults.{HasFailed};
ghost use Rattle.shared_store.specs.Keeping.{IsLeft, IsSettledAt, LeavesCommitted};

use crate::change_queue::ChangeQueue;
use crate::commit_fault::CommitFault;
use crate::history::{HistoryFront, HistoryName};
use desk_records::{StoredChange, write_batch};
use desk_store::RowStore;
use sqlite_trees::store::Store;
use std::alloc::Global;
use std::marker::Model;
use std::sync::{Mutex, Wait};

// The batch that failed, and why it did.
#[derive(Drop)]
struct FailedBatch<J: HistoryName> {
    batch: Vec<StoredChange>,
    fault: CommitFault<J>,
}

/// A store of rows, a front of the changes that are committed to it, and the batch that failed.
/// Contracts see the three.
#[derive(Drop)]
pub struct StoreKeeper<S: Store, J: HistoryName> {
    rows: RowStore<S>,
    committed: HistoryFront<J>,
    failed: Option<FailedBatch<J>>,
    alloc: Global,
}

impl<S: Store, J: HistoryName> Model for StoreKeeper<S, J> {
    ghost use Rattle.std.specs.Prelude.{option_map};
    ghost use Rattle.shared_store.specs.Faults.{HasFailed};
    ghost use Rattle.shared_store.specs.Keeping.{IsKeptStore, KeptStore};

    ghost Value = { KeptStore S J };

    ghost view = { λ k. record {
      rows = k.rows;
      committed = k.committed;
      failed = option_map (λ f. f.batch.items) k.failed;
      fault = option_map (λ f. f.fault) k.failed;
    } };

    ghost invariant = { λ k. IsKeptStore S.Store J.first (record {
      rows = k.rows;
      committed = k.committed;
      failed = option_map (λ f. f.batch.items) k.failed;
      fault = option_map (λ f. f.fault) k.failed;
    }) };
}

impl<S: Store, J: HistoryName> StoreKeeper<S, J> {
    /// A store that was just opened over the first rows.
    pub fn new(alloc: Global, rows: RowStore<S>, front: HistoryFront<J>) -> StoreKeeper<S, J>
        requires settled { IsHonest S.Store rows → IsSettledAt S.Store J.first rows }
        requires none { front ≡ [] }
        ensures { (result.rows ≡ rows) × (result.committed ≡ []) × (result.failed ≡ None) }
    {
        StoreKeeper {
            rows,
            committed: front,
            failed: None,
            alloc,
        }
    }

    // Fails for good, with nothing more written. Answers the first fault.
    fn stop(&mut self, fault: CommitFault<J>) -> CommitFault<J>
        requires { HasFailed S.Store fault }
        ensures { HasFailed S.Store result × (self.new.rows ≡ self.old.rows)
            × (self.new.committed ≡ self.old.committed) × IsSome self.new.failed }
    {
        if let Some(failed) = &self.failed {
            return failed.fault.again();
        }
        let told = fault.again();
        let batch = Vec::new(self.alloc);
        self.failed = Some(FailedBatch { batch, fault });
        told
    }

    // Commits a batch, behind which the history is this one. From one that fails on, none is.
    fn write(
        &mut self,
        batch: Vec<StoredChange>,
        after: HistoryFront<J>,
    ) -> Result<(), CommitFault<J>>
        requires { after ≡ self.old.committed ++ batch.items }
        ensures done { OnOk result ((self.new.committed ≡ after) × (self.new.failed ≡ None)) }
        ensures failed { IfErr result (λ fault. HasFailed S.Store fault × IsSome self.new.failed
            × (self.new.committed ≡ self.old.committed)) }
        ensures longer { IsPrefix self.old.committed self.new.committed }
    {
        match &self.failed {
            Some(failed) => return Err(failed.fault.again()),
            None => {}
        }
        if let Err(error) = write_batch(self.alloc, &mut self.rows, batch.as_slice()) {
            let fault = CommitFault::Store(error);
            self.failed = Some(FailedBatch { batch, fault });
            return Err(CommitFault::Store(error));
        }
        self.committed = after;
        Ok(())
    }

    // Commits all that wait.
    fn write_waiting(
        &mut self,
        rt: &impl Wait,
        queue: &Mutex<ChangeQueue<J>>,
    ) -> Result<(), CommitFault<J>>
        ensures failed { IfErr result (λ fault. HasFailed S.Store fault × IsSome self.new.failed
            × (self.new.committed ≡ self.old.committed)) }
        ensures longer { IsPrefix self.old.committed self.new.committed }
    {
        let taken = queue.lock(rt).take_behind(&self.committed);
        match taken {
            Ok((batch, after)) => self.write(batch, after),
            Err(front) => {
                let committed = self.committed.again();
                Err(self.stop(CommitFault::OtherQueue(front, committed)))
            }
        }
    }

    /// Commits all that wait, unless a commit of another has covered what this front has: then it
    /// writes nothing. Answers a front of all that is committed. From a failure on it commits none.
    pub fn commit(
        &mut self,
        rt: &impl Wait,
        queue: &Mutex<ChangeQueue<J>>,
        me: &HistoryFront<J>,
    ) -> Result<HistoryFront<J>, CommitFault<J>>
        ensures told { IfOk result (λ told. (told ≡ self.new.committed) × IsPrefix me.now told) }
        ensures failed { IfErr result (λ fault. HasFailed S.Store fault × IsSome self.new.failed) }
        ensures longer { IsPrefix self.old.committed self.new.committed }
    {
        if self.committed.covers(me) {
            return Ok(self.committed.again());
        }
        self.write_waiting(rt, queue)?;
        let committed = self.committed.again();
        if !committed.covers(me) {
            return Err(self.stop(CommitFault::OtherQueue(me.again(), committed)));
        }
        Ok(committed)
    }

    /// Whether all that a front has is committed. Then whatever a crash leaves has it.
    pub fn keeps(&self, me: &HistoryFront<J>) -> bool
        ensures exact { result ≡ nat_le (length me.now) (length self.now.committed) }
        ensures seen { IsTrue result → IsPrefix me.now self.now.committed }
        ensures left { IsHonest S.Store self.now.rows → LeavesCommitted S.Store J.first self.now }
    {
        self.committed.covers(me)
    }

    /// A front of all that is committed.
    pub fn committed(&self) -> HistoryFront<J>
        ensures { result ≡ self.now.committed }
    {
        self.committed.again()
    }

    /// The store alone. Whatever a crash leaves of it has every change that is committed.
    pub fn into_rows(self) -> RowStore<S>
        ensures same { result ≡ self.rows }
        ensures left { IsHonest S.Store result → (db : Trees) → S.Store.recovers result db
            → IsLeft J.first self.committed self.failed db }
    {
        let StoreKeeper {
            rows,
            committed: _committed,
            failed: _failed,
            alloc: _alloc,
        } = self;
        rows
    }
}
