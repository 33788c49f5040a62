//! Threads that add changes to one store, and commit them.

ghost use Rattle.std.specs.Prelude.{◌≡◌, IfErr, IfOk, Some, slice_get};
ghost use mathlib.Core.List.{IsPrefix};
ghost use Rattle.desk_store.specs.RowStores.{IsHonest};
ghost use Rattle.desk_records.specs.declared.stored_change.StoredChange.{StoredChange};
ghost use Rattle.shared_store.specs.Faults.{HasFailed, MayRefuse};
ghost use Rattle.shared_store.specs.Sharing.{FailsToShare};
ghost use Rattle.shared_store.specs.Keeping.{IsSettledAt, LeavesCommitted};

use crate::change_queue::{AddFault, ChangeQueue};
use crate::commit_fault::CommitFault;
use crate::history::{EmptyHistory, HistoryFront, HistoryName, HistoryWord};
use crate::share_fault::ShareFault;
use crate::store_keeper::StoreKeeper;
use desk_records::StoredChange;
use desk_store::RowStore;
use sqlite_trees::store::Store;
use std::alloc::Global;
use std::sync::{Mutex, Wait};
use std::thread::{Threads, join};

/// Adds a change from any thread. Answers a front of all that was added by then, whose last change
/// is this one, and its number.
pub fn add_change<J: HistoryName>(
    rt: &impl Wait,
    word: &HistoryWord<J>,
    queue: &Mutex<ChangeQueue<J>>,
    change: StoredChange,
) -> Result<(HistoryFront<J>, u64), AddFault<J>>
    ensures added { IfOk result (λ added. slice_get added.0 added.1 ≡ Some change) }
    ensures refused { IfErr result MayRefuse }
{
    let mut held = queue.lock(rt);
    let number = held.added().len();
    held.add(word, change)?;
    Ok((held.added().again(), number))
}

/// Commits all that a front has, from any thread, or finds that a commit of another has covered it.
/// Answers a front of all that is committed.
pub fn commit_changes<S: Store, J: HistoryName>(
    rt: &impl Wait,
    keeper: &Mutex<StoreKeeper<S, J>>,
    queue: &Mutex<ChangeQueue<J>>,
    me: &HistoryFront<J>,
) -> Result<HistoryFront<J>, CommitFault<J>>
    ensures told { IfOk result (λ told. IsPrefix me.now told) }
    ensures failed { IfErr result (HasFailed S.Store) }
{
    keeper.lock(rt).commit(rt, queue, me)
}

// Adds a change and commits it. Answers a front of all that is committed, with its number there.
fn add_and_commit<S: Store, J: HistoryName>(
    rt: &impl Wait,
    word: &HistoryWord<J>,
    keeper: &Mutex<StoreKeeper<S, J>>,
    queue: &Mutex<ChangeQueue<J>>,
    change: StoredChange,
) -> Result<(HistoryFront<J>, u64), ShareFault<J>>
    ensures told { IfOk result (λ told. slice_get told.0 told.1 ≡ Some change) }
    ensures failed { IfErr result (FailsToShare S.Store) }
{
    match add_change(rt, word, queue, change) {
        Ok((added, number)) => match commit_changes(rt, keeper, queue, &added) {
            Ok(told) => Ok((told, number)),
            Err(fault) => Err(ShareFault::Commit(fault)),
        },
        Err(fault) => Err(ShareFault::Add(fault)),
    }
}

// The keeper, if all that two threads were told is committed.
fn told<S: Store + Drop, J: HistoryName>(
    keeper: StoreKeeper<S, J>,
    one: (HistoryFront<J>, u64),
    two: (HistoryFront<J>, u64),
) -> Result<(StoreKeeper<S, J>, u64, u64), ShareFault<J>>
    ensures stand { IfOk result (λ r. (first second : StoredChange)
        → slice_get one.0 one.1 ≡ Some first → slice_get two.0 two.1 ≡ Some second
        → (slice_get r.0.committed r.1 ≡ Some first)
        × (slice_get r.0.committed r.2 ≡ Some second)) }
    ensures left { IfOk result (λ r. IsHonest S.Store r.0.rows
        → LeavesCommitted S.Store J.first r.0) }
    ensures failed { IfErr result (FailsToShare S.Store) }
{
    let (one, a) = one;
    let (two, b) = two;
    if !keeper.keeps(&one) {
        return Err(ShareFault::Lost(one, keeper.committed()));
    }
    if !keeper.keeps(&two) {
        return Err(ShareFault::Lost(two, keeper.committed()));
    }
    Ok((keeper, a, b))
}

/// Two threads add a change each, and commit. What both were told stands in one history of what is
/// committed, each at its number, and whatever a crash leaves has the whole history.
pub fn commit_both<S: Store + Drop + Send, J: HistoryName + Send + Sync, R: Threads + Wait + Sync>(
    rt: &R,
    alloc: Global,
    opened: EmptyHistory,
    rows: RowStore<S>,
    first: StoredChange,
    second: StoredChange,
) -> Result<(StoreKeeper<S, J>, u64, u64), ShareFault<J>>
    requires book { opened.seen.book ≡ J.book }
    requires settled { IsHonest S.Store rows → IsSettledAt S.Store J.first rows }
    ensures stand { IfOk result (λ r. (slice_get r.0.committed r.1 ≡ Some first)
        × (slice_get r.0.committed r.2 ≡ Some second)) }
    ensures left { IfOk result (λ r. IsHonest S.Store r.0.rows
        → LeavesCommitted S.Store J.first r.0) }
    ensures failed { IfErr result (FailsToShare S.Store) }
{
    let (word, front) = opened.named::<J>();
    let queue = Mutex::new(ChangeQueue::new(alloc, front.again()));
    let keeper = Mutex::new(StoreKeeper::new(alloc, rows, front));
    let (a, b) = join(
        rt,
        || -> Result<(HistoryFront<J>, u64), ShareFault<J>>
            ensures told { IfOk result (λ r. slice_get r.0 r.1 ≡ Some first) }
            ensures failed { IfErr result (FailsToShare S.Store) }
        { add_and_commit(rt, &word, &keeper, &queue, first) },
        || -> Result<(HistoryFront<J>, u64), ShareFault<J>>
            ensures told { IfOk result (λ r. slice_get r.0 r.1 ≡ Some second) }
            ensures failed { IfErr result (FailsToShare S.Store) }
        { add_and_commit(rt, &word, &keeper, &queue, second) },
    );
    let one = a?;
    let two = b?;
    told(keeper.into_inner(), one, two)
}
