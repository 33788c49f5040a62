//! The records of a desk's changes, as they are put into a queue.

ghost use Rattle.std.specs.Prelude.{◌≡◌, List, [], IfOk, true, false};
ghost use Rattle.accounts.specs.Ledgers.{Ledger};
ghost use Rattle.sessions.specs.declared.job_key.KeyedJob.{KeyedJob};
ghost use Rattle.desk_recorder.specs.Recording.{IsChangeRecord, IsRecorded};

use crate::record_queue::RecordQueue;
use recovery::RecordFault;
use refusal::NoMemory;
use streams::Noted;

/// Puts the records of changes into a queue. Once one is missing it has stopped: the queue has no
/// later ones, and is told so.
#[derive(Drop)]
pub struct ChangeRecorder<Q> {
    pub(crate) queue: Q,
    pub(crate) is_stopped: bool,
    pub(crate) has_changed: bool,
}

impl<Q: RecordQueue> ChangeRecorder<Q> {
    /// A recorder that goes on. It has noted that the desk may have changed.
    pub fn new(queue: Q) -> ChangeRecorder<Q>
        ensures { (result.queue ≡ queue) × (result.is_stopped ≡ false)
            × (result.has_changed ≡ true) }
    {
        ChangeRecorder {
            queue,
            is_stopped: false,
            has_changed: true,
        }
    }

    /// Notes that nothing has changed yet.
    pub fn begin(&mut self)
        ensures same { (self.new.queue ≡ self.old.queue)
            × (self.new.is_stopped ≡ self.old.is_stopped) }
        ensures unchanged { self.new.has_changed ≡ false }
    {
        self.has_changed = false;
    }

    /// Makes room for a record of so many bytes.
    pub fn reserve(&mut self, len: usize) -> Result<(), NoMemory>
        ensures { (desk : Ledger) → IsRecorded Q.taken Q.has_failed self.old self.new desk desk [] }
    {
        if self.is_stopped {
            return Ok(());
        }
        self.queue.reserve(len)
    }

    /// Takes the record of a change that was made, or stops where there is none.
    pub fn note(&mut self, made: Result<Vec<u8>, RecordFault>)
        ensures { (old new : Ledger) (keyed : List KeyedJob)
            → IfOk made (λ bytes. IsChangeRecord bytes.items old new keyed)
            → IsRecorded Q.taken Q.has_failed self.old self.new old new keyed }
    {
        self.has_changed = true;
        if self.is_stopped {
            return;
        }
        match made {
            Ok(bytes) => self.put(&bytes),
            Err(_) => self.stop(),
        }
    }

    // Puts the record of a change into the queue, or stops where that finds no memory.
    fn put(&mut self, bytes: &[u8])
        requires going { self.old.is_stopped ≡ false }
        requires changed { self.old.has_changed ≡ true }
        ensures { (old new : Ledger) (keyed : List KeyedJob)
            → IsChangeRecord bytes.now old new keyed
            → IsRecorded Q.taken Q.has_failed self.old self.new old new keyed }
    {
        match self.queue.add(bytes) {
            Ok(()) => {}
            Err(NoMemory) => self.stop(),
        }
    }

    // Records nothing from now on, and tells the queue so.
    fn stop(&mut self)
        ensures stopped { self.new.is_stopped ≡ true }
        ensures changed { self.new.has_changed ≡ self.old.has_changed }
        ensures failed { Q.has_failed self.new.queue }
    {
        self.is_stopped = true;
        self.queue.fail();
    }
}

/// A note covers the records that it has put into its queue.
impl<M, Q: RecordQueue + Noted<M>> Noted<M> for ChangeRecorder<Q> {
    ghost covers = { λ place note r. Q.covers place note r.queue };

    fn note(&mut self, place: usize, into: &mut M) {
        self.queue.note(place, into);
    }
}
