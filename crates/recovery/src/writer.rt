//! A journal's writer: appends records to a log, commits them, and stops at the first failure.

ghost use Rattle.std.specs.Prelude.{◌≡◌, ◌⊎◌, ◌++◌, ◌∷◌, [], ◌^◌, ◌<◌, ℕ, List, length, true, false, OnOk, OnErr, IfOk, IfErr, IsErr, IsErrOf};
ghost use Rattle.journal.specs.Records.{journal_of, record_of, AllFitRecords, FitsRecord};
ghost use Rattle.journal.specs.Logs.{SurvivesCrashBetween};
ghost use Rattle.recovery.specs.declared.fault.RecordFault.TheVariants as record_fault;
ghost use Rattle.recovery.specs.declared.fault.StopFault.TheVariants as stop_fault;
ghost use Rattle.recovery.specs.Crashes.{RecoversPrefix};
ghost use Rattle.recovery.specs.Writers.{WritesHistory};

use crate::fault::{RecordFault, StopFault};
use crate::state_machine::StateChange;
use journal::{Log, cut_anywhere, encode_record};
use std::alloc::Global;

const LONGEST_PAYLOAD: usize = (1 << 32) - 1;

/// A log, and whether it has failed: from then on nothing is written.
#[derive(Drop)]
pub struct JournalWriter<L> {
    log: L,
    stopped: bool,
}

/// The record of a change.
pub fn record_bytes<C: StateChange>(alloc: Global, change: &C) -> Result<Vec<u8>, RecordFault>
    ensures bytes { IfOk result (λ bytes. FitsRecord (C.payload change.now)
        × (bytes.items ≡ record_of (C.payload change.now))) }
    ensures err { IfErr result (λ e. (e ≡ record_fault.NoMemory) ⊎ (e ≡ record_fault.TooLarge)) }
    ensures too_large { IsErrOf result record_fault.TooLarge
        → FitsRecord (C.payload change.now) → ⊥ }
{
    let mut payload = Vec::new(alloc);
    if change.encode(&mut payload).is_err() {
        return Err(RecordFault::NoMemory);
    }
    if payload.len() > LONGEST_PAYLOAD {
        return Err(RecordFault::TooLarge);
    }
    let mut bytes = Vec::new(alloc);
    if encode_record(&mut bytes, &payload).is_err() {
        return Err(RecordFault::NoMemory);
    }
    Ok(bytes)
}

impl<L: Log> JournalWriter<L> {
    /// A writer over a log that holds these records and nothing else.
    pub fn over(log: L) -> JournalWriter<L>
        ensures records { (history : List (List ℕ)) → AllFitRecords history
            → L.state log ≡ record { durable = journal_of history; pending = [] }
            → WritesHistory L.state history (length history) result }
        ensures goes_on { result.stopped ≡ false }
    {
        JournalWriter {
            log,
            stopped: false,
        }
    }

    /// The log.
    pub fn into_log(self) -> L
        ensures { result ≡ self.log }
    {
        let JournalWriter { log, .. } = self;
        log
    }

    /// Whether it has stopped.
    pub fn has_stopped(&self) -> bool
        ensures { result ≡ self.now.stopped }
    {
        self.stopped
    }

    /// Adds a record to the log. It is durable once it is committed.
    ///
    /// After an error the log may have it or not, and no call answers `Ok` again.
    pub fn append(&mut self, bytes: &[u8]) -> Result<(), StopFault>
        ensures appended { (history : List (List ℕ)) (committed : ℕ) (payload : List ℕ)
            → WritesHistory L.state history committed self.old → FitsRecord payload
            → bytes.now ≡ record_of payload
            → OnOk result (WritesHistory L.state (history ++ payload ∷ []) committed self.new) }
        ensures failed { (history : List (List ℕ)) (committed : ℕ) (payload : List ℕ)
            → WritesHistory L.state history committed self.old → FitsRecord payload
            → bytes.now ≡ record_of payload → self.old.stopped ≡ false
            → OnErr result (WritesHistory L.state (history ++ payload ∷ []) committed self.new) }
        ensures goes_on { OnOk result (self.new.stopped ≡ false) }
        ensures stops { OnErr result (self.new.stopped ≡ true) }
        ensures stopped { self.old.stopped ≡ true
            → IsErr result × (self.new ≡ self.old) }
        ensures log_failed { IsErrOf result stop_fault.LogFailed
            → L.fails self.old.log self.new.log }
        ensures only_stopped { IsErrOf result stop_fault.Stopped → self.old.stopped ≡ true }
        // A crash at any moment of the call leaves the committed changes, and then more in order.
        ensures any_moment { (history : List (List ℕ)) (committed : ℕ) (payload left : List ℕ)
            → WritesHistory L.state history committed self.old → FitsRecord payload
            → bytes.now ≡ record_of payload
            → SurvivesCrashBetween (L.state self.old.log) (L.state self.new.log) left
            → RecoversPrefix left (history ++ payload ∷ []) committed }
    {
        cut_anywhere();
        if self.stopped {
            return Err(StopFault::Stopped);
        }
        match self.log.append(bytes) {
            Ok(()) => Ok(()),
            Err(_) => {
                self.stopped = true;
                Err(StopFault::LogFailed)
            }
        }
    }

    /// Makes all that was appended durable. After an error no call answers `Ok` again.
    pub fn commit(&mut self) -> Result<(), StopFault>
        ensures committed { (history : List (List ℕ)) (committed : ℕ)
            → WritesHistory L.state history committed self.old
            → OnOk result (WritesHistory L.state history (length history) self.new) }
        ensures failed { (history : List (List ℕ)) (committed : ℕ)
            → WritesHistory L.state history committed self.old
            → OnErr result (WritesHistory L.state history committed self.new) }
        ensures goes_on { OnOk result (self.new.stopped ≡ false) }
        ensures stops { OnErr result (self.new.stopped ≡ true) }
        ensures stopped { self.old.stopped ≡ true → IsErr result × (self.new ≡ self.old) }
        ensures log_failed { IsErrOf result stop_fault.LogFailed
            → L.fails self.old.log self.new.log }
        ensures only_stopped { IsErrOf result stop_fault.Stopped → self.old.stopped ≡ true }
        ensures any_moment { (history : List (List ℕ)) (committed : ℕ) (left : List ℕ)
            → WritesHistory L.state history committed self.old
            → SurvivesCrashBetween (L.state self.old.log) (L.state self.new.log) left
            → RecoversPrefix left history committed }
    {
        cut_anywhere();
        if self.stopped {
            return Err(StopFault::Stopped);
        }
        match self.log.sync() {
            Ok(()) => Ok(()),
            Err(_) => {
                self.stopped = true;
                Err(StopFault::LogFailed)
            }
        }
    }
}
