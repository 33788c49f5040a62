//! A state machine with its journal, and the changes that it takes.

ghost use Rattle.std.specs.Prelude.{◌≡◌, ◌≢◌, ◌++◌, ◌∷◌, [], ℕ, List, length, true, false, OnOk, OnErr, IfErr, IsErr, IsErrOf};
ghost use Rattle.journal.specs.Records.{journal_of, AllFitRecords, FitsRecord};
ghost use Rattle.journal.specs.Logs.{SurvivesCrashBetween};
ghost use Rattle.recovery.specs.declared.fault.RecordFault.TheVariants as record_fault;
ghost use Rattle.recovery.specs.declared.fault.StopFault.TheVariants as stop_fault;
ghost use Rattle.recovery.specs.declared.state_machine.ApplyFault.TheVariants as apply_fault;
ghost use Rattle.recovery.specs.Histories.{IsAfter};
ghost use Rattle.recovery.specs.Crashes.{RecoversPrefix};
ghost use Rattle.recovery.specs.Journals.{IsJournaled};

use crate::fault::{RecordFault, StopFault};
use crate::state_machine::StateMachine;
use crate::writer::{JournalWriter, record_bytes};
use journal::{Log, cut_anywhere};
use std::alloc::Global;

/// A state machine, and the log of the changes that it applied.
#[derive(Drop)]
pub struct Journaled<M, L> {
    machine: M,
    writer: JournalWriter<L>,
}

impl<M: StateMachine, L: Log> Journaled<M, L> {
    /// Goes on from a recovered state machine, and a log that holds the records it came from.
    pub fn resume(machine: M, log: L) -> Journaled<M, L>
        ensures journaled { (history : List (List ℕ)) → AllFitRecords history
            → IsAfter M.starts M.steps history machine
            → L.state log ≡ record { durable = journal_of history; pending = [] }
            → IsJournaled M.starts M.steps L.state history (length history) result }
        ensures machine { result.machine ≡ machine }
        ensures goes_on { result.writer.stopped ≡ false }
    {
        let writer = JournalWriter::over(log);
        Journaled { machine, writer }
    }

    /// The state machine, with what isn't committed yet.
    pub fn machine(&self) -> &M
        ensures { result.now ≡ self.now.machine }
    {
        &self.machine
    }

    /// The state machine and the log.
    pub fn into_parts(self) -> (M, L)
        ensures { (result.0 ≡ self.machine) × (result.1 ≡ self.writer.log) }
    {
        let Journaled { machine, writer } = self;
        (machine, writer.into_log())
    }

    /// Applies a change and adds its record to the log. It is durable once it is committed.
    ///
    /// After `LogFailed` the log may have the record or not, and nothing is recorded or committed
    /// any more. After any other error all is unchanged.
    pub fn record(&mut self, alloc: Global, change: &M::StateChange) -> Result<(), RecordFault>
        ensures recorded { (history : List (List ℕ)) (committed : ℕ)
            → IsJournaled M.starts M.steps L.state history committed self.old
            → OnOk result (IsJournaled M.starts M.steps L.state
            (history ++ M.StateChange.payload change.now ∷ []) committed self.new) }
        ensures failed { (history : List (List ℕ)) (committed : ℕ)
            → IsJournaled M.starts M.steps L.state history committed self.old
            → IsErrOf result record_fault.LogFailed → IsJournaled M.starts M.steps L.state
            (history ++ M.StateChange.payload change.now ∷ []) committed self.new }
        ensures unchanged { IfErr result (λ e. e ≢ record_fault.LogFailed → self.new ≡ self.old) }
        ensures too_large { IsErrOf result record_fault.TooLarge
            → FitsRecord (M.StateChange.payload change.now) → ⊥ }
        ensures refused { IsErrOf result (record_fault.NotApplied apply_fault.Refused)
            → M.refuses self.old.machine (M.StateChange.payload change.now) }
        ensures log_failed { IsErrOf result record_fault.LogFailed
            → L.fails self.old.writer.log self.new.writer.log }
        ensures only_stopped { IsErrOf result record_fault.Stopped
            → self.old.writer.stopped ≡ true }
        ensures goes_on { OnOk result (self.new.writer.stopped ≡ false) }
        ensures stops { IsErrOf result record_fault.LogFailed → self.new.writer.stopped ≡ true }
        ensures stopped { self.old.writer.stopped ≡ true → IsErr result × (self.new ≡ self.old) }
        // A crash at any moment of the call leaves the committed changes, and then more in order.
        ensures any_moment { (history : List (List ℕ)) (committed : ℕ) (left : List ℕ)
            → IsJournaled M.starts M.steps L.state history committed self.old
            → SurvivesCrashBetween (L.state self.old.writer.log)
            (L.state self.new.writer.log) left
            → RecoversPrefix left (history ++ M.StateChange.payload change.now ∷ []) committed }
    {
        cut_anywhere();
        if self.writer.has_stopped() {
            return Err(RecordFault::Stopped);
        }
        let bytes = match record_bytes(alloc, change) {
            Ok(bytes) => bytes,
            Err(fault) => return Err(fault),
        };
        match self.machine.apply(alloc, change) {
            Ok(()) => {}
            Err(fault) => return Err(RecordFault::NotApplied(fault)),
        }
        match self.writer.append(&bytes) {
            Ok(()) => Ok(()),
            Err(_) => Err(RecordFault::LogFailed),
        }
    }

    /// Makes all that was recorded durable. After an error no call answers `Ok` again.
    pub fn commit(&mut self) -> Result<(), StopFault>
        ensures committed { (history : List (List ℕ)) (committed : ℕ)
            → IsJournaled M.starts M.steps L.state history committed self.old
            → OnOk result (IsJournaled M.starts M.steps L.state history (length history) self.new) }
        ensures failed { (history : List (List ℕ)) (committed : ℕ)
            → IsJournaled M.starts M.steps L.state history committed self.old
            → OnErr result (IsJournaled M.starts M.steps L.state history committed self.new) }
        ensures machine { self.new.machine ≡ self.old.machine }
        ensures log_failed { IsErrOf result stop_fault.LogFailed
            → L.fails self.old.writer.log self.new.writer.log }
        ensures only_stopped { IsErrOf result stop_fault.Stopped
            → self.old.writer.stopped ≡ true }
        ensures goes_on { OnOk result (self.new.writer.stopped ≡ false) }
        ensures stops { OnErr result (self.new.writer.stopped ≡ true) }
        ensures stopped { self.old.writer.stopped ≡ true → IsErr result × (self.new ≡ self.old) }
        ensures any_moment { (history : List (List ℕ)) (committed : ℕ) (left : List ℕ)
            → IsJournaled M.starts M.steps L.state history committed self.old
            → SurvivesCrashBetween (L.state self.old.writer.log)
            (L.state self.new.writer.log) left
            → RecoversPrefix left history committed }
    {
        self.writer.commit()
    }
}
