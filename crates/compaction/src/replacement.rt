//! The four calls by which one journal takes another's place.

ghost use Rattle.std.specs.Prelude.{◌≡◌, ◌++◌, ◌⊎◌, ℕ, List, OnOk, OnErr, IsErrOf};
ghost use Rattle.compaction.specs.Files.{MayLeave, SomeLeaves, KeepsOldJournal, HasNewJournal};
ghost use Rattle.compaction.specs.declared.replacement.ReplaceFault.TheVariants as replace_fault;

use crate::files::JournalFiles;

/// Why a journal was not replaced.
#[derive(Clone, Copy, Debug, PartialEq, Eq)]
pub enum ReplaceFault {
    /// A call failed, and the journal is the old one.
    Kept,
    /// A call failed, and a crash may leave either journal. Neither may be written to.
    Unknown,
}

/// Puts a new file in the place of the journal: writes these bytes behind what it has, syncs it,
/// renames it over the journal, and syncs the folder.
///
/// A crash at any moment leaves the old journal or the new one, whole. The new file may have been
/// written while the journal stood: the bytes are what it still lacks.
pub fn replace_journal<F: JournalFiles>(files: &mut F, bytes: &[u8]) -> Result<(), ReplaceFault>
    ensures replaced { (journal : List ℕ) → KeepsOldJournal journal (F.moments files.old)
        → OnOk result (HasNewJournal ((F.moments files.old).now.beside ++ bytes.now)
        (F.moments files.new)) }
    ensures kept { (journal : List ℕ) → KeepsOldJournal journal (F.moments files.old)
        → IsErrOf result replace_fault.Kept → KeepsOldJournal journal (F.moments files.new) }
    ensures any_moment { (journal left : List ℕ) → KeepsOldJournal journal (F.moments files.old)
        → ((l : List ℕ) → SomeLeaves (F.moments files.old).earlier l → l ≡ journal)
        → MayLeave (F.moments files.new) left
        → (left ≡ journal) ⊎ (left ≡ (F.moments files.old).now.beside ++ bytes.now) }
    ensures failed { OnErr result ((before : F) × F.fails before files.new) }
{
    if files.write(bytes).is_err() {
        return Err(ReplaceFault::Kept);
    }
    if files.sync().is_err() {
        return Err(ReplaceFault::Kept);
    }
    if files.rename().is_err() {
        return Err(ReplaceFault::Unknown);
    }
    if files.sync_folder().is_err() {
        return Err(ReplaceFault::Unknown);
    }
    Ok(())
}
