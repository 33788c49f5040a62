//! Commits of several journals, one after the other.

ghost use Rattle.std.specs.Prelude.{OnErr, OnOk};
ghost use Rattle.shared_journal.specs.Commits.{AreCommitted, HasFailedOne};

use crate::group_journal::GroupJournal;
use journal::LogFault;
use std::sync::Wait;

/// Commits each journal, in order, up to the first that fails.
pub fn commit_each<R: Wait, J: GroupJournal>(rt: &R, journals: &[J]) -> Result<(), LogFault>
    ensures committed { OnOk result (AreCommitted J.committed journals.now) }
    ensures failed { OnErr result (HasFailedOne J.failed journals.now) }
{
    let mut rest = journals;
    'journals: while let Some((first, others)) = rest.split_first() {
        let (_, committed) = first.commit_all(rt);
        committed?;
        rest = others;
    }
    Ok(())
}
