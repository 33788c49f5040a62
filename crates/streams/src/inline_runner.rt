//! A runner that plays each job at its start.

use crate::Runner;
use credit_book::{Progress, Report};
use job_core::{Job, play_lowest};
use refusal::NoMemory;
use std::alloc::Global;
use std::collections::BTreeMap;

/// Plays each job at its start, in the caller's thread, always the live task of lowest number next.
/// Its reports are kept until they are taken.
#[derive(Drop)]
pub struct InlineRunner {
    finished: BTreeMap<u64, Report>,
}

impl InlineRunner {
    ghost use Rattle.std.specs.Prelude.{◌≡◌, []};

    /// A runner that holds no job.
    pub fn new(alloc: Global) -> InlineRunner
        ensures { result.finished.entries ≡ [] }
    {
        InlineRunner {
            finished: BTreeMap::new(alloc),
        }
    }
}

impl Runner for InlineRunner {
    ghost use Rattle.std.specs.Prelude.{◌≡◌, false};
    ghost use Rattle.std.specs.BTreeMap.{btree_map_len};
    ghost use Rattle.credit_book.specs.declared.board.Progress.{Progress};
    ghost use Rattle.streams.specs.Inline.{StartsInline, TakesInline};

    ghost held = { λ r. btree_map_len r.finished };

    ghost ready = { λ _. Unit {0} };

    ghost starts = { λ r number job result s.
        StartsInline r.finished.entries number job result s.finished.entries };

    ghost looks = { λ r _ progress s.
        (progress ≡ record { spent = 0; returned = 0; complete = false })
        × (s.finished.entries ≡ r.finished.entries) };

    ghost takes = { λ r result s. TakesInline r.finished.entries result s.finished.entries };

    fn start(&mut self, alloc: Global, number: u64, job: Job) -> Result<(), u8> {
        let report = match play_lowest(alloc, job) {
            Ok(report) => report,
            Err(NoMemory) => return Err(99),
        };
        match self.finished.insert(number, report) {
            Ok(_) => Ok(()),
            Err(_) => Err(99),
        }
    }

    fn look(&mut self, _number: u64) -> Progress {
        Progress {
            spent: 0,
            returned: 0,
            complete: false,
        }
    }

    fn take(&mut self) -> Option<(u64, Result<Report, u8>)> {
        let (number, report) = self.finished.pop_first()?;
        Some((number, Ok(report)))
    }
}
