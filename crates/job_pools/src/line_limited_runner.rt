//! A runner that holds no more jobs of one line of numbers than a host allows.

ghost use Rattle.std.specs.Prelude.{◌≡◌, ◌<◌, ◌+◌, IfSome, IfNone, slice_index};
ghost use Rattle.job_pools.specs.LineLimiting.{IsLineFull, number_line};

use crate::limited_runner::is_full;
use crate::line_counts::LineCounts;
use crate::line_limits::LineLimits;
use credit_book::{Progress, Report};
use job_core::Job;
use refusal::NoMemory;
use std::alloc::Global;
use streams::Runner;

/// Refuses each start by 81 while as many jobs of the number's line are held as that line's limit
/// allows. All else is the runner's own. A tenant's jobs are a line, by the place of its desk.
#[derive(Drop)]
pub struct LineLimitedRunner<N> {
    runner: N,
    limits: LineLimits,
    counts: LineCounts,
}

impl<N: Drop> LineLimitedRunner<N> {
    ghost use Rattle.std.specs.Prelude.{◌≡◌, IfOk};
    ghost use Rattle.job_pools.specs.LineBounded.{new_by_line};

    /// A runner that holds no job, with a limit for each line.
    pub fn new(
        alloc: Global,
        runner: N,
        limits: LineLimits,
    ) -> Result<LineLimitedRunner<N>, NoMemory>
        ensures { IfOk result (λ new. new ≡ new_by_line limits runner) }
    {
        let Ok(counts) = LineCounts::new(alloc) else {
            return Err(NoMemory);
        };
        Ok(LineLimitedRunner {
            runner,
            limits,
            counts,
        })
    }
}

// The line of a number.
fn line_of(number: u64) -> usize
    ensures line { result ≡ number_line number }
    ensures within { result < 1000 }
{
    (number % 1000) as usize
}

// How many jobs of a line are held with one more; none where it may hold no more.
fn with_one_more(limits: &LineLimits, counts: &LineCounts, line: usize) -> Option<u64>
    requires { line < 1000 }
    ensures room { IfSome result (λ more. (more ≡ slice_index counts.now line + 1)
        × (IsLineFull limits.now counts.now line → ⊥)) }
    ensures full { IfNone result (IsLineFull limits.now counts.now line) }
{
    let held = counts.at(line);
    if is_full(limits.at(line), held) {
        return None;
    }
    held.checked_add(1)
}

impl<N: Runner> Runner for LineLimitedRunner<N> {
    ghost use Rattle.job_pools.specs.LineBounded.{looks_by_line, starts_by_line, takes_by_line};

    ghost held = { λ l. N.held l.runner };

    ghost ready = { λ l. N.ready l.runner };

    ghost starts = { starts_by_line N.starts };

    ghost looks = { looks_by_line N.looks };

    ghost takes = { takes_by_line N.takes };

    fn start(&mut self, alloc: Global, number: u64, job: Job) -> Result<(), u8> {
        let line = line_of(number);
        let Some(more) = with_one_more(&self.limits, &self.counts, line) else {
            return Err(81);
        };
        match self.runner.start(alloc, number, job) {
            Ok(()) => {
                self.counts.set(line, more);
                Ok(())
            }
            Err(code) => Err(code),
        }
    }

    fn look(&mut self, number: u64) -> Progress {
        self.runner.look(number)
    }

    fn take(&mut self) -> Option<(u64, Result<Report, u8>)> {
        match self.runner.take() {
            Some((number, outcome)) => {
                let line = line_of(number);
                self.counts
                    .set(line, self.counts.at(line).saturating_sub(1));
                Some((number, outcome))
            }
            None => None,
        }
    }
}
