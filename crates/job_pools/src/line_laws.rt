//! What the counts of lines come to over whole runs.

ghost use Rattle.std.specs.Prelude.{◌≡◌, ◌<◌, ◌≤◌, ℕ, List, slice_index};
ghost use Rattle.job_pools.specs.LineLimiting.{LimitsByLine, line_limit};
ghost use Rattle.job_pools.specs.LineCounting.{LineRuns, count_in_line};
ghost use Rattle.job_pools.specs.declared.line_limited_runner.LineLimitedRunner.{LineLimitedRunner};

use streams::Runner;

/// The count of a line is how many jobs of it are held: those whose start was answered by Ok, and that
/// weren't taken.
pub fn counts_are_held<N: Runner>()
    ensures { (limits : LimitsByLine) (runner : LineLimitedRunner N) (held : List ℕ) (line : ℕ)
        → LineRuns N.starts N.looks N.takes limits runner held → line < 1000
        → slice_index runner.counts line ≡ count_in_line line held }
{}

/// Of a line that has a limit no more jobs are held than that.
pub fn lines_stay_within_limits<N: Runner>()
    ensures { (limits : LimitsByLine) (runner : LineLimitedRunner N) (held : List ℕ) (line : ℕ)
        → LineRuns N.starts N.looks N.takes limits runner held → line < 1000
        → 1 ≤ line_limit limits line → count_in_line line held ≤ line_limit limits line }
{}
