//! Jobs by their numbers, of which the forgotten ones take no room.

ghost use Rattle.std.specs.Prelude.{◌≡◌, ◌≢◌, ◌≤◌, ◌<◌, ◌+◌, ℕ, IfNone, IfOk, IfSome, None, Ok, OnErr, OnOk, Some, false, true};
ghost use Rattle.std.specs.BTreeMap as tree;
ghost use Rattle.std.specs.Ordering.{nat_cmp};
ghost use Rattle.accounts.specs.declared.jobs.JobEntry.{JobEntry};
ghost use Rattle.credit_book.specs.declared.book.Report.{Report};
ghost use Rattle.accounts.specs.Forgetting.{ForgetsJobs};
ghost use Rattle.accounts.specs.Jobs.{report_of};
ghost use Rattle.accounts.specs.Limits.{Exceeds, IsKeptWithin, bytes_in};
ghost use Rattle.accounts.specs.Numbered.{AreAllOpen, IsOldest, IsSound, jobs_numbered, entry_at, most_jobs};

use crate::jobs::{JobEntry, JobStanding};
use crate::keep_limits::KeepLimits;
use crate::kept_report::SharedReport;
use refusal::NoMemory;
use std::alloc::{AllocError, Global};
use std::collections::BTreeMap;

/// The most jobs that a desk takes.
pub(crate) const MOST_JOBS: u64 = 72_057_594_037_927_936;

/// How many jobs there are, the bytes that their reports hold, the entry in the place of each
/// forgotten one, and the others by their numbers, of which the first is 1.
#[derive(Drop)]
pub struct KeptJobs {
    pub(crate) count: u64,
    pub(crate) held: u128,
    pub(crate) gone: JobEntry,
    pub(crate) kept: BTreeMap<u64, JobEntry>,
}

// The first job that is over.
fn oldest_over(kept: &BTreeMap<u64, JobEntry>) -> Option<u64>
    ensures some { IfSome result (λ number. IsOldest (tree.get nat_cmp kept.now) number) }
    ensures none { IfNone result (AreAllOpen (tree.get nat_cmp kept.now)) }
{
    for (number, entry) in kept {
        if !entry.standing.is_open() {
            return Some(*number);
        }
    }
    None
}

// Whether a job that is over has to be forgotten: of so many jobs, whose reports hold so much.
fn exceeds(limits: KeepLimits, number: u64, count: u64, held: u128) -> bool
    requires { number ≤ count }
    ensures yes { result ≡ true → Exceeds limits number count held }
    ensures no { result ≡ false → Exceeds limits number count held → ⊥ }
{
    if limits.jobs > 0 {
        if count - number >= u64::from(limits.jobs) {
            return true;
        }
    }
    if limits.bytes > 0 {
        if held > u128::from(limits.bytes) {
            return true;
        }
    }
    false
}

/// Puts a job under its number.
pub(crate) fn put_job(
    kept: &mut BTreeMap<u64, JobEntry>,
    number: u64,
    entry: JobEntry,
) -> Result<(), AllocError>
    ensures here { OnOk result (tree.get nat_cmp kept.new number ≡ Some entry) }
    ensures others { OnOk result ((n : ℕ) → n ≢ number
        → tree.get nat_cmp kept.new n ≡ tree.get nat_cmp kept.old n) }
    ensures same { OnErr result (kept.new.entries ≡ kept.old.entries) }
{
    match kept.insert(number, entry) {
        Ok(_) => Ok(()),
        Err(_) => Err(AllocError),
    }
}

/// Notes how a job stands.
pub(crate) fn put_standing(kept: &mut BTreeMap<u64, JobEntry>, number: u64, standing: JobStanding)
    requires { (entry : JobEntry) × (tree.get nat_cmp kept.old number ≡ Some entry) }
    ensures here { (entry : JobEntry) → tree.get nat_cmp kept.old number ≡ Some entry
        → tree.get nat_cmp kept.new number ≡ Some (record entry { standing = standing }) }
    ensures others { (n : ℕ) → n ≢ number
        → tree.get nat_cmp kept.new n ≡ tree.get nat_cmp kept.old n }
{
    match kept.get_mut(&number) {
        Some(entry) => {
            entry.standing = standing;
        }
        None => unreachable!(),
    }
}

/// The report of a job that has one, for one holder more. 99 where there was no memory.
pub(crate) fn share_report(
    alloc: Global,
    kept: &mut BTreeMap<u64, JobEntry>,
    number: u64,
) -> Result<SharedReport, NoMemory>
    requires { (entry : JobEntry) × (tree.get nat_cmp kept.old number ≡ Some entry)
        × ((report : Report) × (report_of entry.standing ≡ Ok report)) }
    ensures shared { IfOk result (λ report. (entry : JobEntry)
        → tree.get nat_cmp kept.old number ≡ Some entry → report_of entry.standing ≡ Ok report) }
    ensures same { (n : ℕ) → tree.get nat_cmp kept.new n ≡ tree.get nat_cmp kept.old n }
{
    match kept.get_mut(&number) {
        Some(entry) => entry.standing.share(alloc),
        None => unreachable!(),
    }
}

impl KeptJobs {
    /// The number of the first job from this one on that isn't forgotten. Where there is none, a number
    /// that no job has.
    pub(crate) fn kept_from(&self, number: u64) -> u64
        requires few { self.now.count ≤ most_jobs }
        ensures later { number ≤ result }
        ensures gone { (n : ℕ) → number ≤ n → n < result → entry_at self.now n ≡ None }
    {
        match self.kept.range(number..).next() {
            Some((first, _)) => *first,
            None => number.max(self.count + 1),
        }
    }

    // Forgets a job.
    fn forget_one(&mut self, number: u64)
        requires there { (entry : JobEntry) × (tree.get nat_cmp self.old.kept number ≡ Some entry)
            × (bytes_in entry.standing ≤ self.old.held) }
        ensures count { self.new.count ≡ self.old.count }
        ensures gone { self.new.gone ≡ self.old.gone }
        ensures here { tree.get nat_cmp self.new.kept number ≡ None }
        ensures others { (n : ℕ) → n ≢ number
            → tree.get nat_cmp self.new.kept n ≡ tree.get nat_cmp self.old.kept n }
        ensures held { (entry : JobEntry) → tree.get nat_cmp self.old.kept number ≡ Some entry
            → self.new.held + bytes_in entry.standing ≡ self.old.held }
        ensures fewer { tree.btree_map_len self.new.kept + 1 ≡ tree.btree_map_len self.old.kept }
    {
        match self.kept.remove(&number) {
            Some(entry) => {
                self.held -= entry.standing.held_bytes();
            }
            None => unreachable!(),
        }
    }

    /// Forgets each of the first so many jobs that is over.
    pub(crate) fn forget(&mut self, ahead: u64)
        requires { IsSound self.old }
        ensures sound { IsSound self.new }
        ensures forgets { ForgetsJobs (jobs_numbered self.old) ahead (jobs_numbered self.new) }
    {
        while let Some(number) = oldest_over(&self.kept) {
            if number > ahead {
                return;
            }
            self.forget_one(number);
        }
    }

    /// Forgets jobs that are over, the first ones first, until the others are within the limits.
    /// Answers the number of the last one that it forgot, or 0.
    pub(crate) fn keep_within(&mut self, limits: KeepLimits) -> u64
        requires { IsSound self.old }
        ensures sound { IsSound self.new }
        ensures forgets { ForgetsJobs (jobs_numbered self.old) result (jobs_numbered self.new) }
        ensures within { IsKeptWithin limits (jobs_numbered self.old) result (jobs_numbered self.new) }
    {
        let mut ahead = 0;
        while let Some(number) = oldest_over(&self.kept) {
            if !exceeds(limits, number, self.count, self.held) {
                return ahead;
            }
            self.forget_one(number);
            ahead = number;
        }
        ahead
    }
}
