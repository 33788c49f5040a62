//! Which jobs a desk lists.

ghost use Rattle.std.specs.Prelude.{◌≡◌, ◌≤◌, ◌++◌, IfOk, OnOk};
ghost use Rattle.accounts.specs.Listing.{listed_job, listed_state, listing};

use crate::job_list::Jobs;
use crate::jobs::{JobEntry, JobStanding};
use refusal::NoMemory;
use std::alloc::Global;

/// How many jobs are listed at once.
const MOST_LISTED: usize = 1000;

/// How a job stands, as a listing tells it.
#[derive(Clone, Copy, Debug, PartialEq, Eq)]
pub enum ListedState {
    /// It isn't over.
    Open,
    /// It has a report.
    Over,
    /// It failed with the refusal of this number.
    Failed(u8),
}

/// A job that is listed: its number, and how it stands.
#[derive(Clone, Copy, Debug, PartialEq, Eq)]
pub struct ListedJob {
    pub job: u64,
    pub state: ListedState,
}

// How a job stands, without its report.
fn state_of(standing: &JobStanding) -> ListedState
    ensures { result ≡ listed_state standing.now }
{
    match standing {
        JobStanding::Open => ListedState::Open,
        JobStanding::Reported(_) => ListedState::Over,
        JobStanding::Failed(code) => ListedState::Failed(*code),
    }
}

// Lists a job, unless it is nobody's, as a forgotten one is.
#[tactic(auto, using(crate::proofs::Listings::nobodys, crate::proofs::Listings::somebodys))]
fn list_one(found: &mut Vec<ListedJob>, number: u64, entry: &JobEntry) -> Result<(), NoMemory>
    ensures { OnOk result (found.new.items ≡ found.old.items ++ listed_job number entry.now) }
{
    if entry.tenant.is_empty() {
        return Ok(());
    }
    let state = state_of(&entry.standing);
    found.push(ListedJob { job: number, state })?;
    Ok(())
}

/// The jobs from this number on, in order, and without the forgotten ones: the first 1,000 of them.
pub(crate) fn list_jobs(alloc: Global, jobs: &Jobs, from: u64) -> Result<Vec<ListedJob>, NoMemory>
    requires { 1 ≤ from }
    ensures { IfOk result (λ found. found.items ≡ listing jobs.now from) }
{
    let last = jobs.count();
    let mut found = Vec::new(alloc);
    let mut number = from;
    'jobs: while found.len() < MOST_LISTED {
        let here = jobs.kept_from(number);
        let Some(entry) = jobs.entry(here) else {
            return Ok(found);
        };
        list_one(&mut found, here, entry)?;
        if here == last {
            return Ok(found);
        }
        number = here + 1;
    }
    Ok(found)
}
