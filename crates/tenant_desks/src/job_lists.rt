//! The jobs that a door lists.

ghost use Rattle.std.specs.Prelude.{◌≡◌, ◌≤◌, IfOk};
ghost use Rattle.tenant_desks.specs.JobLists as lists;

use crate::desks::TenantDesks;
use crate::routing::place_behind;
use crate::tenant_handler::refuse;
use accounts::Desk;
use refusal::NoMemory;
use sessions::{KeyedJob, Reply};
use shared_desk::Door;
use std::alloc::Global;
use streams::PendingReply;

// The number of the refusal of a door that has no desk here.
const NO_TENANT: u8 = 74;

// The first number that there is from here on.
#[tactic(auto, using(crate::proofs::ListedDesks::first_of_zero, crate::proofs::ListedDesks::first_of_some))]
fn first_number(from: u64) -> u64
    ensures number { result ≡ lists.first_number from }
    ensures some { 1 ≤ result }
{
    if from == 0 { 1 } else { from }
}

// What a desk tells of its jobs from a number on.
#[tactic(auto, unfolding(crate::specs::JobLists::frame_of_jobs, sessions::specs::Replies::frame_of))]
fn jobs_reply(
    alloc: Global,
    desk: &Desk,
    from: u64,
    keys: &[KeyedJob],
) -> Result<PendingReply, NoMemory>
    ensures { IfOk result (λ frame. frame ≡ lists.frame_of_jobs desk.now from keys.now) }
{
    let jobs = desk.listing(alloc, first_number(from))?;
    let told = Reply::Jobs {
        count: desk.job_count(),
        jobs: &jobs,
        keys,
    };
    PendingReply::of_reply(alloc, &told)
}

/// Tells the jobs of a door's own desk from a number on, of which the first 1,000 are told, with the
/// number of the last one, and the key of each that is among these; 74 where it is the door of no
/// tenant.
#[tactic(auto, unfolding(sessions::specs::Replies::frame_of))]
pub(crate) fn list_jobs(
    alloc: Global,
    desks: &TenantDesks,
    door: Door,
    from: u64,
    keys: &[KeyedJob],
) -> Result<PendingReply, NoMemory>
    ensures { IfOk result (λ frame. frame ≡ lists.jobs_frame desks.now.desks door from keys.now) }
{
    match desks.desks.get(place_behind(door)) {
        Some(desk) => jobs_reply(alloc, desk, from, keys),
        None => refuse(alloc, NO_TENANT),
    }
}
