//! What happens to a tenant or a job, as the rows that it changes.

use crate::stored_desk::StoredDesk;
use crate::stored_job::StoredJob;
use crate::stored_key::StoredKey;
use crate::stored_outcome::StoredOutcome;
use crate::stored_tenant::StoredTenant;

/// A key that is remembered from now on, and the number of the job whose key is not any more, if
/// there is one.
#[derive(Debug, Drop)]
pub struct NotedKey {
    pub key: StoredKey,
    pub dropped: Option<u64>,
}

/// A job that was taken, and the key that it came by.
#[derive(Debug, Drop)]
pub struct TakenJob {
    pub job: StoredJob,
    pub key: Option<NotedKey>,
}

/// The outcome of a job, and the row of its tenant from then on.
#[derive(Debug, Drop)]
pub struct SettledJob {
    pub outcome: StoredOutcome,
    pub tenant: StoredTenant,
}

/// The numbers of jobs that are forgotten, and the row of their desk from then on.
#[derive(Debug, Drop)]
pub struct ForgottenJobs {
    pub desk: StoredDesk,
    pub numbers: Vec<u64>,
}

/// Something that happens to a tenant or a job.
#[derive(Debug, Drop)]
pub enum StoredChange {
    /// A tenant was granted credit: its row from then on.
    Granted(StoredTenant),
    /// A job was taken.
    Taken(TakenJob),
    /// A job is over.
    Settled(SettledJob),
    /// Jobs that were over are forgotten.
    Forgotten(ForgottenJobs),
}
