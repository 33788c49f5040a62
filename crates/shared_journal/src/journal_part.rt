//! The two parts of a shared journal, each of which one thread holds at a time.

use crate::commit_log::CommitLog;
use journal_file::FileLog;

/// The records that wait, as bytes; or the log, with the bytes that are for who follows the journal,
/// if it is followed, and how many records went along with its last sync.
#[derive(Drop)]
pub(crate) struct JournalPart {
    pub bytes: Vec<u8>,
    pub commits: Option<CommitLog<FileLog>>,
    pub batch: u64,
    pub is_followed: bool,
}
