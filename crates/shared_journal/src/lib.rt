//! A journal that the threads of a server share: records wait in memory, and who writes a reply
//! syncs all that wait first, or they are synced at intervals. It may be followed, and be compacted
//! while it goes on.
#![tactic(auto)]

// the records that wait, and the log that they go to
mod commit_log;
mod journal_part;
mod waiting_records;

// the history of both, in proofs alone, and who knows of it
mod journal_calls;
mod journal_table;
mod seat_views;

pub use journal_table::JournalSeat;

// the journal itself
mod group_journal;
mod group_note;
mod journal_note;
mod shared_journal;

pub use group_journal::GroupJournal;
pub use group_note::{GroupNote, NoteMaker};
pub use journal_note::JournalNote;
pub use shared_journal::SharedJournal;

// who follows it, and puts a snapshot in the place of its first records
mod followed_desk;
mod following;
mod journal_follower;
mod new_journal;

pub use journal_follower::{Compaction, JournalFollower};

// what its file has
mod laws;

pub use laws::restarts_go_on;

// when replies go out, and what several journals are asked for that
mod each_journal;
mod reply_sync;

pub use each_journal::commit_each;
pub use reply_sync::ReplySync;

// what puts records into it
mod journal_queue;

pub use journal_queue::JournalQueue;
