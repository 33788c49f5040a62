//! The journals of a server, which are compacted while it runs.

ghost use Rattle.std.specs.Prelude.{◌≡◌, ◌<◌, false, length};
ghost use Rattle.std.specs.Arc.{arc_value};
ghost use Rattle.shared_journal.specs.Places.{AreFollowed};

use crate::host_notes::tell_host;
use crate::journal_compacting::{tell_compacted, tell_kept};
use server_log::ServerLog;
use shared_journal::{Compaction, JournalFollower, SharedJournal};
use std::alloc::Global;
use std::fs::{File, Files};
use std::marker::Model;
use std::sync::{Arc, Wait};
use std::thread;
use std::time::{Clock, Duration};

// How many milliseconds go by between two looks at the journals.
const BETWEEN_LOOKS: u64 = 50;

/// Who follows the journals of a server, one for each in order, with the paths of their files.
#[derive(Drop)]
pub struct JournalFollowers {
    paths: Arc<Vec<String>, Global>,
    journals: Arc<Vec<SharedJournal>, Global>,
    followers: Vec<JournalFollower>,
}

impl Model for JournalFollowers {
    ghost use Rattle.std.specs.Arc.{arc_value};
    ghost use Rattle.shared_journal.specs.Places.{AreFollowed};

    ghost Value = { Unit {0} };

    ghost view = { λ _. tt };

    ghost invariant = { λ f. AreFollowed f.followers.items (arc_value f.journals).items };
}

// Tells what came of a journal that was to be compacted.
fn tell<R: Wait + Clock>(
    rt: &R,
    alloc: Global,
    log: &ServerLog,
    path: &str,
    compaction: Compaction,
) {
    match compaction {
        Compaction::NotNeeded => {}
        Compaction::Replaced { old, new } => tell_compacted(rt, alloc, log, path, old, new),
        Compaction::Kept(why) => tell_kept(rt, alloc, log, path, why),
        Compaction::Unknown => {
            let text = format!(in alloc; "{path}: it isn't known whether a snapshot has its name");
            tell_host(rt, log, text);
        }
    }
}

// Tells that a journal isn't compacted any more, unless it has failed: then its end is told elsewhere, in
// a moment.
fn tell_lost<R: Wait + Clock>(
    rt: &R,
    alloc: Global,
    log: &ServerLog,
    path: &str,
    journal: &SharedJournal,
) {
    thread::sleep(rt, Duration::from_millis(BETWEEN_LOOKS));
    if !journal.has_failed() {
        let text = format!(in alloc; "{path}: not compacted any more: no memory for a record");
        tell_host(rt, log, text);
    }
}

// Replays what is new of a journal, and compacts it where that is due.
fn tend<R: Wait + Clock + Files<File = File>>(
    rt: &R,
    alloc: Global,
    log: &ServerLog,
    path: &str,
    journal: &SharedJournal,
    follower: &mut JournalFollower,
)
    requires { follower.old.journal ≡ journal.now.history }
    ensures { follower.new.journal ≡ follower.old.journal }
{
    if follower.is_lost() {
        return;
    }
    follower.catch_up(rt, journal);
    if follower.is_lost() {
        tell_lost(rt, alloc, log, path, journal);
        return;
    }
    if follower.is_due() {
        let compaction = follower.compact(rt, journal, path);
        tell(rt, alloc, log, path, compaction);
    }
}

// Looks at the journal at a place.
fn tend_at<R: Wait + Clock + Files<File = File>>(
    rt: &R,
    alloc: Global,
    log: &ServerLog,
    paths: &[String],
    journals: &[SharedJournal],
    followers: &mut Vec<JournalFollower>,
    at: usize,
)
    requires { AreFollowed followers.old.items journals.now }
    ensures { AreFollowed followers.new.items journals.now }
{
    if at < paths.len() && at < journals.len() && at < followers.len() {
        tend(
            rt,
            alloc,
            log,
            &paths[at],
            &journals[at],
            &mut followers[at],
        );
    }
}

impl JournalFollowers {
    /// These follow the journals, in order.
    pub fn of(
        paths: Arc<Vec<String>, Global>,
        journals: Arc<Vec<SharedJournal>, Global>,
        followers: Vec<JournalFollower>,
    ) -> JournalFollowers
        requires { AreFollowed followers.items (arc_value journals).items }
    {
        JournalFollowers {
            paths,
            journals,
            followers,
        }
    }

    /// Looks at each journal again and again. A log is told of what is compacted.
    pub fn follow<R: Wait + Clock + Files<File = File>>(
        mut self,
        rt: &R,
        alloc: Global,
        log: &ServerLog,
    ) {
        for _ in rt.forever() {
            for at in 0..self.followers.len() {
                tend_at(
                    rt,
                    alloc,
                    log,
                    &self.paths,
                    &self.journals,
                    &mut self.followers,
                    at,
                );
            }
            thread::sleep(rt, Duration::from_millis(BETWEEN_LOOKS));
        }
    }
}
