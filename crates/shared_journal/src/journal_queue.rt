//! The records of a desk's changes, on their way into a shared journal.

ghost use Rattle.std.specs.Prelude.{◌≡◌, ◌++◌, [], OnErr, OnOk};
ghost use Rattle.shared_journal.specs.JournalHistories.{HasAddedRecord, KnowsTheSame, entries_by, journal_bytes};

use crate::journal_note::JournalNote;
use crate::journal_table::JournalSeat;
use crate::shared_journal::SharedJournal;
use desk_recorder::RecordQueue;
use journal_file::GhostBytes;
use refusal::NoMemory;
use std::sync::Wait;
use streams::Noted;

/// Puts records into a shared journal, for one desk. Its seat knows that each of them stands in the
/// journal's history, once and in order, and has seen each of them there.
#[derive(Drop)]
pub struct JournalQueue<'r, 'j, R> {
    rt: &'r R,
    journal: &'j SharedJournal,
    seat: JournalSeat,
    taken: GhostBytes,
    was_told: bool,
    ghost own: { seat.journal ≡ journal.now.history },
    ghost in_order: { journal_bytes seat.own ≡ taken.bytes },
    ghost seen: { entries_by seat.number seat.seen ≡ seat.own },
}

impl<'r, 'j, R> JournalQueue<'r, 'j, R> {
    ghost use Rattle.std.specs.Prelude.{◌≡◌, [], false};

    /// A queue of this journal, that has taken nothing.
    pub fn new(rt: &'r R, journal: &'j SharedJournal) -> JournalQueue<'r, 'j, R>
        ensures none { (result.taken.bytes ≡ []) × (result.was_told ≡ false) }
        ensures journal { result.journal.now ≡ journal.entry.now }
    {
        JournalQueue {
            rt,
            journal,
            seat: journal.watch(),
            taken: GhostBytes::new(),
            was_told: false,
        }
    }
}

// Puts a record into the journal, and notes it.
fn put_record<R: Wait>(
    rt: &R,
    journal: &SharedJournal,
    seat: &mut JournalSeat,
    taken: &mut GhostBytes,
    bytes: &[u8],
) -> Result<(), NoMemory>
    requires own { seat.old.journal ≡ journal.now.history }
    requires order { journal_bytes seat.old.own ≡ taken.old.bytes }
    requires seen { entries_by seat.old.number seat.old.seen ≡ seat.old.own }
    ensures own { seat.new.journal ≡ journal.now.history }
    ensures order { journal_bytes seat.new.own ≡ taken.new.bytes }
    ensures seen { entries_by seat.new.number seat.new.seen ≡ seat.new.own }
    ensures ok { OnOk result (HasAddedRecord seat.old bytes.now seat.new
        × (taken.new.bytes ≡ taken.old.bytes ++ bytes.now)) }
    ensures err { OnErr result (KnowsTheSame seat.old seat.new
        × (taken.new.bytes ≡ taken.old.bytes)) }
{
    journal.add(rt, seat, bytes)?;
    *taken = taken.then(bytes);
    Ok(())
}

impl<R: Wait> RecordQueue for JournalQueue<'_, '_, R> {
    ghost use Rattle.std.specs.Prelude.{◌≡◌, true};

    ghost taken = { λ q. q.taken.bytes };

    ghost has_failed = { λ q. q.was_told ≡ true };

    fn reserve(&mut self, len: usize) -> Result<(), NoMemory> {
        self.journal.reserve(self.rt, &mut self.seat, len)
    }

    fn add(&mut self, bytes: &[u8]) -> Result<(), NoMemory> {
        put_record(
            self.rt,
            self.journal,
            &mut self.seat,
            &mut self.taken,
            bytes,
        )
    }

    fn fail(&mut self) {
        self.journal.fail(&mut self.seat);
        self.was_told = true;
    }
}

impl<'j, R: Wait> Noted<JournalNote<'j>> for JournalQueue<'_, 'j, R> {
    ghost use Rattle.shared_journal.specs.JournalHistories.{IsNoteOf};

    ghost covers = { λ _ note q. IsNoteOf note q.seat };

    fn note(&mut self, _: usize, into: &mut JournalNote<'j>) {
        *into = JournalNote::of(self.journal, &mut self.seat);
    }
}
