//! A note of what a seat had seen of a journal.

ghost use Rattle.std.specs.Prelude.{◌≡◌, [], false};

use crate::group_note::{GroupNote, NoteMaker};
use crate::journal_table::{JournalSeat, NoteSeat};
use crate::shared_journal::SharedJournal;
use journal::LogFault;
use std::marker::Model;
use std::sync::Wait;

/// A note of what a seat had seen of a journal: a beginning of its history. Contracts see what it knows.
#[derive(Drop)]
pub struct JournalNote<'a> {
    journal: &'a SharedJournal,
    seat: NoteSeat,
}

impl<'a> Model for JournalNote<'a> {
    ghost use Rattle.std.specs.Prelude.{◌≡◌};
    ghost use Rattle.shared_journal.specs.JournalHistories.{NoteKnowledge};

    ghost Value = { NoteKnowledge };

    ghost view = { λ n. n.seat };

    ghost invariant = { λ n. n.seat.journal ≡ n.journal.now.history };
}

impl<'a> JournalNote<'a> {
    /// A note of nothing.
    pub fn blank(journal: &'a SharedJournal) -> JournalNote<'a>
        ensures journal { result.journal ≡ journal.entry.now.history }
        ensures none { (result.seen ≡ []) × (result.durable ≡ [])
            × (result.has_failed ≡ false) }
    {
        JournalNote {
            journal,
            seat: journal.blank_note(),
        }
    }

    /// A note of all that the seat has seen, which stays as it is.
    pub fn of(journal: &'a SharedJournal, seat: &mut JournalSeat) -> JournalNote<'a>
        requires { seat.old.journal ≡ journal.now.history }
        ensures same { seat.new ≡ seat.old }
        ensures journal { result.journal ≡ journal.entry.now.history }
        ensures seen { result.seen ≡ seat.old.seen }
        ensures durable { result.durable ≡ seat.old.durable }
        ensures has_failed { result.has_failed ≡ seat.old.has_failed }
    {
        JournalNote {
            journal,
            seat: journal.note(seat),
        }
    }
}

impl<'a> GroupNote for JournalNote<'a> {
    ghost known = { λ n. n };

    // A look tells of its moment alone.
    ghost sound = { λ _. Unit {0} };

    fn commit<R: Wait>(&mut self, rt: &R) -> Result<(), LogFault> {
        self.journal.commit_noted(rt, &mut self.seat)
    }

    fn look(&mut self) -> Result<(), LogFault> {
        self.journal.look_noted(&mut self.seat)
    }
}

impl<'a> NoteMaker<JournalNote<'a>> for &'a SharedJournal {
    ghost name = { λ j. j.now.history };

    ghost desk = { λ j. j.now.place };

    fn place(&self) -> usize {
        SharedJournal::place(self)
    }

    fn blank(&self) -> JournalNote<'a> {
        JournalNote::blank(self)
    }
}
