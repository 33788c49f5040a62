//! Commits of what the replies of a connection rest on.

ghost use Rattle.std.specs.Prelude.{◌≡◌, List, IfErr, OnErr, OnOk, length, true};
ghost use Rattle.durable_replies.specs.Durable.{AreDurable, AreSound, IsDurableAt, IsFoundSound, MayGoOut};
ghost use Rattle.shared_desk.specs.ClientViews.{ClientView, Extends};
ghost use Rattle.shared_desk.specs.Histories.{HistoryEntry};

use shared_desk::{Client, DeskWay, Origin, PassageId, SharedHandler};
use shared_journal::{GroupNote, NoteMaker, ReplySync};
use std::sync::Wait;
use streams::Noted;

// Notes what was recorded for the desk of a journal, at the latest by the connection's last answer, and
// makes that durable. Where that fails the note stays as it was, and another one that knows of the
// failure is given.
fn commit_at<
    R: Wait,
    P: DeskWay<S, D, H, J>,
    S: Wait,
    D,
    H: SharedHandler<D> + Noted<N>,
    N: GroupNote,
    K: NoteMaker<N>,
    J: Origin<D, H>,
    G: PassageId,
>(rt: &R, journal: &K, note: &mut N, client: &mut Client<P, S, D, H, J, G>) -> Result<(), N>
    ensures same { client.new ≡ client.old }
    ensures ok { OnOk result (IsDurableAt H.answers J.begins H.covers K.desk N.known
        (K.desk journal.now) note.new client.old) }
    ensures err { OnErr result (note.new ≡ note.old) }
    ensures failed { IfErr result (λ failed. (N.known failed).has_failed ≡ true) }
{
    let mut taken = journal.blank();
    client.note(journal.place(), &mut taken);
    if taken.commit(rt).is_err() {
        return Err(taken);
    }
    *note = taken;
    Ok(())
}

// Makes durable what was recorded for the desk of each journal, at the latest by the connection's last
// answer, up to the first that fails.
fn commit_each_noted<
    R: Wait,
    P: DeskWay<S, D, H, J>,
    S: Wait,
    D,
    H: SharedHandler<D> + Noted<N>,
    N: GroupNote,
    K: NoteMaker<N>,
    J: Origin<D, H>,
    G: PassageId,
>(
    rt: &R,
    journals: &[K],
    notes: &mut Vec<N>,
    client: &mut Client<P, S, D, H, J, G>,
) -> Result<(), N>
    requires { length notes.old.items ≡ length journals.now }
    ensures same { client.new ≡ client.old }
    ensures count { length notes.new.items ≡ length notes.old.items }
    ensures ok { OnOk result (AreDurable H.answers J.begins H.covers K.desk N.known journals.now notes.new.items
        client.old) }
    ensures err { OnErr result ((known : ClientView) (later : List HistoryEntry)
        → Extends known later client.old
        → AreDurable H.answers J.begins H.covers K.desk N.known journals.now notes.old.items known
        → AreDurable H.answers J.begins H.covers K.desk N.known journals.now notes.new.items known) }
    ensures failed { IfErr result (λ failed. (N.known failed).has_failed ≡ true) }
{
    let mut place = 0;
    'notes: while place < journals.len() {
        commit_at(rt, &journals[place], &mut notes[place], client)?;
        place += 1;
    }
    Ok(())
}

// Looks at a journal, and keeps the note by which it had not failed. Where it had, the note stays as it
// was, and another one that knows of the failure is given.
fn look_at<N: GroupNote, K: NoteMaker<N>>(journal: &K, note: &mut N) -> Result<(), N>
    ensures sound { OnOk result (IsFoundSound K.name N.known N.sound journal.now note.new) }
    ensures err { OnErr result (note.new ≡ note.old) }
    ensures failed { IfErr result (λ failed. (N.known failed).has_failed ≡ true) }
{
    let mut looked = journal.blank();
    if looked.look().is_err() {
        return Err(looked);
    }
    *note = looked;
    Ok(())
}

// Looks at each journal, in order, up to the first that has failed.
fn look_at_each<N: GroupNote, K: NoteMaker<N>>(journals: &[K], notes: &mut Vec<N>) -> Result<(), N>
    requires { length notes.old.items ≡ length journals.now }
    ensures count { length notes.new.items ≡ length notes.old.items }
    ensures sound { OnOk result (AreSound K.name N.known N.sound journals.now notes.new.items) }
    ensures err { OnErr result (AreSound K.name N.known N.sound journals.now notes.old.items
        → AreSound K.name N.known N.sound journals.now notes.new.items) }
    ensures failed { IfErr result (λ failed. (N.known failed).has_failed ≡ true) }
{
    let mut place = 0;
    'looks: while place < journals.len() {
        look_at(&journals[place], &mut notes[place])?;
        place += 1;
    }
    Ok(())
}

/// Asks whether the connection's replies may go out: what they rest on is made durable, or no journal has
/// failed, where these are committed at intervals. Else a note is given that knows of the failure.
pub(crate) fn ask_each<
    R: Wait,
    P: DeskWay<S, D, H, J>,
    S: Wait,
    D,
    H: SharedHandler<D> + Noted<N>,
    N: GroupNote,
    K: NoteMaker<N>,
    J: Origin<D, H>,
    G: PassageId,
>(
    rt: &R,
    journals: &[K],
    notes: &mut Vec<N>,
    sync: ReplySync,
    client: &mut Client<P, S, D, H, J, G>,
) -> Result<(), N>
    requires { length notes.old.items ≡ length journals.now }
    ensures same { client.new ≡ client.old }
    ensures count { length notes.new.items ≡ length notes.old.items }
    ensures ok { OnOk result (MayGoOut H.answers J.begins H.covers K.name K.desk N.known N.sound sync
        journals.now notes.new.items client.old) }
    ensures err { OnErr result ((known : ClientView) (later : List HistoryEntry)
        → Extends known later client.old
        → MayGoOut H.answers J.begins H.covers K.name K.desk N.known N.sound sync journals.now
        notes.old.items known
        → MayGoOut H.answers J.begins H.covers K.name K.desk N.known N.sound sync journals.now
        notes.new.items known) }
    ensures failed { IfErr result (λ failed. (N.known failed).has_failed ≡ true) }
{
    match sync {
        ReplySync::Always => commit_each_noted(rt, journals, notes, client),
        ReplySync::Interval => look_at_each(journals, notes),
    }
}
