//! A sink whose replies go out behind commits.

ghost use Rattle.std.specs.Prelude.{◌≡◌, true, IfOk, length};
ghost use Rattle.durable_replies.specs.Durable.{knows_failure};

use crate::noted_commits::ask_each;
use refusal::NoMemory;
use shared_desk::{Client, DeskWay, Origin, PassageId, SharedHandler};
use shared_journal::{GroupNote, NoteMaker, ReplySync};
use std::alloc::Global;
use std::sync::Wait;
use streams::{Failed, Noted, ReplySink, Sink, write_all};

/// A note of each journal, of nothing yet.
pub fn notes_of<N: GroupNote, K: NoteMaker<N>>(
    alloc: Global,
    journals: &[K],
) -> Result<Vec<N>, NoMemory>
    ensures { IfOk result (λ notes. length notes.items ≡ length journals.now) }
{
    let mut notes = Vec::new(alloc);
    for journal in journals {
        notes.push(journal.blank())?;
    }
    Ok(notes)
}

/// Writes the replies of a connection to a sink, behind a commit of each of the journals that they rest
/// on; or, where these are committed at intervals, once none of them is found to have failed. Where a
/// commit fails, or one has failed, nothing is written, and the write fails. Without journals it
/// writes as the sink does.
///
/// A write is refused only by a note that knows that its journal has failed. For each commit the desk's
/// handler notes, under the desk's lock, what it has recorded. So all that the replies tell is durable
/// before they go out.
#[derive(Drop)]
pub struct DurableSink<'r, 'b, R, W, N: GroupNote, K: NoteMaker<N>> {
    rt: &'r R,
    journals: &'b [K],
    notes: Vec<N>,
    sync: ReplySync,
    sink: W,
    refused: Option<N>,
    ghost paired: { length notes.items ≡ length journals.now },
    ghost told: { knows_failure N.known refused ≡ true },
}

impl<'r, 'b, R, W: Drop, N: GroupNote, K: NoteMaker<N>> DurableSink<'r, 'b, R, W, N, K> {
    ghost use Rattle.std.specs.Prelude.{◌≡◌, None, is_some, length};

    /// A sink to which nothing was refused, with a note of each of these journals.
    pub fn new(
        rt: &'r R,
        journals: &'b [K],
        notes: Vec<N>,
        sync: ReplySync,
        sink: W,
    ) -> DurableSink<'r, 'b, R, W, N, K>
        requires { length notes.items ≡ length journals.now }
        ensures none { (result.sink ≡ sink) × (result.refused ≡ None) }
        ensures journals { (result.journals.now ≡ journals.entry.now) × (result.sync ≡ sync) }
    {
        DurableSink {
            rt,
            journals,
            notes,
            sync,
            sink,
            refused: None,
        }
    }

    /// Whether a write failed since a commit failed, or a journal had failed.
    pub fn is_refused(&self) -> bool
        ensures { result ≡ is_some self.now.refused }
    {
        self.refused.is_some()
    }

    /// The sink itself.
    pub fn into_inner(self) -> W
        ensures { result ≡ self.entry.sink }
    {
        let DurableSink { sink, .. } = self;
        sink
    }
}

impl<
    R: Wait,
    W: Sink,
    P: DeskWay<S, D, H, J>,
    S: Wait,
    D,
    H: SharedHandler<D> + Noted<N>,
    N: GroupNote,
    K: NoteMaker<N>,
    J: Origin<D, H>,
    G: PassageId,
> ReplySink<(), Client<P, S, D, H, J, G>> for DurableSink<'_, '_, R, W, N, K> {
    ghost use Rattle.std.specs.Prelude.{◌≡◌, true, if◌then◌else◌, is_some};
    ghost use Rattle.durable_replies.specs.Durable.{LetGoAhead, LetGoBefore};
    ghost use Rattle.durable_replies.specs.LetGo.{replies_are_written};

    ghost transcript = { λ s. W.transcript s.sink };

    ghost has_failed = { λ s. if is_some s.refused then true else W.has_failed s.sink };

    ghost lets_go = { λ first s waits. (s.0.sync ≡ first.sync) × (s.0.journals.now ≡ first.journals.now)
        × LetGoAhead H.answers J.begins H.covers K.name K.desk N.known N.sound first.sync first.journals.now s.0.notes.items
        (W.transcript s.0.sink) s.1 waits };

    ghost has_let_go = { λ first s last. LetGoBefore H.answers J.begins H.covers K.name K.desk N.known N.sound first.sync
        first.journals.now s.0.notes.items (W.transcript s.0.sink) s.1 last };

    ghost is_written = { λ first s v waits last ahead. replies_are_written H.answers J.begins
        H.covers K.name K.desk N.known N.sound first.sync first.journals.now s.notes.items (W.transcript s.sink) v waits last
        ahead.2 };

    fn lets_wait(&self) {}

    fn write_replies(
        &mut self,
        handler: &mut Client<P, S, D, H, J, G>,
        bytes: &[u8],
    ) -> Result<(), Failed> {
        if bytes.is_empty() {
            return Ok(());
        }
        let asked = ask_each(self.rt, self.journals, &mut self.notes, self.sync, handler);
        if let Err(failed) = asked {
            self.refused = Some(failed);
            return Err(Failed);
        }
        write_all(&mut self.sink, bytes)
    }

    fn write_last(&mut self, bytes: &[u8]) -> Result<(), Failed> {
        write_all(&mut self.sink, bytes)
    }
}
