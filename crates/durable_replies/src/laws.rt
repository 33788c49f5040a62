//! What a connection was told is durable.

ghost use Rattle.std.specs.Prelude.{[], ◌∷◌, ℕ, List};
ghost use Rattle.durable_replies.specs.Durable.{LetGoBefore};
ghost use Rattle.durable_replies.specs.Told.{IsToldDurably};
ghost use Rattle.shared_desk.specs.ClientViews.{ClientView};
ghost use Rattle.shared_journal.specs.JournalHistories.{IsNoteOf, JournalName, NoteKnowledge};
ghost use Rattle.shared_journal.specs.declared.journal_queue.JournalQueue.{JournalQueue};
ghost use Rattle.shared_journal.specs.declared.reply_sync.ReplySync.TheVariants.{Always};

use shared_desk::{Origin, SharedHandler};

/// Where one desk has one journal, which is committed ahead of each reply, all that was written on a
/// connection are replies of a legal history, and every record of what it changed is durable; but for
/// the last 71. (A law of definitions: it does nothing.)
pub fn told_is_durable<D, H: SharedHandler<D>, J: Origin<D, H>, K, R>()
    ensures { (queue : H → JournalQueue R) (name : K → JournalName) (desk : K → ℕ) (journal : K)
        (notes : List NoteKnowledge) (written last : List ℕ) (v : ClientView)
        → LetGoBefore H.answers J.begins (λ place note h. IsNoteOf note (queue h).seat)
        name desk (λ note. note) (λ _. Unit {0}) Always (journal ∷ []) notes written v last
        → IsToldDurably H.answers J.begins queue notes v.number written last }
{}
