//! A stream whose jobs are played at once.

ghost use Rattle.std.specs.Prelude.{◌≡◌, ◌++◌, List, ℕ, true, false, IfErr, IfOk};
ghost use Rattle.streams.specs.LedgerReplies.{BeginsReplies, WritesReplies};

use crate::inline_runner::InlineRunner;
use crate::{Sink, Source, StreamFault, serve_stream};
use accounts::Desk;
use std::alloc::Global;

/// As [`serve_stream`], by a runner that plays each job at its start: what is written are the
/// replies to the frames of all that was read, over the ledger of the desk and of the reports that
/// the runner holds. Where it is given up, they are a beginning of the replies to the first frames.
pub fn serve_inline<R: Source, W: Sink>(
    alloc: Global,
    reader: &mut R,
    writer: &mut W,
    desk: &mut Desk,
    runner: &mut InlineRunner,
) -> Result<u64, StreamFault>
    requires source { R.has_failed reader.old ≡ false }
    requires sink { W.has_failed writer.old ≡ false }
    ensures replies { IfOk result (λ number. (all : List ℕ)
        × (R.transcript reader.new ≡ R.transcript reader.old ++ all)
        × WritesReplies desk.old runner.old.finished.entries all (W.transcript writer.old)
        (R.is_over reader.new ≡ true) desk.new runner.new.finished.entries number
        (W.transcript writer.new)) }
    ensures begins { IfErr result (λ _. (all : List ℕ)
        × (R.transcript reader.new ≡ R.transcript reader.old ++ all)
        × BeginsReplies desk.old runner.old.finished.entries all (W.transcript writer.old) desk.new
        runner.new.finished.entries (W.transcript writer.new)) }
{
    serve_stream(alloc, reader, writer, desk, runner)
}
