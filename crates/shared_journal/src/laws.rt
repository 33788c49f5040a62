//! What a restart finds in a journal's file, whatever a crash has left of it.

ghost use Rattle.std.specs.Prelude.{◌≡◌, ◌++◌, ℕ, List};
ghost use Rattle.compaction.specs.Snapshots.{IsAlikeAfter};
ghost use Rattle.journal.specs.Records.{DecodesTo};
ghost use Rattle.keyed_desk.specs.KeyedSnapshots.{AreKeyedAlike};
ghost use Rattle.keyed_desk.specs.KeyedSteps.{IsNewKeyed, KeyedState, MakesKeyed};
ghost use Rattle.recovery.specs.Openings.{IsJournalOpened};
ghost use Rattle.recovery.specs.declared.replay.Recovered.{Recovered};
ghost use Rattle.shared_journal.specs.Standing.{StandForJournal};

use compaction::standing_bytes_keep_state;
use keyed_desk::KeyedDesk;

/// A journal's file has bytes that stand for those of all records that are durable, however often it was
/// compacted. Where a crash leaves more bytes behind them, they stand for these with the same behind.
/// And the desk that a restart begins with is alike one to which the records lead that these are: the
/// first ones, in order, with all that are durable.
pub fn restarts_go_on()
    ensures more { (bytes whole more : List ℕ) → StandForJournal bytes whole
        → StandForJournal (bytes ++ more) (whole ++ more) }
    ensures alike { (bytes whole tail : List ℕ) (history : List (List ℕ))
        (found : Recovered KeyedState) → StandForJournal bytes whole → DecodesTo whole history tail
        → IsJournalOpened IsNewKeyed MakesKeyed bytes found
        → IsAlikeAfter IsNewKeyed MakesKeyed AreKeyedAlike history found.machine }
{
    standing_bytes_keep_state::<KeyedDesk>();
}
