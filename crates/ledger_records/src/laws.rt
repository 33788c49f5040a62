//! Laws of desks and their records: what changes the ones changes the others alike.

ghost use Rattle.std.specs.Prelude.{◌≡◌, ℕ, List, Some, slice_get};
ghost use Rattle.sqlite_trees.specs.Tree.{Trees};
ghost use Rattle.desk_records.specs.Changes.{all_changed};
ghost use Rattle.desk_records.specs.Made.{all_made};
ghost use Rattle.desk_records.specs.Stored.{AreNarrow, IsStored, Ledgers};
ghost use Rattle.desk_records.specs.declared.stored_change.StoredChange.{StoredChange};
ghost use Rattle.server_state.specs.Changing.{LeadAll};
ghost use Rattle.server_state.specs.States.{DeskState};
ghost use Rattle.server_state.specs.declared.change.DeskChange.{DeskChange};
ghost use Rattle.ledger_records.specs.ChangedRows.{AreRowsOfAll};
ghost use Rattle.ledger_records.specs.DeskRecords.{AreDesksOf, AreStatesAlike, IsDeskOf};

/// Changes of desks, and the rows that are written of each: the records behind them are those of the
/// desks behind them, each at its place.
pub fn records_follow_desks()
    ensures { (desks : List DeskState) (l : Ledgers) (changes : List DeskChange)
        (all : List StoredChange) (after : List DeskState) → AreDesksOf l desks
        → LeadAll desks changes after → AreRowsOfAll l changes all
        → AreDesksOf (all_made l all) after }
{}

/// A desk that is made of the records that the rows of changes left is alike the desk behind these
/// changes.
pub fn restored_desks_are_alike()
    ensures { (desks : List DeskState) (l : Ledgers) (changes : List DeskChange)
        (all : List StoredChange) (after : List DeskState) (db : Trees) (loaded : Ledgers)
        (place : ℕ) (state restored : DeskState) → AreDesksOf l desks
        → LeadAll desks changes after → AreRowsOfAll l changes all → IsStored db l
        → IsStored (all_changed db all) loaded → AreNarrow loaded
        → slice_get after place ≡ Some state → IsDeskOf place loaded restored
        → AreStatesAlike state restored }
{}
