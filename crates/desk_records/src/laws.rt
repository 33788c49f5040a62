//! Laws of records and rows: the same thing twice.

ghost use Rattle.std.specs.Prelude.{◌≡◌, All, List};
ghost use Rattle.sqlite_trees.specs.Tree.{Trees};
ghost use Rattle.desk_records.specs.Changes.{IsNarrowChange, all_changed};
ghost use Rattle.desk_records.specs.Made.{all_made};
ghost use Rattle.desk_records.specs.Stored.{AreNarrow, IsStored, Ledgers};
ghost use Rattle.desk_records.specs.declared.stored_change.StoredChange.{StoredChange};

/// Changes of the rows are the same changes of the records.
pub fn records_follow_rows()
    ensures { (db : Trees) (l : Ledgers) (changes : List StoredChange) → IsStored db l
        → IsStored (all_changed db changes) (all_made l changes) }
{}

/// Rows are those of one set of records alone.
pub fn rows_tell_the_records()
    ensures { (db : Trees) (l m : Ledgers) → AreNarrow l → AreNarrow m → IsStored db l
        → IsStored db m → l ≡ m }
{}

/// The records that are loaded after changes are those that these made of the records before.
pub fn loads_tell_the_changes()
    ensures { (db : Trees) (l loaded : Ledgers) (changes : List StoredChange) → AreNarrow l
        → All IsNarrowChange changes → IsStored db l → AreNarrow loaded
        → IsStored (all_changed db changes) loaded → loaded ≡ all_made l changes }
{}
