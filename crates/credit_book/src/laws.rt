//! What a legal history of a job means.

ghost use Rattle.std.specs.Prelude.{◌≡◌, ◌+◌, ◌≤◌, ℕ, List, slice_get, Some};
ghost use Rattle.credit_book.specs.declared.event.Event.{Event};
ghost use Rattle.credit_book.specs.declared.event.TaskEnd.{TaskEnd};
ghost use Rattle.credit_book.specs.History.{IsAlive, IsHistoryOf, held_in, returned_in, spent_in, standing_at, table_of};

/// The credit that is held, returned and spent adds up to what was issued, each live task holds at
/// least 1, and the tasks are numbered from 0.
pub fn histories_add_up()
    ensures sums { (job issued : ℕ) (history : List Event) → IsHistoryOf job issued history →
        held_in (table_of history) + returned_in (table_of history)
        + spent_in (table_of history) ≡ issued }
    ensures alive { (job issued : ℕ) (history : List Event) (number : ℕ)
        → IsHistoryOf job issued history → IsAlive (table_of history) number →
        1 ≤ (standing_at (table_of history) number).held }
    ensures numbered { (job issued : ℕ) (history : List Event) (number : ℕ) (task : TaskEnd)
        → IsHistoryOf job issued history →
        slice_get (table_of history).tasks number ≡ Some task → task.number ≡ number }
{}
