//! The laws of records: one reading, and what any cut leaves.

ghost use Rattle.std.specs.Prelude.{◌≡◌, ◌≤◌, ◌++◌, [], ◌∷◌, ℕ, List, take, replicate};
ghost use Rattle.journal.specs.Records.{record_of, journal_of, FitsRecord, AllFitRecords, IsTorn, DecodesTo, WholeWithin};
ghost use Rattle.journal.specs.Tails.{search_cost, IsTail};
ghost use Rattle.journal.specs.declared.inspection.TailKind.{TailKind};

/// Bytes have one reading.
pub fn one_reading()
    ensures { (bytes : List ℕ) (ps qs : List (List ℕ)) (x y : List ℕ)
        → DecodesTo bytes ps x → DecodesTo bytes qs y → (ps ≡ qs) × (x ≡ y) }
{}

/// What was written is read again.
pub fn round_trip()
    ensures { (payloads : List (List ℕ)) → AllFitRecords payloads
        → DecodesTo (journal_of payloads) payloads [] }
{}

/// Wherever a journal is cut, the records that are whole are read, and no other.
pub fn cut_anywhere()
    ensures { (payloads : List (List ℕ)) (n : ℕ) → AllFitRecords payloads
        → (count : ℕ) × (tail : List ℕ) × WholeWithin n payloads count
        × DecodesTo (take n (journal_of payloads)) (take count payloads) tail }
{}

/// Records that are whole are read first, whatever stands behind them.
pub fn whole_first()
    ensures { (payloads qs : List (List ℕ)) (rest tail : List ℕ) → AllFitRecords payloads
        → DecodesTo (journal_of payloads ++ rest) qs tail
        → (more : List (List ℕ)) × (qs ≡ payloads ++ more) }
{}

/// Zeros, which some file systems leave behind a crash, are no record.
pub fn zeros_are_torn()
    ensures { (n : ℕ) → IsTorn (replicate n 0) }
{}

/// A tail has one kind, where the budget covers the search.
pub fn one_tail_kind()
    ensures { (bytes : List ℕ) (budget : ℕ) (a b : TailKind) → search_cost bytes ≤ budget
        → IsTail bytes budget a → IsTail bytes budget b → a ≡ b }
{}
