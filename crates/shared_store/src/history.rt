//! One history of changes, which exists in proofs alone. Threads share a word, its length.

ghost use Rattle.std.specs.Prelude.{◌≡◌, ◌+◌, ◌==◌, ◌<◌, ◌≤◌, ◌^◌, ◌++◌, ◌∷◌, ◌⊎◌, [], length, nat_eq, nat_le, IsTrue, MatchBool};
ghost use mathlib.Core.List.{IsPrefix};
ghost use Rattle.shared_store.specs.Rules.{history_head, IsLonger};

use desk_records::StoredChange;
use logbook::{Gain, Offer, Plain, Play, Rule, Seen, Start, Word};
use std::marker::{Brand, Model, PhantomData};

/// The rule of the history.
pub struct ChangeRule;

impl Rule<StoredChange, u64> for ChangeRule {
    ghost use Rattle.std.specs.Prelude.{[]};
    ghost use base.Fml.{ftrue};
    ghost use Rattle.shared_store.specs.Rules.{IsCountedHistory};

    ghost holds = { λ cells log. IsCountedHistory cells log };

    ghost first = { [] };

    ghost hinted = { λ n log. Unit {0} };

    ghost shows = { λ log. [] };

    ghost keeps = { λ names log. ftrue };

    ghost moves = { λ ask before after answer. Unit {0} };
}

/// Callers trade nothing.
pub struct NoGain;

impl Gain<StoredChange, u64> for NoGain {
    ghost use base.Fml.{ftrue};

    ghost after = { λ names about answer. ftrue };
}

/// A step that adds a change.
pub struct AddOne;

impl Play<StoredChange, u64> for AddOne {
    ghost use Rattle.shared_store.specs.Rules.{AddsChange};

    ghost then = { AddsChange };
}

/// A step asks for the change.
impl Plain<StoredChange, StoredChange, u64> for AddOne {
    ghost use Rattle.std.specs.Prelude.{None};

    ghost ask = { λ change. change };

    ghost state = { λ change. None };
}

/// The history, and the rows that it begins with. Each call of a program picks them.
pub trait HistoryName {
    ghost use Rattle.logbook.specs.Pages.{Book};
    ghost use Rattle.sqlite_trees.specs.Tree.{Trees};

    ghost book: { Book };

    ghost first: { Trees };
}

impl HistoryName for Brand {
    ghost use Rattle.std.specs.Prelude.{[]};

    ghost book = { record { number = 0; log_name = 0; cells_name = 0 } };

    ghost first = { λ table. [] };
}

/// An empty history, which has no name yet.
pub struct EmptyHistory {
    head: Word<StoredChange, u64, ChangeRule>,
    seen: Seen<StoredChange, u64, ChangeRule>,
    pub ghost empty: { seen.log ≡ [] },
    pub ghost head_is: { head ≡ history_head seen.book },
}

impl EmptyHistory {
    /// A history without a change.
    pub fn new() -> EmptyHistory {
        let (seen, mut first, _second) = Seen::open(Start::alone(), 0, 0);
        EmptyHistory {
            head: Word::tracked(0, &mut first),
            seen,
        }
    }

    /// Its word under a name, and the front that has seen nothing yet.
    pub fn named<J: HistoryName>(self) -> (HistoryWord<J>, HistoryFront<J>)
        requires { self.seen.book ≡ J.book }
        ensures { result.1 ≡ [] }
    {
        let EmptyHistory { head, seen } = self;
        (
            HistoryWord {
                head,
                of: PhantomData,
            },
            HistoryFront {
                count: 0,
                seen,
                of: PhantomData,
            },
        )
    }
}

/// The word that all threads share: the length of the history.
#[derive(Drop)]
pub struct HistoryWord<J: HistoryName> {
    head: Word<StoredChange, u64, ChangeRule>,
    of: PhantomData<J>,
    ghost head_is: { head ≡ history_head J.book },
}

/// A beginning of the history that was seen. Contracts see it as its changes.
#[derive(Drop)]
pub struct HistoryFront<J: HistoryName> {
    count: u64,
    seen: Seen<StoredChange, u64, ChangeRule>,
    of: PhantomData<J>,
}

impl<J: HistoryName> Model for HistoryFront<J> {
    ghost use Rattle.std.specs.Prelude.{◌≡◌, List, length};
    ghost use Rattle.desk_records.specs.declared.stored_change.StoredChange.{StoredChange};

    ghost Value = { List StoredChange };

    ghost view = { λ f. f.seen.log };

    ghost invariant = { λ f. (f.count ≡ length f.seen.log) × (f.seen.book ≡ J.book) };
}

impl<J: HistoryName> HistoryFront<J> {
    /// The number of its changes.
    pub fn len(&self) -> u64
        ensures { result ≡ length self.now }
    {
        self.count
    }

    /// A copy.
    pub fn again(&self) -> HistoryFront<J>
        ensures { result ≡ self.now }
    {
        HistoryFront {
            count: self.count,
            seen: self.seen.again(),
            of: PhantomData,
        }
    }

    /// Whether it is at least as long as another one, and so begins with it.
    pub fn covers(&self, other: &HistoryFront<J>) -> bool
        ensures exact { result ≡ nat_le (length other.now) (length self.now) }
        ensures begins { IsTrue result → IsPrefix other.now self.now }
    {
        let mut both = self.seen.again();
        both.learn(&other.seen);
        other.count <= self.count
    }

    /// Whether it is another one.
    pub fn is_same(&self, other: &HistoryFront<J>) -> bool
        ensures exact { result ≡ nat_eq (length other.now) (length self.now) }
        ensures same { IsTrue result → other.now ≡ self.now }
    {
        let mut both = self.seen.again();
        both.learn(&other.seen);
        other.count == self.count
    }

    /// Adds a change to all that was seen, and tells whether it did. It didn't where the history is
    /// longer.
    pub(crate) fn add(&mut self, word: &HistoryWord<J>, change: &StoredChange) -> bool
        requires room { length self.old < 2 ^ 62 }
        ensures { MatchBool result (self.new ≡ self.old ++ change.now ∷ [])
            (IsLonger self.old self.new) }
    {
        let mut offer: Offer<StoredChange, u64, ChangeRule, NoGain> = self
            .seen
            .plain::<NoGain, StoredChange, AddOne>(change);
        let mut pen = self.seen.no_pen();
        let count = self.count;
        let found = word
            .head
            .compare_exchange::<AddOne, NoGain>(
                count,
                count + 1,
                &mut self.seen,
                &mut offer,
                &mut pen,
            );
        self.count = if found == count { count + 1 } else { found };
        found == count
    }
}
