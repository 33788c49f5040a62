//! Values that have bytes of their own, from which they are read back.

ghost use Rattle.std.specs.Prelude.{◌≡◌, ◌≤◌, ◌<◌, ◌^◌, ◌++◌, ℕ, List, drop, length, IfOk, OnOk, IsErrOf};
ghost use Rattle.desk_journal.specs.declared.encoded.ReadFault.TheVariants.{NoMemory, NoValue};

use std::alloc::{AllocError, AllocFailed, Global};

/// The reason why no value was read.
#[derive(Clone, Copy, Debug, PartialEq, Eq)]
pub enum ReadFault {
    /// A growth was refused.
    NoMemory,
    /// The bytes of no value stand at the front.
    NoValue,
}

impl From<AllocError> for ReadFault {
    ghost from_gives = { λ _ fault. fault ≡ NoMemory };

    fn from(_error: AllocError) -> ReadFault {
        ReadFault::NoMemory
    }
}

impl<T: Drop> From<AllocFailed<T>> for ReadFault {
    ghost from_gives = { λ _ fault. fault ≡ NoMemory };

    fn from(_error: AllocFailed<T>) -> ReadFault {
        ReadFault::NoMemory
    }
}

/// A value with bytes of its own. It is read back from their front, whatever stands behind them.
pub trait Encoded: Drop {
    ghost bytes: { Self → List ℕ };

    /// Adds the value's bytes.
    fn write(&self, out: &mut Vec<u8>) -> Result<(), AllocError>
        ensures { OnOk result (out.new.items ≡ out.old.items ++ bytes self.now) };

    /// The value whose bytes stand at the front, and how many these are.
    fn read(alloc: Global, input: &[u8]) -> Result<(Self, usize), ReadFault>
        ensures within { IfOk result (λ found. found.1 ≤ length input.now) }
        ensures found { IfOk result (λ found. input.now ≡ bytes found.0 ++ drop found.1 input.now) }
        ensures refused { IsErrOf result NoValue
            → (value : Self) (rest : List ℕ) → input.now ≡ bytes value ++ rest → ⊥ };

    // A value has a byte at least.
    ghost is_there: { (v : Self) → 1 ≤ length (bytes v) };

    // What stands behind a value's bytes is told by all bytes alone.
    ghost one_rest: { (v w : Self) (r s : List ℕ) → length (bytes v ++ r) < 2 ^ 64
        → bytes v ++ r ≡ bytes w ++ s → r ≡ s };
}
