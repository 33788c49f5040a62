//! A value that is all of some bytes.

ghost use Rattle.std.specs.Prelude.{◌≡◌, IfOk, IsErrOf};
ghost use Rattle.desk_journal.specs.declared.encoded.ReadFault.TheVariants.{NoValue};

use crate::encoded::{Encoded, ReadFault};
use std::alloc::Global;

/// The value whose bytes these are, and no more.
pub fn read_whole<T: Encoded>(alloc: Global, input: &[u8]) -> Result<T, ReadFault>
    ensures found { IfOk result (λ value. T.bytes value ≡ input.now) }
    ensures refused { IsErrOf result NoValue
        → (value : T) → T.bytes value ≡ input.now → ⊥ }
{
    let (value, length) = match T::read(alloc, input) {
        Ok(found) => found,
        Err(fault) => return Err(fault),
    };
    if length < input.len() {
        return Err(ReadFault::NoValue);
    }
    Ok(value)
}
