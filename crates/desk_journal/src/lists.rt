//! Lists of values behind their number.

ghost use Rattle.std.specs.Prelude.{◌≡◌, ◌≤◌, ◌++◌, ℕ, List, drop, length, IfOk, OnOk, IsErrOf};
ghost use Rattle.desk_journal.specs.Encodings.{list_bytes};
ghost use Rattle.desk_journal.specs.declared.encoded.ReadFault.TheVariants.{NoValue};

use crate::encoded::{Encoded, ReadFault};
use std::alloc::{AllocError, Global};

/// Adds the values of a list behind their number.
pub(crate) fn write_list<T: Encoded>(values: &[T], out: &mut Vec<u8>) -> Result<(), AllocError>
    ensures { OnOk result (out.new.items ≡ out.old.items ++ list_bytes T.bytes values.now) }
{
    (values.len() as u64).write(out)?;
    let mut rest = values;
    'values: while let Some((first, others)) = rest.split_first() {
        first.write(out)?;
        rest = others;
    }
    Ok(())
}

/// The values behind the number at the front, and how many bytes they have with it.
pub(crate) fn read_list<T: Encoded>(
    alloc: Global,
    input: &[u8],
) -> Result<(Vec<T>, usize), ReadFault>
    ensures within { IfOk result (λ found. found.1 ≤ length input.now) }
    ensures found { IfOk result (λ found.
        input.now ≡ list_bytes T.bytes found.0.items ++ drop found.1 input.now) }
    ensures refused { IsErrOf result NoValue
        → (values : List T) (rest : List ℕ) → input.now ≡ list_bytes T.bytes values ++ rest → ⊥ }
{
    let (count, start) = u64::read(alloc, input)?;
    let mut values = Vec::new(alloc);
    let mut at = start;
    let mut left = count;
    'values: while left > 0 {
        let (value, length) = T::read(alloc, input.split_at(at).1)?;
        values.push(value)?;
        at += length;
        left -= 1;
    }
    Ok((values, at))
}

impl<T: Encoded> Encoded for Vec<T> {
    ghost use Rattle.desk_journal.specs.Encodings.{list_bytes};
    ghost use Rattle.desk_journal.specs.CodecLemmas.{list_there, list_rest};

    ghost bytes = { λ values. list_bytes T.bytes values.items };

    fn write(&self, out: &mut Vec<u8>) -> Result<(), AllocError> {
        write_list(self, out)
    }

    fn read(alloc: Global, input: &[u8]) -> Result<(Vec<T>, usize), ReadFault> {
        read_list(alloc, input)
    }

    ghost is_there = { λ values. list_there T.bytes values.items };

    ghost one_rest = { λ v w r s. list_rest T.bytes T.is_there T.one_rest v.items w.items r s };
}
