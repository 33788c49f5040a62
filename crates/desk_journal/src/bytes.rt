//! Bytes behind their number.

ghost use Rattle.std.specs.Prelude.{◌≡◌, ◌≤◌, ◌++◌, ℕ, List, drop, length, IfOk, OnOk, IsErrOf};
ghost use Rattle.desk_journal.specs.Encodings.{counted_bytes};
ghost use Rattle.desk_journal.specs.declared.encoded.ReadFault.TheVariants.{NoValue};

use crate::encoded::{Encoded, ReadFault};
use std::alloc::{AllocError, Global};

/// Adds bytes behind their number.
pub fn write_bytes(bytes: &[u8], out: &mut Vec<u8>) -> Result<(), AllocError>
    ensures { OnOk result (out.new.items ≡ out.old.items ++ counted_bytes bytes.now) }
{
    (bytes.len() as u64).write(out)?;
    out.extend_from_slice(bytes)
}

/// The bytes behind the number at the front, and how many these are with it.
pub(crate) fn read_bytes(alloc: Global, input: &[u8]) -> Result<(Vec<u8>, usize), ReadFault>
    ensures within { IfOk result (λ found. found.1 ≤ length input.now) }
    ensures found { IfOk result (λ found.
        input.now ≡ counted_bytes found.0.items ++ drop found.1 input.now) }
    ensures refused { IsErrOf result NoValue
        → (bytes rest : List ℕ) → input.now ≡ counted_bytes bytes ++ rest → ⊥ }
{
    let (count, at) = u64::read(alloc, input)?;
    let rest = input.split_at(at).1;
    if (rest.len() as u64) < count {
        return Err(ReadFault::NoValue);
    }
    let bytes = rest.split_at(count as usize).0.to_vec(alloc)?;
    Ok((bytes, at + count as usize))
}

/// Bytes as a value.
#[derive(Drop)]
pub struct Blob {
    pub bytes: Vec<u8>,
}

impl Encoded for Blob {
    ghost use Rattle.desk_journal.specs.Encodings.{counted_bytes};
    ghost use Rattle.desk_journal.specs.CodecLemmas.{counted_there, counted_rest};

    ghost bytes = { λ b. counted_bytes b.bytes.items };

    fn write(&self, out: &mut Vec<u8>) -> Result<(), AllocError> {
        write_bytes(&self.bytes, out)
    }

    fn read(alloc: Global, input: &[u8]) -> Result<(Blob, usize), ReadFault> {
        let (bytes, length) = read_bytes(alloc, input)?;
        Ok((Blob { bytes }, length))
    }

    ghost is_there = { λ b. counted_there b.bytes.items };

    ghost one_rest = { λ v w r s. counted_rest v.bytes.items w.bytes.items r s };
}
