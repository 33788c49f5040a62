//! Pairs of values, one behind the other.

use crate::encoded::{Encoded, ReadFault};
use std::alloc::{AllocError, Global};

impl<A: Encoded, B: Encoded> Encoded for (A, B) {
    ghost use Rattle.std.specs.Prelude.{◌++◌};
    ghost use Rattle.desk_journal.specs.CodecLemmas.{pair_there, pair_rest};

    ghost bytes = { λ pair. A.bytes pair.0 ++ B.bytes pair.1 };

    fn write(&self, out: &mut Vec<u8>) -> Result<(), AllocError> {
        self.0.write(out)?;
        self.1.write(out)
    }

    fn read(alloc: Global, input: &[u8]) -> Result<((A, B), usize), ReadFault> {
        let (first, at) = A::read(alloc, input)?;
        let (second, length) = B::read(alloc, input.split_at(at).1)?;
        Ok(((first, second), at + length))
    }

    ghost is_there = { λ pair. pair_there A.bytes B.bytes A.is_there pair.0 pair.1 };

    ghost one_rest = { λ v w r s.
        pair_rest A.bytes B.bytes A.one_rest B.one_rest v.0 v.1 w.0 w.1 r s };
}
