//! Numbers as bytes, the lowest first.

ghost use Rattle.std.specs.Prelude.{◌≡◌, ◌++◌};

use crate::encoded::{Encoded, ReadFault};
use std::alloc::{AllocError, Global};

impl Encoded for u8 {
    ghost use Rattle.std.specs.Prelude.{◌∷◌, []};
    ghost use Rattle.desk_journal.specs.NumberLemmas.{rest_behind_1, there_1};

    ghost bytes = { λ n. n ∷ [] };

    fn write(&self, out: &mut Vec<u8>) -> Result<(), AllocError> {
        out.extend_from_slice(&[*self])
    }

    fn read(_alloc: Global, input: &[u8]) -> Result<(u8, usize), ReadFault> {
        match input.first() {
            Some(first) => Ok((*first, 1)),
            None => Err(ReadFault::NoValue),
        }
    }

    ghost is_there = { there_1 };

    ghost one_rest = { λ v w r s small same. rest_behind_1 v w r s same };
}

impl Encoded for u64 {
    ghost use Rattle.std.specs.Int.{w64, to_le_bytes};
    ghost use Rattle.desk_journal.specs.NumberLemmas.{rest_behind_8, there_8};

    ghost bytes = { λ n. to_le_bytes w64 n };

    fn write(&self, out: &mut Vec<u8>) -> Result<(), AllocError> {
        out.extend_from_slice(&self.to_le_bytes())
    }

    fn read(_alloc: Global, input: &[u8]) -> Result<(u64, usize), ReadFault> {
        if input.len() < 8 {
            return Err(ReadFault::NoValue);
        }
        let (front, _) = input.split_at(8);
        let bytes = [
            front[0], front[1], front[2], front[3], front[4], front[5], front[6], front[7],
        ];
        Ok((u64::from_le_bytes(bytes), 8))
    }

    ghost is_there = { there_8 };

    ghost one_rest = { λ v w r s small same. rest_behind_8 v w r s same };
}

impl Encoded for u32 {
    ghost use Rattle.std.specs.Int.{w32, to_le_bytes};
    ghost use Rattle.desk_journal.specs.NumberLemmas.{rest_behind_4, there_4};

    ghost bytes = { λ n. to_le_bytes w32 n };

    fn write(&self, out: &mut Vec<u8>) -> Result<(), AllocError> {
        out.extend_from_slice(&self.to_le_bytes())
    }

    fn read(_alloc: Global, input: &[u8]) -> Result<(u32, usize), ReadFault> {
        if input.len() < 4 {
            return Err(ReadFault::NoValue);
        }
        let (front, _) = input.split_at(4);
        let bytes = [front[0], front[1], front[2], front[3]];
        Ok((u32::from_le_bytes(bytes), 4))
    }

    ghost is_there = { there_4 };

    ghost one_rest = { λ v w r s small same. rest_behind_4 v w r s same };
}

impl Encoded for u16 {
    ghost use Rattle.std.specs.Int.{w16, to_le_bytes};
    ghost use Rattle.desk_journal.specs.NumberLemmas.{rest_behind_2, there_2};

    ghost bytes = { λ n. to_le_bytes w16 n };

    fn write(&self, out: &mut Vec<u8>) -> Result<(), AllocError> {
        out.extend_from_slice(&self.to_le_bytes())
    }

    fn read(_alloc: Global, input: &[u8]) -> Result<(u16, usize), ReadFault> {
        if input.len() < 2 {
            return Err(ReadFault::NoValue);
        }
        let (front, _) = input.split_at(2);
        Ok((u16::from_le_bytes([front[0], front[1]]), 2))
    }

    ghost is_there = { there_2 };

    ghost one_rest = { λ v w r s small same. rest_behind_2 v w r s same };
}

/// 1 for true, and 0 for false.
impl Encoded for bool {
    ghost use Rattle.desk_journal.specs.Encodings.{bool_bytes};
    ghost use Rattle.desk_journal.specs.NumberLemmas.{rest_behind_bool, there_bool};

    ghost bytes = { bool_bytes };

    fn write(&self, out: &mut Vec<u8>) -> Result<(), AllocError> {
        out.extend_from_slice(&[u8::from(*self)])
    }

    fn read(_alloc: Global, input: &[u8]) -> Result<(bool, usize), ReadFault> {
        let Some(first) = input.first() else {
            return Err(ReadFault::NoValue);
        };
        if *first == 0 {
            return Ok((false, 1));
        }
        if *first == 1 {
            return Ok((true, 1));
        }
        Err(ReadFault::NoValue)
    }

    ghost is_there = { there_bool };

    ghost one_rest = { λ v w r s small same. rest_behind_bool v w r s same };
}
