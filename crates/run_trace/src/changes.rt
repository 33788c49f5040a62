//! What differs between two states of a task.

ghost use Rattle.std.specs.Prelude.{◌≡◌, ◌↔◌, ℕ, ◌-◌, ◌≤◌, ◌<◌, length, IfOk, IsTrue, MatchOption};
ghost use Rattle.reference.specs.Records.{registers_of};
ghost use Rattle.run_trace.specs.Steps.{AreChanges, IsOther, IsRegionAfter, IsSame};

use crate::step::{ChangedBytes, RegisterChange};
use reference::Content;
use refusal::NoMemory;
use std::alloc::Global;

/// Whether two registers hold the same.
fn is_same(one: Content, other: Content) -> bool
    ensures { IsTrue result ↔ (one ≡ other) }
{
    match one {
        Content::Unset => match other {
            Content::Unset => true,
            _ => false,
        },
        Content::Num(number) => match other {
            Content::Num(same) => number == same,
            _ => false,
        },
        Content::Stack(position) => match other {
            Content::Stack(same) => position == same,
            _ => false,
        },
        Content::Part(position) => match other {
            Content::Part(same) => position == same,
            _ => false,
        },
    }
}

/// The registers that hold something else than before.
pub(crate) fn changed_registers(
    alloc: Global,
    before: &[Content; 11],
    after: &[Content; 11],
) -> Result<Vec<RegisterChange>, NoMemory>
    ensures { IfOk result (λ changes. AreChanges (registers_of before.now)
        (registers_of after.now) changes.items) }
{
    let mut changes = Vec::new(alloc);
    for register in 0u8..11 {
        let content = after[register as usize];
        if !is_same(before[register as usize], content) {
            changes.push(RegisterChange { register, content })?;
        }
    }
    Ok(changes)
}

/// The first byte that is another than before.
fn first_other(before: &[u8], after: &[u8]) -> Option<usize>
    requires { length before.now ≡ length after.now }
    ensures front { MatchOption result ((k : ℕ) → IsSame before.now after.now k)
        (λ first. (k : ℕ) → k < first → IsSame before.now after.now k) }
    ensures first { MatchOption result (Unit {0}) (λ first. IsOther before.now after.now first
        × (first < length after.now)) }
{
    for place in 0..after.len() {
        if before[place] != after[place] {
            return Some(place);
        }
    }
    None
}

/// The place behind the last byte that is another than before.
fn behind_others(before: &[u8], after: &[u8], first: usize) -> usize
    requires same { length before.now ≡ length after.now }
    requires first { IsOther before.now after.now first × (first < length after.now) }
    ensures more { first < result }
    ensures within { result ≤ length after.now }
    ensures last { IsOther before.now after.now (result - 1) }
    ensures back { (k : ℕ) → result ≤ k → IsSame before.now after.now k }
{
    let mut end = after.len();
    while before[end - 1] == after[end - 1] {
        end -= 1;
    }
    end
}

/// The bytes that are others than before, of a region of one length.
pub(crate) fn changed_bytes(
    alloc: Global,
    before: &[u8],
    after: &[u8],
) -> Result<Option<ChangedBytes>, NoMemory>
    requires { length before.now ≡ length after.now }
    ensures { IfOk result (λ written. IsRegionAfter before.now after.now written) }
{
    let Some(first) = first_other(before, after) else {
        return Ok(None);
    };
    let end = behind_others(before, after, first);
    let mut bytes = Vec::new(alloc);
    bytes.extend_from_slice(&after[first..end])?;
    Ok(Some(ChangedBytes { at: first, bytes }))
}
