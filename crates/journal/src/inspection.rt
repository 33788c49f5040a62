//! The bytes behind the whole records: a torn tail, or damage.

ghost use Rattle.std.specs.Prelude.{◌≡◌, ◌≤◌, ℕ, List, length, drop};
ghost use Rattle.journal.specs.Records.{DecodesTo};
ghost use Rattle.journal.specs.Tails.{IsTail, check_cost as check_cost_of};

use crate::reading::{HEADER_LEN, claimed_payload, first_record};

/// The kind of the bytes behind a journal's whole records.
#[derive(Clone, Copy, Debug, PartialEq, Eq)]
pub enum TailKind {
    /// Nothing: the journal is whole.
    Empty,
    /// Bytes without a whole record at any place, as a write leaves that was cut short.
    Torn,
    /// Bytes, and then a whole record, so many bytes on: what stands ahead of it is damaged.
    Damaged { record_at: usize },
    /// Bytes through which a search for a whole record costs more than its budget.
    Unsearched,
}

// How many bytes the checksum takes that tells whether a record stands at the front.
fn check_cost(bytes: &[u8]) -> usize
    ensures { result ≡ check_cost_of bytes.now }
{
    match claimed_payload(bytes) {
        Some(payload) => payload.len(),
        None => 0,
    }
}

/// The kind of a tail, by a search for a whole record at each of its places.
///
/// A place costs its claimed payload's bytes of checksum, where that many are there. The search
/// ends where the budget does. Among n random bytes a place passes for a record by chance once in
/// 2 ^ 64 / n times.
pub fn inspect_tail(tail: &[u8], budget: usize) -> TailKind
    ensures { IsTail tail.now budget result }
{
    if tail.is_empty() {
        return TailKind::Empty;
    }
    let mut rest = tail;
    let mut left = budget;
    while !rest.is_empty() {
        let cost = check_cost(rest);
        if left < cost {
            return TailKind::Unsearched;
        }
        left -= cost;
        if first_record(rest).is_some() {
            let record_at = tail.len() - rest.len();
            return TailKind::Damaged { record_at };
        }
        rest = rest.split_at(1).1;
    }
    TailKind::Torn
}

/// How many bytes a journal's whole records are, and what kind of tail stands behind them.
#[derive(Clone, Copy, Debug, PartialEq, Eq)]
pub struct Inspection {
    pub len: usize,
    pub tail: TailKind,
}

// How many bytes the whole records at the front take.
fn whole_len(bytes: &[u8]) -> usize
    ensures within { result ≤ length bytes.now }
    ensures reads { (payloads : List (List ℕ))
        × DecodesTo bytes.now payloads (drop result bytes.now) }
{
    let mut rest = bytes;
    while let Some(payload) = first_record(rest) {
        rest = rest.split_at(HEADER_LEN + payload.len()).1;
    }
    bytes.len() - rest.len()
}

/// Tells a whole journal from one with a torn tail and from one that is damaged.
///
/// Takes time in proportion to the bytes and the budget, and no memory.
pub fn inspect(bytes: &[u8], budget: usize) -> Inspection
    ensures within { result.len ≤ length bytes.now }
    ensures reads { (payloads : List (List ℕ))
        × DecodesTo bytes.now payloads (drop result.len bytes.now) }
    ensures tail { IsTail (drop result.len bytes.now) budget result.tail }
{
    let len = whole_len(bytes);
    let tail = inspect_tail(bytes.split_at(len).1, budget);
    Inspection { len, tail }
}
