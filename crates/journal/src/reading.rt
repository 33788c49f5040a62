//! Bytes to records.

ghost use Rattle.std.specs.Prelude.{◌≡◌, ◌↔◌, IsTrue, ◌++◌, ◌<◌, ℕ, List, ◌≤◌, ◌^◌, ◌+◌, length, take, drop, map, IfOk, IfSome, IfNone};
ghost use Rattle.journal.specs.Records.{record_of, journal_of, FitsRecord, IsTorn, DecodesTo};
ghost use Rattle.journal.specs.Tails.{check_cost};

use crate::writing::header;
use std::alloc::{AllocError, Global};

/// The bytes ahead of a payload: its length and its checksum.
pub const HEADER_LEN: usize = 8;

// The payload that the length at the front claims, if as many bytes are there.
#[tactic(auto, unfolding(crate::specs::Tails::check_cost))]
pub(crate) fn claimed_payload(bytes: &[u8]) -> Option<&[u8]>
    ensures some { IfSome result (λ payload. (8 ≤ length bytes.now) × FitsRecord payload.now
        × (payload.now ≡ take (length payload.now) (drop 8 bytes.now))) }
    ensures only { IfSome result (λ payload. (q more : List ℕ) → FitsRecord q
        → bytes.now ≡ record_of q ++ more → payload.now ≡ q) }
    ensures none { IfNone result (IsTorn bytes.now) }
    ensures cost { IfSome result (λ payload. length payload.now ≡ check_cost bytes.now) }
    ensures free { IfNone result (check_cost bytes.now ≡ 0) }
{
    if bytes.len() < HEADER_LEN {
        return None;
    }
    let (head, rest) = bytes.split_at(HEADER_LEN);
    let len = u32::from_le_bytes([head[0], head[1], head[2], head[3]]) as usize;
    if rest.len() < len {
        return None;
    }
    Some(rest.split_at(len).0)
}

fn bytes_equal(a: &[u8], b: &[u8]) -> bool
    ensures { IsTrue result ↔ (a.now ≡ b.now) }
{
    a == b
}

/// The payload of the record at the front. None where there is no whole record.
pub fn first_record(bytes: &[u8]) -> Option<&[u8]>
    ensures some { IfSome result (λ payload. FitsRecord payload.now
        × (bytes.now ≡ record_of payload.now ++ drop (8 + length payload.now) bytes.now)) }
    ensures within { IfSome result (λ payload. 8 + length payload.now ≤ length bytes.now) }
    ensures none { IfNone result (IsTorn bytes.now) }
{
    let payload = claimed_payload(bytes)?;
    let (length, checksum) = header(payload);
    let (length_there, rest) = bytes.split_at(4);
    let (checksum_there, _) = rest.split_at(4);
    if !bytes_equal(length_there, &length) {
        return None;
    }
    if !bytes_equal(checksum_there, &checksum) {
        return None;
    }
    Some(payload)
}

/// The records of a journal, and how many bytes they are.
#[derive(Drop)]
pub struct DecodedRecords {
    pub payloads: Vec<Vec<u8>>,
    pub len: usize,
}

/// All records at the front, up to the first that is torn.
pub fn decode_all(alloc: Global, bytes: &[u8]) -> Result<DecodedRecords, AllocError>
    ensures { IfOk result (λ found. DecodesTo bytes.now (map (λ p. p.items) found.payloads.items)
        (drop found.len bytes.now)) }
{
    let mut payloads = Vec::new(alloc);
    let mut rest = bytes;
    while let Some(payload) = first_record(rest) {
        payloads.push(payload.to_vec(alloc)?)?;
        rest = rest.split_at(HEADER_LEN + payload.len()).1;
    }
    let len = bytes.len() - rest.len();
    Ok(DecodedRecords { payloads, len })
}
