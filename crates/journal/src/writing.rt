//! Records to bytes.

ghost use Rattle.std.specs.Prelude.{◌≡◌, ◌++◌, ◌<◌, ◌^◌, length, OnOk};
ghost use Rattle.journal.specs.Records.{length_bytes, checksum_bytes, record_of};

use crate::checksum::crc32;
use std::alloc::AllocError;

// The header of a payload.
pub(crate) fn header(payload: &[u8]) -> ([u8; 4], [u8; 4])
    requires { length payload.now < 2 ^ 32 }
    ensures length { result.0 ≡ length_bytes payload.now }
    ensures checksum { result.1 ≡ checksum_bytes payload.now }
{
    let length = (payload.len() as u32).to_le_bytes();
    let checksum = crc32(&length, payload).to_le_bytes();
    (length, checksum)
}

/// Adds a record with this payload.
#[tactic(auto, using(std::proofs::lemmas::List::append_assoc), unfolding(crate::specs::Records::header_of))]
pub fn encode_record(out: &mut Vec<u8>, payload: &[u8]) -> Result<(), AllocError>
    requires { length payload.now < 2 ^ 32 }
    ensures { OnOk result (out.new.items ≡ out.old.items ++ record_of payload.now) }
{
    let (length, checksum) = header(payload);
    out.extend_from_slice(&length)?;
    out.extend_from_slice(&checksum)?;
    out.extend_from_slice(payload)?;
    Ok(())
}
