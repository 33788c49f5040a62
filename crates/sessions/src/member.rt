//! The members of a JSON object: texts, names, numbers, bytes in hexadecimal, and lists.

ghost use Rattle.std.specs.Prelude.{◌≡◌, ◌≢◌, Some, None, IfOk, IfErr, option_map, map};
ghost use Rattle.std.specs.List.{list_all};
ghost use Rattle.serde_json.specs.View.{view};
ghost use Rattle.sessions.specs.Grammar as grammar;
ghost use Rattle.sessions.specs.Grammar.{text_at_key, number_between, number_at_key, bytes_at_key, list_at_key, tenant_at, is_name, is_name_byte};
ghost use Rattle.sessions.specs.OwnNames.{tenant_by};
ghost use Rattle.sessions.specs.declared.fault.SessionFault.TheVariants.{BadRequest, NoMemory};

use crate::fault::SessionFault;
use crate::hexadecimal::decoded;
use crate::tenant_key::TenantKey;
use serde_json::Value;
use std::alloc::Global;

const LONGEST_NAME: usize = 32;

const LONGEST_KEY: usize = 64;

/// The text at a key.
pub(crate) fn text_member<'a>(value: &'a Value, key: &str) -> Option<&'a str>
    ensures { option_map (λ s. s.now) result ≡ text_at_key key.now (view value.now) }
{
    value.get(key).and_then(Value::as_str)
}

/// A whole number from low to high.
pub(crate) fn number_of(value: &Value, low: u64, high: u64) -> Option<u64>
    ensures { result ≡ number_between low high (view value.now) }
{
    let number = value.as_u64()?;
    if low <= number && number <= high {
        Some(number)
    } else {
        None
    }
}

/// The whole number from low to high at a key.
pub(crate) fn number_member(value: &Value, key: &str, low: u64, high: u64) -> Option<u64>
    ensures { result ≡ number_at_key key.now low high (view value.now) }
{
    number_of(value.get(key)?, low, high)
}

/// The bytes that the hexadecimal text at a key writes.
#[tactic(auto, unfolding(crate::specs::Grammar::bytes_at_key))]
pub(crate) fn bytes_member(alloc: Global, value: &Value, key: &str) -> Result<Vec<u8>, SessionFault>
    ensures ok { IfOk result (λ bytes. bytes_at_key key.now (view value.now) ≡ Some bytes.items) }
    ensures err { IfErr result (λ e. (e ≢ NoMemory) → (e ≡ BadRequest)
        × (bytes_at_key key.now (view value.now) ≡ None)) }
{
    let Some(text) = text_member(value, key) else {
        return Err(SessionFault::BadRequest);
    };
    decoded(alloc, text.as_bytes())
}

/// The values of the array at a key.
pub(crate) fn list_member<'a>(value: &'a Value, key: &str) -> Option<&'a Vec<Value>>
    ensures { option_map (λ vs. map view vs.now.items) result
        ≡ list_at_key key.now (view value.now) }
{
    value.get(key)?.as_array()
}

fn is_name_byte(byte: u8) -> bool
    ensures { result ≡ is_name_byte byte }
{
    (b'a' <= byte && byte <= b'z') || (b'0' <= byte && byte <= b'9') || byte == b'_' || byte == b'-'
}

fn has_name_bytes(bytes: &[u8]) -> bool
    ensures { result ≡ list_all is_name_byte bytes.now }
{
    bytes.iter().all(|byte| is_name_byte(*byte))
}

#[tactic(auto, using(crate::proofs::Names::name_empty, crate::proofs::Names::name_long, crate::proofs::Names::name_holds))]
fn is_name(text: &str) -> bool
    ensures { result ≡ is_name text.now }
{
    if text.is_empty() {
        return false;
    }
    if text.len() > LONGEST_NAME {
        return false;
    }
    has_name_bytes(text.as_bytes())
}

/// Whether a text may be the key of a submit.
#[tactic(auto, using(crate::proofs::Names::key_empty, crate::proofs::Names::key_long, crate::proofs::Names::key_holds))]
pub(crate) fn is_job_key(text: &str) -> bool
    ensures { result ≡ grammar.is_job_key text.now }
{
    if text.is_empty() {
        return false;
    }
    if text.len() > LONGEST_KEY {
        return false;
    }
    has_name_bytes(text.as_bytes())
}

// The name of a tenant, at its key.
fn name_member(value: &Value) -> Option<&str>
    ensures { option_map (λ s. s.now) result ≡ tenant_at (view value.now) }
{
    let name = text_member(value, "tenant")?;
    if is_name(name) { Some(name) } else { None }
}

/// The name of a tenant; where its key may be left out and is, the empty name.
pub(crate) fn tenant_member(value: &Value, key: TenantKey) -> Option<&str>
    ensures { option_map (λ s. s.now) result ≡ tenant_by key (view value.now) }
{
    match key {
        TenantKey::Required => name_member(value),
        TenantKey::Optional => match value.get("tenant") {
            Some(_) => name_member(value),
            None => Some(""),
        },
    }
}
