//! The keys of submits, by which a lost reply can be asked for.

use crate::member::is_job_key;
use refusal::NoMemory;
use std::alloc::Global;
use std::marker::Model;

/// A submit's key: 1 to 64 of the bytes of a tenant's name. Contracts see it as its bytes.
#[derive(Debug, Drop)]
pub struct JobKey {
    text: String,
}

impl Model for JobKey {
    ghost use Rattle.std.specs.Prelude.{◌≡◌, ℕ, List, string_bytes, true};
    ghost use Rattle.sessions.specs.Grammar.{is_job_key};

    ghost Value = { List ℕ };

    ghost view = { λ k. string_bytes k.text };

    ghost invariant = { λ k. is_job_key (string_bytes k.text) ≡ true };
}

impl JobKey {
    ghost use Rattle.std.specs.Prelude.{◌≡◌, ◌⊎◌, IfNone, IfOk, IfSome, None, Some, false, true, if◌then◌else◌};
    ghost use Rattle.std.specs.Str.{IsUtf8};
    ghost use Rattle.sessions.specs.Grammar.{is_job_key};

    /// The key that a text is, if it is one. Refused where there is no memory.
    pub fn of_text(alloc: Global, text: &str) -> Result<Option<JobKey>, NoMemory>
        ensures { IfOk result (λ key. key ≡ (if is_job_key text.now then Some text.now else None)) }
    {
        if !is_job_key(text) {
            return Ok(None);
        }
        let text = String::from_str(alloc, text)?;
        Ok(Some(JobKey { text }))
    }

    /// The key of these bytes, if they are one. Refused where there is no memory.
    pub fn of_bytes(alloc: Global, bytes: &[u8]) -> Result<Option<JobKey>, NoMemory>
        ensures some { IfOk result (λ key. IfSome key (λ same. (same ≡ bytes.now)
            × (is_job_key bytes.now ≡ true))) }
        ensures none { IfOk result (λ key. IfNone key ((IsUtf8 bytes.now → ⊥)
            ⊎ (is_job_key bytes.now ≡ false))) }
    {
        match str::from_utf8(bytes) {
            Ok(text) => JobKey::of_text(alloc, text),
            Err(_) => Ok(None),
        }
    }

    /// The key's bytes.
    pub fn as_str(&self) -> &str
        ensures same { result.now ≡ self.now }
        ensures is_key { is_job_key self.now ≡ true }
    {
        self.text.as_str()
    }
}

/// A job that was submitted by a key.
#[derive(Debug, Drop)]
pub struct KeyedJob {
    pub job: u64,
    pub key: JobKey,
}
