//! How many states a verified program keeps.

use crate::graphs::refused;
use helpers::HelperTable;
use std::alloc::Global;
use verifier::verify;

/// How many states the program keeps, and its cost.
pub fn kept(alloc: Global, need: &str, code: &[u8]) -> anyhow::Result<String> {
    match verify(alloc, need.parse::<u32>()?, code, &HelperTable::job()) {
        Ok(verified) => Ok(format!(in alloc; "{} cost {}", verified.kept(), verified.cost())?),
        Err(refusal) => refused(alloc, refusal.code(), refusal.slot()),
    }
}
