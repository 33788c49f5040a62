//! Streams of texts.

use crate::stop::ScenarioFault;
use std::alloc::Global;

/// The frames of texts, one after the other.
pub fn frames(alloc: Global, texts: &[&str]) -> Result<Vec<u8>, ScenarioFault> {
    let mut bytes = Vec::new(alloc);
    for text in texts {
        let Ok(length) = u32::try_from(text.len()) else {
            return Err(ScenarioFault::Differs("a text is too long"));
        };
        bytes.extend_from_slice(&length.to_be_bytes())?;
        bytes.extend_from_slice(text.as_bytes())?;
    }
    Ok(bytes)
}
