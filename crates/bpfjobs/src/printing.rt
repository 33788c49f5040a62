//! Texts on standard output.

use bpfjobs_cli::FAILED;
use std::io;
use streams::{Tap, write_all};

/// Prints a text, and gives this status, or 3 where it can't be printed.
pub fn print_text<R: Print>(rt: &R, text: &[u8], status: u8) -> u8 {
    let mut writer = Tap::new(io::writer(rt));
    match write_all(&mut writer, text) {
        Ok(()) => status,
        Err(_) => FAILED,
    }
}
