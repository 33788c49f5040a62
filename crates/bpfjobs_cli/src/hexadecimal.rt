//! The bytes that the input writes in hexadecimal.

ghost use Rattle.std.specs.Prelude.{◌≡◌, ◌↔◌, IfOk, IfErr, IsTrue};
ghost use Rattle.bpfjobs_cli.specs.Hexadecimal.{IsTrailing, IsTrimmed, IsHexadecimal, IsNoHexadecimal};
ghost use Rattle.bpfjobs_cli.specs.declared.hexadecimal.Unread.TheVariants as unread;

use hex::FromHexError;
use std::alloc::Global;

/// Why there are no bytes.
#[derive(Clone, Copy, Debug, PartialEq, Eq)]
pub enum Unread {
    NotHexadecimal,
    NoMemory,
}

// What follows is no part of the hexadecimal.
fn is_trailing(byte: u8) -> bool
    ensures { IsTrue result ↔ IsTrailing byte }
{
    matches!(byte, b' ' | b'\t' | b'\r' | b'\n')
}

// The text without what trails it.
fn trim(text: &[u8]) -> &[u8]
    ensures { IsTrimmed text.now result.now }
{
    let mut end = text.len();
    while end > 0 && is_trailing(text[end - 1]) {
        end -= 1;
    }
    &text[..end]
}

/// Why there are no bytes: for want of memory only where that was refused.
pub(crate) fn why(error: FromHexError) -> Unread
    ensures { (result ≡ unread.NoMemory) ↔ (error ≡ FromHexError.OutOfMemory) }
{
    match error {
        FromHexError::OutOfMemory => Unread::NoMemory,
        _ => Unread::NotHexadecimal,
    }
}

/// The bytes, by digits in either case. Blanks and line ends behind them are dropped.
pub fn read_hexadecimal(alloc: Global, text: &[u8]) -> Result<Vec<u8>, Unread>
    ensures ok { IfOk result (λ bytes. IsHexadecimal text.now bytes.items) }
    ensures err { IfErr result (λ why. why ≡ unread.NotHexadecimal → IsNoHexadecimal text.now) }
{
    match hex::decode(alloc, trim(text)) {
        Ok(bytes) => Ok(bytes),
        Err(error) => Err(why(error)),
    }
}
