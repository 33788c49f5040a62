//! What is wrong, by any number.

ghost use Rattle.std.specs.Prelude.{◌≡◌};
ghost use Rattle.explain.specs.RefusalWords.{refusal_words};

use crate::refusal_texts::refusal_text;

/// What is wrong where the number is that of a refusal, and else `unknown`.
pub fn refusal_words(number: u8) -> &'static str
    ensures { result.now ≡ refusal_words number }
{
    match refusal_text(number) {
        Some(text) => text,
        None => "unknown",
    }
}
