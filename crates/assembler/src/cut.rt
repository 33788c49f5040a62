//! Cutting a text in two at a byte.

ghost use Rattle.std.specs.Prelude.{◌≡◌, ◌++◌, ◌∷◌, ℕ, List, IfSome, IfNone};
ghost use Rattle.disassembler.specs.Cut.{IsFree, StopsAtOnce, IsTwo};

/// The part in front of the first of two bytes, and the part from it on.
pub fn split_before(text: &[u8], stop: u8, other: u8) -> (&[u8], &[u8])
    ensures whole { text.now ≡ result.0.now ++ result.1.now }
    ensures front { IsFree stop other result.0.now }
    ensures back { StopsAtOnce stop other result.1.now }
{
    for (i, byte) in text.iter().enumerate() {
        if *byte == stop || *byte == other {
            return text.split_at(i);
        }
    }
    text.split_at(text.len())
}

/// The parts before the first comma and after the space that follows it; none where no such space
/// does.
pub fn two_from(text: &[u8]) -> Option<(&[u8], &[u8])>
    ensures found { IfSome result (λ parts. IsTwo text.now parts.0.now parts.1.now) }
    ensures none { IfNone result ((front back : List ℕ) → IsTwo text.now front back → ⊥) }
{
    let (front, rest) = split_before(text, b',', b',');
    if rest.len() >= 2 && rest[1] == b' ' {
        Some((front, rest.split_at(2).1))
    } else {
        None
    }
}
