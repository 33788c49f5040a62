//! Which scenario is asked for, and requests for memory around it.

ghost use Rattle.std.specs.Prelude.{◌≤◌};

use std::alloc::Global;

/// A scenario, and how many requests are made ahead of it and, at most, behind it.
#[derive(Drop)]
pub struct ScenarioCall<'a> {
    pub name: &'a str,
    pub ahead: u32,
    pub most: u32,
}

/// Reads `NAME AHEAD MOST`.
pub fn question_of(input: &[u8]) -> Option<ScenarioCall<'_>> {
    let text = str::from_utf8(input).ok()?;
    let mut words = text.trim().split(' ');
    let name = words.next()?;
    let ahead = words.next()?.parse().ok()?;
    let most = words.next()?.parse().ok()?;
    Some(ScenarioCall { name, ahead, most })
}

/// Makes requests for memory, one after the other, and drops what they give. How many were made
/// ahead of one that was refused, or all.
pub fn make(alloc: Global, count: u32) -> u32
    ensures { result ≤ count }
{
    for made in 0..count {
        let mut byte = Vec::new(alloc);
        if byte.push(made).is_err() {
            return made;
        }
    }
    count
}
