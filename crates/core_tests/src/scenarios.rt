//! Calls by hand, one after the other, each answered as it was worked out.

use crate::{asking, books, parts, pointers, refused_spawns, wording};
use std::alloc::Global;
use std::io::Write;

/// The first of what was looked at that isn't as it was worked out.
#[derive(Clone, Copy, Debug, PartialEq, Eq)]
pub struct Findings {
    wrong: Option<&'static str>,
}

impl Findings {
    /// Keeps the words of the first that doesn't hold.
    pub fn holds(&mut self, it: bool, what: &'static str) {
        if it {
            return;
        }
        if self.wrong.is_none() {
            self.wrong = Some(what);
        }
    }
}

const NAMES: [&str; 6] = ["books", "parts", "spawns", "pointers", "asking", "wording"];

fn go_through(alloc: Global, name: &str, findings: &mut Findings) -> anyhow::Result<()> {
    match name {
        "books" => books::go_through(alloc, findings),
        "parts" => parts::go_through(alloc, findings),
        "spawns" => refused_spawns::go_through(alloc, findings),
        "pointers" => pointers::go_through(alloc, findings),
        "asking" => asking::go_through(alloc, findings),
        _ => wording::go_through(alloc, findings),
    }
}

/// Prints what each comes to, and answers how many came to something else.
pub fn tell_scenarios<W: Write>(alloc: Global, output: &mut W) -> anyhow::Result<usize> {
    let mut count = 0usize;
    for name in NAMES {
        let mut findings = Findings { wrong: None };
        go_through(alloc, name, &mut findings)?;
        match findings.wrong {
            None => writeln!(output, "{name}: as worked out")?,
            Some(what) => {
                count = count.saturating_add(1);
                writeln!(output, "{name}: {what}")?;
            }
        }
    }
    Ok(count)
}
