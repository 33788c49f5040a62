//! Files that are no journals, and what each is taken for.

ghost use Rattle.std.specs.Prelude.{◌≡◌, ◌≤◌, ◌⊎◌, ◌++◌, List, ℕ, [], IfNone, IfSome, length};
ghost use Rattle.journal.specs.Records.{FitsRecord, IsTorn, record_of};

use journal::first_record;

/// What a file is taken for that is no journal.
#[derive(Clone, Copy, Debug, PartialEq, Eq)]
pub enum TakenFor {
    /// A database of SQLite's.
    Database,
    /// A program or a library of this system's.
    Program,
    /// A text.
    Text,
    /// The first record of a journal, cut off by a crash, or other data.
    Data,
}

impl TakenFor {
    /// The words that tell it.
    pub fn text(self) -> &'static str {
        match self {
            TakenFor::Database => "a SQLite database",
            TakenFor::Program => "a program",
            TakenFor::Text => "a text",
            TakenFor::Data => {
                "other data, or for a first record that a crash cut off, of which nothing was told"
            }
        }
    }
}

// Whether a byte stands in texts: it is no control character but a tab or the end of a line.
fn is_printed(byte: u8) -> bool {
    byte >= b' ' || matches!(byte, b'\t' | b'\n' | b'\r')
}

fn is_text(bytes: &[u8]) -> bool {
    match str::from_utf8(bytes) {
        Ok(_) => bytes.iter().all(|byte| is_printed(*byte)),
        Err(_) => false,
    }
}

// What bytes are taken for that begin with no record.
fn kind_of(bytes: &[u8]) -> TakenFor {
    if bytes.starts_with(b"SQLite format 3\0") {
        return TakenFor::Database;
    }
    if bytes.starts_with(b"\x7fELF") {
        return TakenFor::Program;
    }
    if is_text(bytes) {
        TakenFor::Text
    } else {
        TakenFor::Data
    }
}

/// What a file with these bytes is taken for. `None` where it may be a journal: it is empty, or begins
/// with a whole record.
pub fn taken_for(bytes: &[u8]) -> Option<TakenFor>
    ensures journal { IfNone result ((bytes.now ≡ []) ⊎ ((payload : List ℕ) × (rest : List ℕ)
        × FitsRecord payload × (bytes.now ≡ record_of payload ++ rest))) }
    ensures foreign { IfSome result (λ _. (1 ≤ length bytes.now) × IsTorn bytes.now) }
{
    if bytes.is_empty() || first_record(bytes).is_some() {
        return None;
    }
    Some(kind_of(bytes))
}
