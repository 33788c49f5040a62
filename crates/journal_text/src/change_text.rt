//! The line of a change.

ghost use Rattle.std.specs.Prelude.{◌≡◌, IfOk};
ghost use Rattle.serde_json.specs.Written.{compact_text};
ghost use Rattle.journal_text.specs.ChangeData.{change_data};
ghost use Rattle.journal_text.specs.ChangeLines.{change_line};
ghost use Rattle.journal_text.specs.KeyedData.{by_key_data, key_kept_data, keyed_data};

use crate::change_value::{change_value, key_kept_value, key_value};
use desk_journal::DeskChange;
use keyed_desk::KeyedChange;
use refusal::NoMemory;
use std::alloc::{AllocError, Global};

// The object of a change of the desk alone.
fn plain_text(
    alloc: Global,
    at: u64,
    number: u64,
    change: &DeskChange,
) -> Result<Vec<u8>, AllocError>
    ensures { IfOk result (λ text. text.items ≡ compact_text (change_data at number change.now)) }
{
    let value = change_value(alloc, at, number, change)?;
    value.to_vec(alloc)
}

// The object of a change of the desk by a key, which is its last member.
fn by_key_text(
    alloc: Global,
    at: u64,
    number: u64,
    key: &[u8],
    change: &DeskChange,
) -> Result<Vec<u8>, AllocError>
    ensures { IfOk result (λ text. text.items
        ≡ compact_text (by_key_data (change_data at number change.now) key.now)) }
{
    let key = key_value(alloc, key)?;
    let member = key.to_vec(alloc)?;
    let mut text = plain_text(alloc, at, number, change)?;
    text.pop(); // its brace, and below the other's
    text.push(b',')?;
    text.extend_from_slice(&member[1..])?;
    Ok(text)
}

// The object of a job that has its key again.
fn key_kept_text(alloc: Global, at: u64, job: u64, key: &[u8]) -> Result<Vec<u8>, AllocError>
    ensures { IfOk result (λ text. text.items ≡ compact_text (key_kept_data at job key.now)) }
{
    let value = key_kept_value(alloc, at, job, key)?;
    value.to_vec(alloc)
}

// The object of a change.
fn change_text(
    alloc: Global,
    at: u64,
    number: u64,
    change: &KeyedChange,
) -> Result<Vec<u8>, AllocError>
    ensures { IfOk result (λ text. text.items ≡ compact_text (keyed_data at number change.now)) }
{
    match change {
        KeyedChange::Plain { change } => plain_text(alloc, at, number, change),
        KeyedChange::ByKey { key, change } => by_key_text(alloc, at, number, key, change),
        KeyedChange::KeyKept { job, key } => key_kept_text(alloc, at, *job, key),
    }
}

/// The change whose record begins at this byte, as a JSON object on a line: compact, with its
/// members in ascending order of their names. The `key` of a change by a key is its last member. A
/// job that it takes gets this number.
pub fn change_line(
    alloc: Global,
    at: u64,
    number: u64,
    change: &KeyedChange,
) -> Result<Vec<u8>, NoMemory>
    ensures { IfOk result (λ line. line.items ≡ change_line at number change.now) }
{
    let mut line = change_text(alloc, at, number, change)?;
    line.push(b'\n')?;
    Ok(line)
}
