//! Single columns of a row, and the number of a row.

ghost use Rattle.std.specs.Prelude.{◌≡◌, ◌≤◌, ◌<◌, ◌^◌, ◌++◌, ◌∷◌, [], pos, IfErr, IfNone, IfOk, IfSome, IsErrOf, IsTrue, OnOk};
ghost use Rattle.sqlite_value.specs.Value.{owned};
ghost use Rattle.sqlite_value.specs.Order.{bytes, column};
ghost use Rattle.sqlite_value.specs.declared.value.Value.TheVariants.{Blob, Int, Null, Text};
ghost use Rattle.sqlite_trees.specs.Objects.{number_in};
ghost use Rattle.sqlite_trees.specs.declared.error.StoreError.TheVariants.{OutOfMemory, Unstorable};
ghost use Rattle.desk_store.specs.Tables.{is_plain};
ghost use Rattle.desk_records.specs.Columns.{id_of, most_numbers, number_below};

use sqlite_trees::error::StoreError;
use sqlite_value::row::Row;
use sqlite_value::value::{Bytes, ValueRef};
use std::alloc::{AllocError, Global};

// The jobs that a desk may number.
const MOST_NUMBERS: u64 = 100_000_000_000_000;

/// The number of a desk's row for a job: in decimal, the desk and then 14 digits of the job.
pub fn row_id(desk: u16, number: u64) -> Option<i64>
    ensures some { IfSome result (λ id. (id ≡ pos (id_of desk number)) × (number < most_numbers)) }
    ensures none { IfNone result (most_numbers ≤ number) }
{
    if number >= MOST_NUMBERS {
        return None;
    }
    let id = u64::from(desk) * MOST_NUMBERS + number;
    Some(id as i64)
}

/// The same, where a number that is too large can't be stored.
pub(crate) fn stored_id(desk: u16, number: u64) -> Result<i64, StoreError>
    ensures ok { IfOk result (λ id. id ≡ pos (id_of desk number)) }
    ensures small { OnOk result (number < most_numbers) }
    ensures refused { IfErr result (λ error. (error ≡ Unstorable) × (most_numbers ≤ number)) }
{
    match row_id(desk, number) {
        Some(id) => Ok(id),
        None => Err(StoreError::Unstorable),
    }
}

/// Begins a row with its key, and NULL in the column that stands for it.
pub(crate) fn begin_row(row: &mut Row, key: i64) -> Result<(), StoreError>
    ensures ok { OnOk result (row.new ≡ Int key ∷ Null ∷ []) }
    ensures stored { IfErr result (λ error. error ≡ OutOfMemory) }
{
    row.clear();
    row.push(ValueRef::Int(key))?;
    row.push(ValueRef::Null)?;
    Ok(())
}

// Adds an integer.
fn push_integer(row: &mut Row, integer: i64) -> Result<(), StoreError>
    ensures ok { OnOk result (row.new ≡ row.old ++ Int integer ∷ []) }
    ensures stored { IfErr result (λ error. error ≡ OutOfMemory) }
{
    row.push(ValueRef::Int(integer))?;
    Ok(())
}

/// Adds the number of a desk.
pub(crate) fn push_desk(row: &mut Row, desk: u16) -> Result<(), StoreError>
    ensures ok { OnOk result ((row.new ≡ row.old ++ Int (pos desk) ∷ []) × (desk < 2 ^ 16)) }
    ensures stored { IfErr result (λ error. error ≡ OutOfMemory) }
{
    push_integer(row, i64::from(desk))
}

/// Adds a number below 2^32.
pub(crate) fn push_narrow(row: &mut Row, number: u32) -> Result<(), StoreError>
    ensures ok { OnOk result ((row.new ≡ row.old ++ Int (pos number) ∷ []) × (number < 2 ^ 32)) }
    ensures stored { IfErr result (λ error. error ≡ OutOfMemory) }
{
    push_integer(row, i64::from(number))
}

/// Adds the code of a failure.
pub(crate) fn push_code(row: &mut Row, code: u8) -> Result<(), StoreError>
    ensures ok { OnOk result ((row.new ≡ row.old ++ Int (pos code) ∷ []) × (code < 2 ^ 8)) }
    ensures stored { IfErr result (λ error. error ≡ OutOfMemory) }
{
    push_integer(row, i64::from(code))
}

/// Begins a row with its key, which is a number below 2^32.
pub(crate) fn begin_at(row: &mut Row, key: u32) -> Result<(), StoreError>
    ensures ok { OnOk result ((row.new ≡ Int (pos key) ∷ Null ∷ []) × (key < 2 ^ 32)) }
    ensures stored { IfErr result (λ error. error ≡ OutOfMemory) }
{
    begin_row(row, i64::from(key))
}

/// Adds a number.
pub(crate) fn push_number(row: &mut Row, number: u64) -> Result<(), StoreError>
    ensures ok { OnOk result ((row.new ≡ row.old ++ Int (pos number) ∷ []) × (number < 2 ^ 63)) }
    ensures refused { IsErrOf result Unstorable → 2 ^ 63 ≤ number }
    ensures plain { IfErr result (λ error. IsTrue (is_plain error)) }
{
    if number > 9_223_372_036_854_775_807 {
        return Err(StoreError::Unstorable);
    }
    push_integer(row, number as i64)
}

/// Adds a text.
pub(crate) fn push_text(row: &mut Row, text: &Bytes) -> Result<(), StoreError>
    ensures ok { OnOk result (row.new ≡ row.old ++ Text text.now ∷ []) }
    ensures stored { IfErr result (λ error. error ≡ OutOfMemory) }
{
    row.push(ValueRef::Text(text.as_slice()))?;
    Ok(())
}

/// Adds bytes.
pub(crate) fn push_blob(row: &mut Row, blob: &Bytes) -> Result<(), StoreError>
    ensures ok { OnOk result (row.new ≡ row.old ++ Blob blob.now ∷ []) }
    ensures stored { IfErr result (λ error. error ≡ OutOfMemory) }
{
    row.push(ValueRef::Blob(blob.as_slice()))?;
    Ok(())
}

/// The number in a column, and 0 where it has none.
pub(crate) fn number_at(row: &Row, place: usize) -> u64
    ensures { result ≡ number_in (column row.now place) }
{
    match row.get(place) {
        ValueRef::Int(number) => u64::try_from(number).unwrap_or(0),
        _ => 0,
    }
}

/// The same number, and 0 where it isn't below 2^32.
pub(crate) fn narrow_at(row: &Row, place: usize) -> u32
    ensures { result ≡ number_below 4294967296 (number_in (column row.now place)) }
{
    u32::try_from(number_at(row, place)).unwrap_or(0)
}

/// The same number, and 0 where it isn't below 2^16.
pub(crate) fn desk_at(row: &Row, place: usize) -> u16
    ensures { result ≡ number_below 65536 (number_in (column row.now place)) }
{
    u16::try_from(number_at(row, place)).unwrap_or(0)
}

/// The same number, and 0 where it isn't below 2^8.
pub(crate) fn code_at(row: &Row, place: usize) -> u8
    ensures { result ≡ number_below 256 (number_in (column row.now place)) }
{
    u8::try_from(number_at(row, place)).unwrap_or(0)
}

/// The bytes of the text or the blob in a column, and none where it has neither.
pub(crate) fn bytes_at(alloc: Global, row: &Row, place: usize) -> Result<Bytes, AllocError>
    ensures { IfOk result (λ found. found ≡ bytes (column row.now place)) }
{
    match row.get(place) {
        ValueRef::Text(text) => Bytes::from_slice(alloc, text),
        ValueRef::Blob(blob) => Bytes::from_slice(alloc, blob),
        _ => Bytes::from_slice(alloc, &[]),
    }
}
