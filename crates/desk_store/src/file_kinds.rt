//! The kinds of files, by their first bytes.

ghost use Rattle.std.specs.Prelude.{◌≡◌, ◌≤◌, ◌↔◌, ◌==◌, [], IsTrue, drop, length};
ghost use Rattle.std.specs.List.{list_all};
ghost use Rattle.sqlite_pool.specs.Header.{user_version};
ghost use Rattle.desk_store.specs.KindsOfFiles.{BeginsDatabase, IsEmptyDatabase, IsFileOfKind, is_half_made, is_partly, store_version};

use journal::first_record;
use sqlite_format::bytes::get_u32;

/// The version of the tables, with the word that a store's file has in front of it: `TEL` and 1.
pub const STORE_VERSION: u32 = 0x5445_4c01;

/// As many bytes as tell what a file is: an empty database's only page, and one more.
pub(crate) const FIRST_BYTES: usize = 4097;

/// The kind of a file.
#[derive(Clone, Copy, Debug, PartialEq, Eq)]
pub enum FileKind {
    /// It has no byte, or no whole page, or no table yet: an open that ended early leaves it so.
    Blank,
    /// A store of this version.
    Store,
    /// A store of a later version.
    LaterStore(u32),
    /// Another program's database.
    OtherDatabase,
    /// A journal of a desk's changes.
    Journal,
    /// A text, or other data.
    Other,
}

// The bytes in front of each of SQLite's databases.
const BEGINNING: &[u8; 16] = b"SQLite format 3\0";

// Whether each byte is zero, or that of a text.
fn is_partly(bytes: &[u8], text: &[u8]) -> bool
    ensures { result ≡ is_partly bytes.now text.now }
{
    let Some((byte, bytes)) = bytes.split_first() else {
        return true;
    };
    let Some((letter, text)) = text.split_first() else {
        return true;
    };
    (*byte == 0 || *byte == *letter) && is_partly(bytes, text)
}

// Whether all bytes are zero.
fn are_zeros(bytes: &[u8]) -> bool
    ensures { result ≡ list_all (λ byte. byte == 0) bytes.now }
{
    bytes.iter().all(|byte| *byte == 0)
}

// Whether all is zero behind a first page's header.
fn is_zero_behind(bytes: &[u8]) -> bool
    ensures { result ≡ list_all (λ byte. byte == 0) (drop 108 bytes.now) }
{
    if bytes.len() <= 108 {
        return true;
    }
    are_zeros(bytes.split_at(108).1)
}

// Whether a file is a first page that wasn't whole yet, as a crash leaves it.
fn is_half_made(bytes: &[u8]) -> bool
    requires { 1 ≤ length bytes.now }
    ensures { result ≡ is_half_made bytes.now }
{
    if bytes[0] != 0 {
        return false;
    }
    if bytes.len() > 4096 {
        return false;
    }
    if !is_partly(bytes, BEGINNING.as_slice()) {
        return false;
    }
    is_zero_behind(bytes)
}

fn begins_database(bytes: &[u8]) -> bool
    ensures { IsTrue result ↔ BeginsDatabase bytes.now }
{
    bytes.len() >= 108 && bytes.split_at(16).0 == BEGINNING.as_slice()
}

// Whether a database has one page, of which the list of tables is empty.
fn is_empty_database(bytes: &[u8]) -> bool
    requires { BeginsDatabase bytes.now }
    ensures { IsTrue result ↔ IsEmptyDatabase bytes.now }
{
    bytes.len() == 4096 && bytes[100] == 13 && bytes[103] == 0 && bytes[104] == 0
}

// The kind of a database.
fn database_kind(bytes: &[u8]) -> FileKind
    requires { BeginsDatabase bytes.now }
    ensures { IsFileOfKind bytes.now result }
{
    let version = get_u32(bytes, 60);
    if version > STORE_VERSION && version < STORE_VERSION + 255 {
        return FileKind::LaterStore(version - STORE_VERSION + 1);
    }
    if version != 0 && version != STORE_VERSION {
        return FileKind::OtherDatabase;
    }
    if is_empty_database(bytes) {
        return FileKind::Blank;
    }
    if version == STORE_VERSION {
        FileKind::Store
    } else {
        FileKind::OtherDatabase
    }
}

/// The kind of a file with these first bytes.
pub fn file_kind(bytes: &[u8]) -> FileKind
    ensures { IsFileOfKind bytes.now result }
{
    if bytes.is_empty() {
        return FileKind::Blank;
    }
    if is_half_made(bytes) {
        return FileKind::Blank;
    }
    if begins_database(bytes) {
        return database_kind(bytes);
    }
    match first_record(bytes) {
        Some(_) => FileKind::Journal,
        None => FileKind::Other,
    }
}
