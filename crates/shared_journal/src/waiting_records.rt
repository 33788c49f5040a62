//! The records that wait for a commit, as bytes.

ghost use Rattle.std.specs.Prelude.{◌≡◌, ◌++◌, OnErr, OnOk};

use refusal::NoMemory;

/// Puts a record behind those that wait.
pub(crate) fn put_behind(waiting: &mut Vec<u8>, bytes: &[u8]) -> Result<(), NoMemory>
    ensures ok { OnOk result (waiting.new.items ≡ waiting.old.items ++ bytes.now) }
    ensures err { OnErr result (waiting.new.items ≡ waiting.old.items) }
{
    match waiting.extend_from_slice(bytes) {
        Ok(()) => Ok(()),
        Err(_) => Err(NoMemory),
    }
}

/// Makes room for so many bytes more. The records stay.
pub(crate) fn make_room(waiting: &mut Vec<u8>, len: usize) -> Result<(), NoMemory>
    ensures { waiting.new.items ≡ waiting.old.items }
{
    match waiting.reserve(len) {
        Ok(()) => Ok(()),
        Err(_) => Err(NoMemory),
    }
}
