//! Loads and stores: numbers of 1, 2, 4 and 8 bytes at a place in memory, the lowest byte first
//! (RFC 9669, section 5). And spans of bytes, which are filled and summed up.

ghost use Rattle.std.specs.Prelude.{◌≡◌, ◌≤◌, ◌<◌, ◌+◌, ◌*◌, ◌^◌, length, replicate, sum};
ghost use Rattle.machine_model.specs.Memory.{bytes_at, little_bytes, little_number, load_bytes, store_bytes, widened, written};

use insn_codec::{LoadKind, Size};

/// How many bytes a load reads.
#[inline]
pub fn load_bytes(kind: LoadKind) -> usize
    ensures { result ≡ load_bytes kind }
{
    match kind {
        LoadKind::Byte | LoadKind::SignedByte => 1,
        LoadKind::Half | LoadKind::SignedHalf => 2,
        LoadKind::Word | LoadKind::SignedWord => 4,
        LoadKind::Double => 8,
    }
}

/// How many bytes a store writes.
#[inline]
pub fn store_bytes(size: Size) -> usize
    ensures { result ≡ store_bytes size }
{
    match size {
        Size::Byte => 1,
        Size::Half => 2,
        Size::Word => 4,
        Size::Double => 8,
    }
}

#[inline]
fn byte_at(memory: &[u8], at: usize) -> u8
    requires { at + 1 ≤ length memory.now }
    ensures { result ≡ little_number (bytes_at memory.now at 1) }
{
    memory[at]
}

#[inline]
fn half_at(memory: &[u8], at: usize) -> u16
    requires { at + 2 ≤ length memory.now }
    ensures { result ≡ little_number (bytes_at memory.now at 2) }
{
    u16::from_le_bytes([memory[at], memory[at + 1]])
}

#[inline]
fn word_at(memory: &[u8], at: usize) -> u32
    requires { at + 4 ≤ length memory.now }
    ensures { result ≡ little_number (bytes_at memory.now at 4) }
{
    u32::from_le_bytes([memory[at], memory[at + 1], memory[at + 2], memory[at + 3]])
}

#[inline]
fn double_at(memory: &[u8], at: usize) -> u64
    requires { at + 8 ≤ length memory.now }
    ensures { result ≡ little_number (bytes_at memory.now at 8) }
{
    u64::from_le_bytes([
        memory[at],
        memory[at + 1],
        memory[at + 2],
        memory[at + 3],
        memory[at + 4],
        memory[at + 5],
        memory[at + 6],
        memory[at + 7],
    ])
}

/// What a load of this kind gives at a place in memory: the number there, with zeros or its sign
/// above it.
#[inline]
pub fn load(kind: LoadKind, memory: &[u8], at: usize) -> u64
    requires { at + load_bytes kind ≤ length memory.now }
    ensures value { result
        ≡ widened kind (little_number (bytes_at memory.now at (load_bytes kind))) }
    ensures small { little_number (bytes_at memory.now at (load_bytes kind))
        < 2 ^ (8 * load_bytes kind) }
{
    match kind {
        LoadKind::Byte => u64::from(byte_at(memory, at)),
        LoadKind::Half => u64::from(half_at(memory, at)),
        LoadKind::Word => u64::from(word_at(memory, at)),
        LoadKind::Double => double_at(memory, at),
        LoadKind::SignedByte => i64::from(byte_at(memory, at).cast_signed()).cast_unsigned(),
        LoadKind::SignedHalf => i64::from(half_at(memory, at).cast_signed()).cast_unsigned(),
        LoadKind::SignedWord => i64::from(word_at(memory, at).cast_signed()).cast_unsigned(),
    }
}

/// Puts the low bytes of a number, as many as the size has, at a place in memory.
#[inline]
pub fn store(size: Size, memory: &mut [u8], at: usize, number: u64)
    requires { at + store_bytes size ≤ length memory.old }
    ensures { memory.new ≡ written memory.old at (little_bytes (store_bytes size) number) }
{
    match size {
        Size::Byte => memory[at] = (number & 0xff) as u8,
        Size::Half => memory[at..at + 2].copy_from_slice(&((number & 0xffff) as u16).to_le_bytes()),
        Size::Word => {
            memory[at..at + 4].copy_from_slice(&((number & 0xffff_ffff) as u32).to_le_bytes());
        }
        Size::Double => memory[at..at + 8].copy_from_slice(&number.to_le_bytes()),
    }
}

/// Puts one byte into each of so many places in memory.
#[inline]
pub fn fill(memory: &mut [u8], at: usize, count: usize, byte: u8)
    requires { at + count ≤ length memory.old }
    ensures { memory.new ≡ written memory.old at (replicate count byte) }
{
    memory[at..at + count].fill(byte);
}

/// The sum of so many bytes in memory.
#[inline]
pub fn sum(memory: &[u8], at: usize, count: usize) -> u64
    requires there { at + count ≤ length memory.now }
    requires few { count ≤ 2 ^ 32 }
    ensures value { result ≡ sum (bytes_at memory.now at count) }
    ensures small { result ≤ 255 * count }
{
    let mut total = 0u64;
    for byte in &memory[at..at + count] {
        total += u64::from(*byte);
    }
    total
}
