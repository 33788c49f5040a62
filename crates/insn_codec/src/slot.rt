//! A slot of eight bytes, taken apart into its fields and put together from them.

ghost use Rattle.std.specs.Prelude.{◌≡◌, ◌≤◌, ◌<◌, length};
ghost use Rattle.insn_codec.specs.Layout.{slot_at, slot_bytes, FitsSlot};

use byteorder::{ByteOrder as _, LittleEndian};

/// The fields of a slot, as unsigned numbers.
#[derive(Clone, Copy, Debug, PartialEq, Eq)]
pub struct Slot {
    pub opcode: u8,
    pub dst: u8,
    pub src: u8,
    pub offset: u16,
    pub imm: u32,
}

pub fn read_slot(bytes: &[u8]) -> Slot
    requires { 8 ≤ length bytes.now }
    ensures { result ≡ slot_at bytes.now }
{
    Slot {
        opcode: bytes[0],
        dst: bytes[1] % 16,
        src: bytes[1] / 16,
        offset: LittleEndian::read_u16(&bytes[2..]),
        imm: LittleEndian::read_u32(&bytes[4..]),
    }
}

pub fn bytes_of_slot(slot: &Slot) -> [u8; 8]
    requires { FitsSlot slot.now }
    ensures { result ≡ slot_bytes slot.now }
{
    let mut bytes = [0; 8];
    bytes[0] = slot.opcode;
    bytes[1] = 16 * slot.src + slot.dst;
    LittleEndian::write_u16(&mut bytes[2..], slot.offset);
    LittleEndian::write_u32(&mut bytes[4..], slot.imm);
    bytes
}
