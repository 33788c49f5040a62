//! Programs that a machine for single programs runs: a filter of packets, and the sum of a whole
//! part.

ghost use Rattle.std.specs.Prelude.{◌≤◌, vec_len};

use assembler::assemble;
use std::alloc::Global;
use virtual_machine::Vm;

/// Takes a packet of the protocols TCP over IP, version 4, to port 80 or 443: 1 for such a one,
/// else 0.
const FILTER: &str = "\
ldxh r3, [r1+12]
jne r3, 8, +14      ; the packet's kind, 0x0800 with its highest byte first
ldxb r3, [r1+23]
jne r3, 6, +12      ; the protocol
ldxb r3, [r1+14]
and64 r3, 15        ; the length of the header, in words
lsh64 r3, 2
jlt r3, 20, +8
add64 r1, r3
ldxh r4, [r1+16]
be16 r4
mov64 r0, 1
jeq r4, 80, +2
jeq r4, 443, +1
mov64 r0, 0
exit
mov64 r0, 0
exit
";

/// A program with what it is run on.
#[derive(Drop)]
pub struct Single {
    /// The name that is printed.
    pub name: &'static str,
    /// How many bytes it needs.
    pub need: u32,
    /// Its bytes.
    pub code: Vec<u8>,
    /// Its memory, of 65,536 bytes at most.
    pub memory: Vec<u8>,
    /// The credit that it gets.
    pub credit: u16,
    ghost small: { vec_len memory ≤ 65536 },
}

/// The filter, with a packet to port 80.
pub fn filter(alloc: Global) -> anyhow::Result<Single> {
    let mut memory = vec![in alloc; 0; 78]?;
    memory[12] = 8;
    memory[14] = 0x45;
    memory[23] = 6;
    memory[37] = 80;
    Ok(Single {
        name: "filter",
        need: 78,
        code: assemble(alloc, FILTER)?,
        memory,
        credit: 100,
    })
}

/// The sum of 65,536 bytes, in 128 calls of 512, the most that one call sums up.
pub fn sum(alloc: Global) -> anyhow::Result<Single> {
    let mut text = String::from_str(alloc, "mov64 r6, r1\nmov64 r7, 0\n")?;
    for piece in 0..128u32 {
        let at = piece * 512;
        let call = format!(in alloc;
            "mov64 r1, r6\nadd64 r1, {at}\nmov64 r2, 512\ncall 5\nadd64 r7, r0\n"
        )?;
        text.push_str(call.as_str())?;
    }
    text.push_str("mov64 r0, r7\nexit\n")?;
    Ok(Single {
        name: "sum",
        need: 65_536,
        code: assemble(alloc, text.as_str())?,
        memory: vec![in alloc; 255; 65_536]?,
        credit: 10_000,
    })
}

/// Runs the program once, and gives R0.
pub fn executed(vm: &mut Vm, single: &mut Single) -> anyhow::Result<u64> {
    Ok(vm.execute_program(&mut single.memory, u32::from(single.credit))?)
}
