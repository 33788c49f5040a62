//! Programs: from source text to bytes and back, and the verdict.

ghost use Rattle.std.specs.Prelude.{◌≡◌, ◌∷◌, ◌++◌, [], IfOk, None};
ghost use Rattle.hex.specs.Hex.{encode_lower};
ghost use Rattle.bpfjobs_cli.specs.Printed.{Prints, accepted_line};
ghost use Rattle.bpfjobs_cli.specs.Programs.{PrintsAssembly, PrintsListing, PrintsVerdict};

use crate::answer::{Answer, answer_refusal};
use crate::hexadecimal::{Unread, read_hexadecimal};
use assembler::assemble;
use disassembler::disassemble;
use helpers::HelperTable;
use refusal::NoMemory;
use std::alloc::Global;
use verifier::verify;

// Input that isn't what it is to be.
const NOT_INPUT: u8 = 73;

// A slot as a place.
fn place_of(slot: Option<u32>) -> Option<u64>
    ensures { result ≡ slot }
{
    match slot {
        Some(slot) => Some(slot as u64),
        None => None,
    }
}

// Bytes in hexadecimal, in a line.
fn in_hexadecimal(alloc: Global, bytes: &[u8]) -> Result<Answer, NoMemory>
    ensures { IfOk result (λ answer. Prints answer.text.items answer.status answer.code (encode_lower bytes.now
        ++ 10 ∷ []) 0 None) }
{
    let mut text = hex::encode(alloc, bytes)?;
    text.push('\n')?;
    Ok(Answer {
        text: text.into_bytes(),
        status: 0,
        code: None,
    })
}

/// The bytes of the program that a source text says, in hexadecimal; or the refusal and its line.
/// 73 where the input is no UTF-8.
pub fn answer_assemble(alloc: Global, source: &[u8]) -> Result<Answer, NoMemory>
    ensures { IfOk result (λ answer. PrintsAssembly source.now answer.text.items answer.status answer.code) }
{
    let text = match str::from_utf8(source) {
        Ok(text) => text,
        Err(_) => return answer_refusal(alloc, NOT_INPUT, None),
    };
    match assemble(alloc, text) {
        Ok(bytes) => in_hexadecimal(alloc, &bytes),
        Err(fault) => answer_refusal(alloc, fault.code(), fault.line()),
    }
}

/// The lines of the program that the input writes in hexadecimal; or the refusal and its slot. 73
/// where it isn't hexadecimal.
pub fn answer_disassemble(alloc: Global, input: &[u8]) -> Result<Answer, NoMemory>
    ensures { IfOk result (λ answer. PrintsListing input.now answer.text.items answer.status answer.code) }
{
    let bytes = match read_hexadecimal(alloc, input) {
        Ok(bytes) => bytes,
        Err(Unread::NotHexadecimal) => return answer_refusal(alloc, NOT_INPUT, None),
        Err(Unread::NoMemory) => return Err(NoMemory),
    };
    match disassemble(alloc, &bytes) {
        Ok(lines) => Ok(Answer {
            text: lines.into_bytes(),
            status: 0,
            code: None,
        }),
        Err(fault) => answer_refusal(alloc, fault.code(), place_of(fault.slot())),
    }
}

// The line of a program that is accepted.
fn answer_cost(alloc: Global, cost: u32) -> Result<Answer, NoMemory>
    ensures { IfOk result (λ answer.
        Prints answer.text.items answer.status answer.code (accepted_line cost) 0 None) }
{
    let line = format!(in alloc; "accepted cost {cost}\n")?;
    Ok(Answer {
        text: line.into_bytes(),
        status: 0,
        code: None,
    })
}

/// The cost of the program that the input writes in hexadecimal, which calls the helpers of a job
/// and needs so many bytes; or the refusal and its slot. 73 where the input isn't hexadecimal.
pub fn answer_verify(alloc: Global, need: u32, input: &[u8]) -> Result<Answer, NoMemory>
    ensures { IfOk result (λ answer. PrintsVerdict need input.now answer.text.items answer.status answer.code) }
{
    let code = match read_hexadecimal(alloc, input) {
        Ok(code) => code,
        Err(Unread::NotHexadecimal) => return answer_refusal(alloc, NOT_INPUT, None),
        Err(Unread::NoMemory) => return Err(NoMemory),
    };
    match verify(alloc, need, &code, &HelperTable::job()) {
        Ok(program) => answer_cost(alloc, program.cost()),
        Err(refusal) => answer_refusal(alloc, refusal.code(), place_of(refusal.slot())),
    }
}
