//! What helps where a program doesn't run, as a line for whoever wrote it.

use crate::fault::RunFault;
use crate::form::FileForm;
use assembler::TextFault;
use explain::refusal_help;
use refusal::NoMemory;
use std::alloc::Global;

// The first bytes of an ELF object, and those of a text that some editors put in front.
const ELF: &[u8] = b"\x7fELF";

const MARK: &[u8] = b"\xef\xbb\xbf";

const OBJECT: &str =
    "this is an ELF object: give the bytes of its code, by `llvm-objcopy -O binary --only-section=.text FILE CODE`";

// What the table says of a refusal.
pub(crate) fn general_help(number: u8) -> &'static str {
    match refusal_help(number) {
        Some(text) => text,
        None => "docs/refusals.md lists the numbers",
    }
}

// Whether bytes are a text: printable ones, blanks and line feeds.
fn is_text(input: &[u8]) -> bool {
    for byte in input {
        let byte = *byte;
        if byte != b'\n' && byte != b'\r' && byte != b'\t' && !(b' '..=b'~').contains(&byte) {
            return false;
        }
    }
    !input.is_empty()
}

// Whether a word is hexadecimal, and long enough for an instruction.
fn is_hexadecimal(word: &str) -> bool {
    for byte in word.as_bytes() {
        if !byte.is_ascii_hexdigit() {
            return false;
        }
    }
    word.len() >= 16
}

// The word that is meant by one that others write.
fn meant(word: &str) -> Option<&'static str> {
    match word {
        "add" => Some("add64"),
        "sub" => Some("sub64"),
        "mul" => Some("mul64"),
        "div" => Some("div64"),
        "mod" => Some("mod64"),
        "or" => Some("or64"),
        "and" => Some("and64"),
        "xor" => Some("xor64"),
        "lsh" => Some("lsh64"),
        "rsh" => Some("rsh64"),
        "arsh" => Some("arsh64"),
        "neg" => Some("neg64"),
        "mov" | "movq" => Some("mov64"),
        "ldb" => Some("ldxb"),
        "ldh" => Some("ldxh"),
        "ldw" => Some("ldxw"),
        "lddw64" | "ld64" => Some("lddw"),
        "jmp" | "goto" => Some("ja"),
        "ret" | "return" => Some("exit"),
        _ => None,
    }
}

// What helps with a word that no instruction has.
fn help_of_word(alloc: Global, input: &[u8], word: &str) -> Result<String, NoMemory> {
    if input.starts_with(MARK) && word.starts_with("\u{feff}") {
        return text_of(
            alloc,
            "the file begins with a byte order mark: save it as UTF-8 without one",
        );
    }
    if input.contains(&0) {
        return text_of(
            alloc,
            "this isn't text: a file of bytes has a name that ends neither in .bpf nor in .hex",
        );
    }
    if is_hexadecimal(word) {
        return text_of(
            alloc,
            "this looks like hexadecimal: a file of that has a name that ends in .hex",
        );
    }
    match meant(word) {
        Some(other) => Ok(format!(in alloc; "did you mean `{other}`?")?),
        None => text_of(alloc, general_help(11)),
    }
}

fn text_of(alloc: Global, text: &str) -> Result<String, NoMemory> {
    Ok(format!(in alloc; "{text}")?)
}

// What helps with a line of a source text.
fn help_of_line(
    alloc: Global,
    input: &[u8],
    fault: &TextFault,
    quote: &str,
) -> Result<String, NoMemory> {
    match fault {
        TextFault::UnknownWord(_) => help_of_word(alloc, input, quote),
        _ if quote.contains("0x") => text_of(
            alloc,
            "numbers are decimal here: `16`, and not `0x10`",
        ),
        _ if quote.contains("r11") => text_of(alloc, "there is no r11: registers are r0 to r10"),
        _ => text_of(alloc, general_help(fault.code())),
    }
}

/// What helps with bytes that are no program.
pub(crate) fn help_of_bytes(form: FileForm, input: &[u8], number: u8) -> &'static str {
    if input.starts_with(ELF) {
        return OBJECT;
    }
    if form == FileForm::Bytes && is_text(input) {
        return "this looks like text: a source has a name that ends in .bpf, hexadecimal one in .hex";
    }
    general_help(number)
}

/// What helps where a program doesn't run, if that isn't for the verifier.
pub(crate) fn help_of(
    alloc: Global,
    input: &[u8],
    fault: &RunFault,
    quote: Option<&str>,
) -> Result<String, NoMemory> {
    match fault {
        RunFault::CreditLow { wanted, given: _ } => Ok(format!(in alloc; "--credit {wanted}")?),
        RunFault::MemoryShort { wanted, given } => Ok(format!(in alloc;
            "--need {given}, or a memory of {wanted} bytes"
        )?),
        RunFault::Text(why) => match quote {
            Some(part) => help_of_line(alloc, input, why, part),
            None => text_of(alloc, general_help(why.code())),
        },
        RunFault::NotText | RunFault::NotHexadecimal if input.starts_with(ELF) => {
            text_of(alloc, OBJECT)
        }
        RunFault::NotText => text_of(
            alloc,
            "this isn't text: a file of bytes has a name that ends neither in .bpf nor in .hex",
        ),
        RunFault::NotHexadecimal => text_of(
            alloc,
            "write pairs of hexadecimal digits; a source has a name that ends in .bpf",
        ),
        _ => text_of(alloc, general_help(fault.code())),
    }
}
