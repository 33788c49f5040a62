//! The bytes of a program, by the form of its file.

ghost use Rattle.std.specs.Prelude.{option_map, IfOk, IfErr};
ghost use Rattle.bpfrun_core.specs.Forms.{IsRead, IsFileSource, IsUnread};

use crate::fault::RunFault;
use crate::form::FileForm;
use assembler::{TextFault, assemble};
use bpfjobs_cli::{Unread, read_hexadecimal};
use std::alloc::Global;

// The bytes that a source text says.
fn assemble_text(alloc: Global, input: &[u8]) -> Result<Vec<u8>, RunFault>
    ensures read { IfOk result (λ bytes. IsRead FileForm.Text input.now bytes.items) }
    ensures unread { IfErr result (λ fault. IsUnread FileForm.Text input.now fault) }
{
    let text = match str::from_utf8(input) {
        Ok(text) => text,
        Err(_) => return Err(RunFault::NotText),
    };
    match assemble(alloc, text) {
        Ok(bytes) => Ok(bytes),
        Err(TextFault::NoMemory) => Err(RunFault::NoMemory),
        Err(fault) => Err(RunFault::Text(fault)),
    }
}

/// The bytes of a program whose file is written in this form. The refusals: 73 the text is no
/// UTF-8, or the file no hexadecimal, 99, and those of the text, which are 1, 3 and 11 to 13.
pub fn bytes_of(alloc: Global, form: FileForm, input: &[u8]) -> Result<Vec<u8>, RunFault>
    ensures read { IfOk result (λ bytes. IsRead form input.now bytes.items) }
    ensures unread { IfErr result (λ fault. IsUnread form input.now fault) }
{
    match form {
        FileForm::Text => assemble_text(alloc, input),
        FileForm::Hexadecimal => match read_hexadecimal(alloc, input) {
            Ok(bytes) => Ok(bytes),
            Err(Unread::NotHexadecimal) => Err(RunFault::NotHexadecimal),
            Err(Unread::NoMemory) => Err(RunFault::NoMemory),
        },
        FileForm::Bytes => {
            let mut bytes = Vec::new(alloc);
            bytes.extend_from_slice(input)?;
            Ok(bytes)
        }
    }
}

/// The source text of a file, if it is one.
pub(crate) fn source_of(form: FileForm, input: &[u8]) -> Option<&str>
    ensures { IsFileSource form input.now (option_map (λ text. text.now) result) }
{
    match form {
        FileForm::Text => match str::from_utf8(input) {
            Ok(text) => Some(text),
            Err(_) => None,
        },
        FileForm::Hexadecimal | FileForm::Bytes => None,
    }
}
