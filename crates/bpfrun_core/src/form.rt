//! How a program's file is written.

ghost use Rattle.std.specs.Prelude.{◌≡◌};
ghost use Rattle.bpfrun_core.specs.Forms.{form_of};

/// How a program's file is written.
#[derive(Clone, Copy, Debug, PartialEq, Eq, Hash)]
pub enum FileForm {
    /// Source text, an instruction a line.
    Text,
    /// The program's bytes in hexadecimal.
    Hexadecimal,
    /// The program's bytes.
    Bytes,
}

/// The form that the end of a path tells: `.bpf` source text, `.hex` hexadecimal, any other end
/// bytes.
pub fn form_of(path: &str) -> FileForm
    ensures { result ≡ form_of path.now }
{
    if path.ends_with(".bpf") {
        FileForm::Text
    } else if path.ends_with(".hex") {
        FileForm::Hexadecimal
    } else {
        FileForm::Bytes
    }
}
