//! What the words of a command line may ask for.

/// A program that is to be tried, and how.
#[derive(Clone, Copy, Debug, PartialEq, Eq)]
pub struct RunArguments<'a> {
    /// The path of the program.
    pub file: &'a str,
    /// The path of its memory, if it has one.
    pub memory: Option<&'a str>,
    /// How many bytes of its part it needs, if the words say it.
    pub need: Option<u32>,
    /// At most 2,147,483,647.
    pub credit: u32,
    pub arg: u64,
    /// A refusal of the verifier is to be explained.
    pub explains: bool,
    /// Each instruction that isn't allowed is to be explained.
    pub explains_all: bool,
    /// The program's graph is to be drawn, in place of a run.
    pub draws: bool,
    /// The steps of the run are to be printed.
    pub traces: bool,
    /// The path of a file that gets the steps as JSON, if the words name one.
    pub trace_json: Option<&'a str>,
}
