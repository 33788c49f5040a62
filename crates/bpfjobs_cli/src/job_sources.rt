//! A job of source files, and why words say none.

/// A job whose programs stand in source files.
#[derive(Debug, PartialEq, Eq, Drop)]
pub struct JobSources {
    pub credit: u32,
    /// At most 65,536 bytes.
    pub buffer: Vec<u8>,
    /// Numbers of tasks, in order.
    pub schedule: Vec<u32>,
    /// The files of the programs, of which number 0 is the root's.
    pub sources: Vec<ProgramSource>,
}

/// A file with the source text of a program, and the bytes of its part that the program needs.
#[derive(Debug, PartialEq, Eq, Drop)]
pub struct ProgramSource {
    pub path: String,
    pub need: u32,
}

/// The reason why the words of `job` say no job.
#[derive(Debug, PartialEq, Eq, Drop)]
pub enum JobWordFault {
    /// This word names no file with a need.
    Source(String),
    /// The buffer isn't hexadecimal, or has more than 65,536 bytes.
    Buffer,
    /// The schedule isn't a list of numbers.
    Schedule,
}
