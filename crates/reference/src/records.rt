//! What the reference works on: the definition's records, with numbers of a machine.

ghost use Rattle.std.specs.Prelude.{◌≡◌};
ghost use Rattle.reference.specs.declared.records.Unanswered.TheVariants as unanswered;

use insn_codec::Insn;
use refusal::NoMemory;
use std::alloc::{AllocError, AllocFailed};

/// Why a run has no answer.
#[derive(Clone, Copy, Debug, PartialEq, Eq)]
pub enum Unanswered {
    /// A growth was refused.
    NoMemory,
    /// A count or a position doesn't fit its type.
    TooLarge,
}

impl From<AllocError> for Unanswered {
    ghost from_gives = { λ _ error. error ≡ unanswered.NoMemory };

    fn from(_error: AllocError) -> Unanswered {
        Unanswered::NoMemory
    }
}

impl<T: Drop> From<AllocFailed<T>> for Unanswered {
    ghost from_gives = { λ _ error. error ≡ unanswered.NoMemory };

    fn from(_error: AllocFailed<T>) -> Unanswered {
        Unanswered::NoMemory
    }
}

impl From<NoMemory> for Unanswered {
    ghost from_gives = { λ _ error. error ≡ unanswered.NoMemory };

    fn from(_error: NoMemory) -> Unanswered {
        Unanswered::NoMemory
    }
}

/// What a register holds. A position counts bytes from its region's start.
#[derive(Clone, Copy, Debug, PartialEq, Eq)]
pub enum Content {
    Unset,
    Num(u64),
    Stack(i64),
    Part(i64),
}

/// Why a task can't go on.
#[derive(Clone, Copy, Debug, PartialEq, Eq)]
pub enum TrapCause {
    UnsetRead,
    OutsideStack,
    OutsidePart,
    WrongKind,
    OutsideCode,
    WritesStackEnd,
    NoHelper,
    OverSpent,
}

/// A program: the bytes that it needs, its instructions by slot, the greatest cost of a run from
/// each slot, and how many arguments each helper of the caller's own takes, by its id.
#[derive(Drop)]
pub struct ReferenceProgram {
    pub need: u32,
    pub code: Vec<Option<Insn>>,
    pub costs: Vec<u32>,
    pub registered: Vec<Option<u32>>,
}

/// What an instruction reads and writes.
#[derive(Drop)]
pub struct Running {
    pub slot: usize,
    pub registers: [Content; 11],
    pub stack: [u8; 512],
    pub part: Vec<u8>,
    pub held: u32,
    pub used: u32,
}

/// What a spawn starts.
#[derive(Drop)]
pub struct Child {
    pub program: u64,
    pub share: u32,
    pub arg: u64,
    pub bytes: Vec<u8>,
}

/// What an instruction comes to.
#[derive(Drop)]
pub enum StepOutcome {
    Continues(Running),
    Ends(u64, Running),
    /// The child, and the task where the spawn is taken and where it is refused.
    Spawns(Child, Running, Running),
    /// A helper of the caller's own, its arguments, and the task that calls it.
    Calls(u32, [u64; 5], Running),
    Traps(TrapCause),
}

/// Where bytes are that a pointer leads to, counted from the region's start.
#[derive(Clone, Copy)]
pub enum Place {
    Stack(usize),
    Part(usize),
}

/// What a task asks of a spawn, by its registers.
#[derive(Clone, Copy)]
pub struct SpawnArguments {
    pub program: u64,
    pub share: u64,
    pub cut: u64,
    pub arg: u64,
}

/// A live task. Its part is a range of the job's buffer, `size` bytes from `base` on.
#[derive(Drop)]
pub struct LiveTask {
    pub program: u64,
    pub arg: u64,
    pub given: u32,
    pub place: Vec<u64>,
    pub children: u64,
    pub slot: usize,
    pub registers: [Content; 11],
    pub stack: [u8; 512],
    pub base: usize,
    pub size: usize,
    pub held: u32,
    pub used: u32,
}

/// A task that ended, with the range that it left.
#[derive(Drop)]
pub struct EndedTask {
    pub program: u64,
    pub arg: u64,
    pub given: u32,
    pub place: Vec<u64>,
    pub base: usize,
    pub size: usize,
    pub spent: u32,
    pub rest: u32,
    pub r0: u64,
}

#[derive(Drop)]
pub enum JobMember {
    Live(LiveTask),
    Ended(EndedTask),
}

/// A job: its buffer and its tasks, live and ended, by number.
#[derive(Drop)]
pub struct ReferenceJob {
    pub buffer: Vec<u8>,
    pub tasks: Vec<JobMember>,
}

/// What a step makes of a job: its buffer, the task's new record, and a child.
#[derive(Drop)]
pub struct Change {
    pub buffer: Vec<u8>,
    pub member: JobMember,
    pub born: Option<LiveTask>,
}

/// An entry of a schedule: a task's number, and whether a spawn there is refused.
#[derive(Clone, Copy, Debug, PartialEq, Eq)]
pub struct ReferenceMove {
    pub number: usize,
    pub refuses: bool,
}
