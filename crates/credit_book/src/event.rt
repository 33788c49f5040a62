//! What may happen to the credit of a job, and the plain table of its tasks.
use std::collections::LinkedList;

/// One event of a job. No value of it is made: a history exists in proofs alone.
pub enum Event {
    Open {
        job: u64,
        issued: u32,
    },
    Spawn {
        parent: u32,
        child: u32,
        program: u16,
        share: u32,
        arg: u64,
        base: usize,
        length: usize,
    },
    Park {
        number: u32,
    },
    Claim {
        number: u32,
    },
    End {
        number: u32,
        used: u32,
        r0: u64,
        ran: bool,
        base: usize,
        bytes: LinkedList<u8>,
    },
}

/// How far a task has come.
#[derive(Clone, Copy, PartialEq, Eq, Debug)]
pub enum Stage {
    Fresh,
    Parked,
    Claimed,
    Ended,
}

/// The credit that a task holds, and its stage. A task that has ended holds none.
#[derive(Clone, Copy, PartialEq, Eq, Debug)]
pub struct Standing {
    pub held: u32,
    pub stage: Stage,
}

/// A task of the report. Until it ends, the last four fields are zero.
#[derive(Clone, Copy, PartialEq, Eq, Debug)]
pub struct TaskEnd {
    pub number: u32,
    pub program: u16,
    pub arg: u64,
    pub given: u32,
    pub spent: u32,
    pub rest: u32,
    pub r0: u64,
    pub ran: bool,
}
