//! The arena of one worker.

ghost use Rattle.std.specs.Prelude.{◌≡◌, MatchResult};
ghost use Rattle.virtual_machine.specs.Fresh.{TakesFresh, AnswersFresh, HasNoRoom};

use crate::arena::Arena;
use bumpalo::Bump;
use interpreter::Frame;
use std::alloc::Global;

/// How many frames are placed between two resets: few enough to stay in a processor's cache, and so
/// that the memory of a job's frames doesn't grow with the number of its tasks.
const MOST_FRAMES: u32 = 16;

/// Where a worker's frames lie. An arena doesn't move between threads. It is reset once it holds 16
/// frames, when a frame of another job is asked for, and where the job ends.
#[derive(Drop)]
pub struct ArenaFrames<A: Arena> {
    alloc: Global,
    arena: A,
    /// The job of the last frame, if it hasn't ended.
    job: Option<u64>,
    /// How many frames were placed since the last reset.
    placed: u32,
}

/// The frames of a worker, in an arena of bumpalo's.
pub type Frames = ArenaFrames<Bump>;

impl<A: Arena> ArenaFrames<A> {
    /// An arena with no frame.
    pub fn new(alloc: Global) -> ArenaFrames<A> {
        ArenaFrames {
            alloc,
            arena: A::fresh(alloc),
            job: None,
            placed: 0,
        }
    }

    /// Runs `f` on a frame of zeros and the task, whatever an earlier task or job left.
    ///
    /// Where the arena has no room for a frame, a new one is taken. Where that has none either, and
    /// only there, the task comes back as it was (99), and `f` isn't called.
    pub fn with_frame<T, R, F: FnOnce(&mut Frame, T) -> R + Drop>(
        &mut self,
        job: u64,
        task: T,
        f: F,
    ) -> Result<R, T>
        requires { TakesFresh F.FnOnce f task }
        ensures { MatchResult result (λ answer. AnswersFresh F.FnOnce f task answer)
            (λ back. (back ≡ task) × HasNoRoom A.is_new A.refuses) }
    {
        if self.job != Some(job) || self.placed >= MOST_FRAMES {
            self.end_job();
            self.job = Some(job);
            self.placed = 0;
        }
        self.placed += 1;
        if let Some(frame) = self.arena.place() {
            return Ok(f(frame, task));
        }
        self.arena = A::fresh(self.alloc);
        match self.arena.place() {
            Some(frame) => Ok(f(frame, task)),
            None => Err(task),
        }
    }

    /// Gives the frames of the job up. Where the arena can't be reset, a new one is taken.
    pub fn end_job(&mut self) {
        self.job = None;
        if !self.arena.clear() {
            self.arena = A::fresh(self.alloc);
        }
    }
}
