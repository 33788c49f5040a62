//! Frames of tasks in an arena, of which memory for one may be refused.

ghost use Rattle.std.specs.Prelude.{◌≡◌};
ghost use Rattle.interpreter.specs.Representation.{zeroed};

use crate::stop::{ScenarioFault, holds};
use interpreter::Frame;
use std::alloc::Global;
use virtual_machine::Frames;

/// How many frames are asked for in each job: more than an arena holds between two resets.
const FRAMES: u64 = 20;

/// A task that enters its frame, and answers its own number.
fn enter(frame: &mut Frame, task: u64) -> u64
    requires { frame.old ≡ zeroed }
    ensures { result ≡ task }
{
    frame.enter(8, task);
    task
}

/// Tasks of three jobs, each on a frame. Where the memory for one is refused, a new arena is taken,
/// so that each task runs.
pub fn placed(alloc: Global) -> Result<Vec<u64>, ScenarioFault> {
    let mut frames = Frames::new(alloc);
    let mut ran = 0u64;
    for job in 0..3u64 {
        for task in 0..FRAMES {
            match frames.with_frame(job, task, enter) {
                Ok(answer) => holds(answer == task, "another task ran")?,
                Err(_) => return Err(ScenarioFault::Differs("a task had no frame")),
            }
            ran = ran.wrapping_add(1);
        }
        frames.end_job();
    }
    let mut numbers = Vec::new(alloc);
    numbers.push(ran)?;
    Ok(numbers)
}
