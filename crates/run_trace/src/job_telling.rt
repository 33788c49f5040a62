//! Steps of a job as text, a line each, and as JSON.

use crate::job_step::{Born, Came, JobStep};
use crate::json::Members;
use std::fmt;

impl fmt::Display for Born {
    ghost use Rattle.std.specs.Prelude.{Some};
    ghost use Rattle.run_trace.specs.StepTexts.{born_text};

    ghost output = { λ born. Some (born_text born) };

    fn fmt<W: fmt::Write>(&self, f: &mut fmt::Formatter<W>) -> fmt::Result {
        write!(
            f,
            "task {} of program {}, share {}, argument {}, {} bytes",
            self.number, self.program, self.share, self.arg, self.size
        )
    }
}

impl fmt::Display for Came {
    ghost use Rattle.std.specs.Prelude.{Some};
    ghost use Rattle.run_trace.specs.StepTexts.{came_text};

    ghost output = { λ came. Some (came_text came) };

    fn fmt<W: fmt::Write>(&self, f: &mut fmt::Formatter<W>) -> fmt::Result {
        match self {
            Came::Continued => Ok(()),
            Came::Ended(r0) => write!(f, ", ends with {r0}"),
            Came::Spawned(born) => write!(f, ", spawns {born}"),
        }
    }
}

impl fmt::Display for JobStep {
    ghost use Rattle.std.specs.Prelude.{Some};
    ghost use Rattle.run_trace.specs.StepTexts.{job_step_text};

    ghost output = { λ told. Some (job_step_text told) };

    fn fmt<W: fmt::Write>(&self, f: &mut fmt::Formatter<W>) -> fmt::Result {
        write!(f, "task {}, {}{}", self.task, self.step, self.came)
    }
}

/// What a step led to, as a member.
#[derive(Clone, Copy)]
struct CameMember(Came);

impl fmt::Display for CameMember {
    ghost use Rattle.std.specs.Prelude.{Some};
    ghost use Rattle.run_trace.specs.StepObjects.{outcome_member};

    ghost output = { λ outcome. Some (outcome_member outcome.0) };

    fn fmt<W: fmt::Write>(&self, f: &mut fmt::Formatter<W>) -> fmt::Result {
        match self.0 {
            Came::Continued => Ok(()),
            Came::Ended(r0) => write!(f, ",\"r0\":{r0}"),
            Came::Spawned(born) => write!(
                f,
                ",\"spawned\":{{\"task\":{},\"program\":{},\"share\":{},\"argument\":{},\"bytes\":{}}}",
                born.number, born.program, born.share, born.arg, born.size
            ),
        }
    }
}

/// A step of a job as a JSON object.
#[derive(Clone, Copy)]
pub struct JobJson<'a>(pub &'a JobStep);

impl<'a> fmt::Display for JobJson<'a> {
    ghost use Rattle.std.specs.Prelude.{Some};
    ghost use Rattle.run_trace.specs.StepObjects.{job_step_object};

    ghost output = { λ json. Some (job_step_object json.0.now) };

    fn fmt<W: fmt::Write>(&self, f: &mut fmt::Formatter<W>) -> fmt::Result {
        let told = self.0;
        let members = Members(&told.step);
        write!(
            f,
            "{{\"task\":{},{members}{}}}",
            told.task,
            CameMember(told.came)
        )
    }
}
