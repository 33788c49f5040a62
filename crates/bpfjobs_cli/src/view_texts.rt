//! Steps and trees as text.

ghost use Rattle.std.specs.Prelude.{◌≡◌, string_bytes, IfOk};
ghost use Rattle.run_trace.specs.TreeTexts.{tree_text};
ghost use Rattle.bpfjobs_cli.specs.Lines.{job_object_line, job_object_lines, job_step_line, job_step_lines};

use refusal::NoMemory;
use run_trace::{JobJson, JobStep, Tree, TreeDrawing};
use std::alloc::Global;

/// The line of a step.
#[tactic(auto, unfolding(crate::specs::Lines::job_step_line))]
fn step_line(alloc: Global, step: &JobStep) -> Result<String, NoMemory>
    ensures { IfOk result (λ line. string_bytes line ≡ job_step_line step.now) }
{
    Ok(format!(in alloc; "{step}\n")?)
}

/// A line for each step.
pub fn step_lines(alloc: Global, steps: &[JobStep]) -> Result<String, NoMemory>
    ensures { IfOk result (λ text. string_bytes text ≡ job_step_lines steps.now) }
{
    let mut text = String::new(alloc);
    for step in steps {
        let line = step_line(alloc, step)?;
        text.push_str(line.as_str())?;
    }
    Ok(text)
}

/// The JSON object of a step, on a line.
#[tactic(auto, unfolding(crate::specs::Lines::job_object_line))]
fn object_line(alloc: Global, step: &JobStep) -> Result<String, NoMemory>
    ensures { IfOk result (λ line. string_bytes line ≡ job_object_line step.now) }
{
    Ok(format!(in alloc; "{}\n", JobJson(step))?)
}

/// A JSON object for each step, on a line each.
pub fn step_objects(alloc: Global, steps: &[JobStep]) -> Result<String, NoMemory>
    ensures { IfOk result (λ text. string_bytes text ≡ job_object_lines steps.now) }
{
    let mut text = String::new(alloc);
    for step in steps {
        let line = object_line(alloc, step)?;
        text.push_str(line.as_str())?;
    }
    Ok(text)
}

/// The tree as a graph in the language DOT.
pub fn tree_text(alloc: Global, tree: &Tree) -> Result<String, NoMemory>
    ensures { IfOk result (λ text. string_bytes text ≡ tree_text tree.now.tasks.items) }
{
    Ok(format!(in alloc; "{}", TreeDrawing(tree))?)
}
