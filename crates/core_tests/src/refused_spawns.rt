//! Spawns that find no memory, by the reference: they are answered 6, and no child is there.

use crate::alone::program_of;
use crate::scenarios::Findings;
use anyhow::bail;
use assembler::assemble;
use reference::{JobMember, ReferenceJob, ReferenceMove, ReferenceProgram, run};
use std::alloc::Global;

/// Spawns program 1 with a share of 2 and the last byte, and answers what that was answered.
const ROOT: &str = "mov64 r1, 1\nmov64 r2, 2\nmov64 r3, 1\nmov64 r4, 6\ncall 1\nexit\n";

const CHILD: &str = "mov64 r0, 42\nexit\n";

fn program(alloc: Global, text: &str, costs: &[u32]) -> anyhow::Result<ReferenceProgram> {
    let mut program = program_of(alloc, &[], &assemble(alloc, text)?)?;
    program.need = 1;
    program.costs.extend_from_slice(costs)?;
    Ok(program)
}

/// The job after six steps of the root, of which the fifth asks for the child.
fn after(alloc: Global, credit: u32, refuses: bool) -> anyhow::Result<Option<ReferenceJob>> {
    let mut programs = Vec::new(alloc);
    programs.push(program(alloc, ROOT, &[21, 20, 19, 18, 17, 1])?)?;
    programs.push(program(alloc, CHILD, &[2, 1])?)?;
    let mut moves = [ReferenceMove {
        number: 0,
        refuses: false,
    }; 6];
    moves[4].refuses = refuses;
    let Ok(job) = run(alloc, &programs, credit, vec![in alloc; 7, 8, 9]?, &moves) else {
        bail!("the reference doesn't answer");
    };
    Ok(job)
}

/// What the root gives, has spent and has left, and how many tasks there are.
fn ended(job: &Option<ReferenceJob>) -> Option<(u64, u32, u32, usize)> {
    let Some(job) = job else {
        return None;
    };
    match job.tasks.get(0) {
        Some(JobMember::Ended(end)) => Some((end.r0, end.spent, end.rest, job.tasks.len())),
        _ => None,
    }
}

/// Goes through all of it.
pub fn go_through(alloc: Global, findings: &mut Findings) -> anyhow::Result<()> {
    let taken = ended(&after(alloc, 30, false)?);
    findings.holds(taken == Some((0, 21, 7, 2)), "a spawn is taken");
    let refused = ended(&after(alloc, 30, true)?);
    findings.holds(refused == Some((6, 21, 9, 1)), "a spawn finds no memory");
    let trapped = after(alloc, 20, false)?;
    findings.holds(trapped.is_none(), "a task holds less than it uses");
    Ok(())
}
