//! A run whose calls a function answers that counts them: once for each, in their order, whatever
//! the limit of a piece is.

ghost use Rattle.std.specs.Prelude.{◌<◌};

use crate::scenarios::Findings;
use anyhow::bail;
use assembler::assemble;
use helpers::HelperTable;
use std::alloc::Global;
use std::sync::Arc;
use verifier::{Verified, verify};
use yielding::{Question, run_with_answers};

/// Two calls of helper 64, whose answers are put together.
const ASKS_TWICE: &str = "mov64 r1, 5\ncall 64\nmov64 r6, r0\nmov64 r1, 7\ncall 64\nlsh64 r6, 8\n\
or64 r0, r6\nexit\n";

fn asks_twice(alloc: Global) -> anyhow::Result<Arc<Verified, Global>> {
    let mut table = HelperTable::job();
    table.add(alloc, 64, 1)?;
    let code = assemble(alloc, ASKS_TWICE)?;
    let program = verify(alloc, 0, &code, &table)?;
    Ok(Arc::new(alloc, program)?)
}

/// What the program comes to in such pieces, and how often the function was called.
fn asked(program: Arc<Verified, Global>, limit: u32) -> anyhow::Result<(u64, u64)>
    requires { 0 < limit }
{
    let mut times = 0u64;
    let mut count = |question: Question| {
        times = times.wrapping_add(1);
        times.wrapping_mul(16).wrapping_add(question.arguments[0])
    };
    match run_with_answers(program, &mut [], 0, 1_000, limit, &mut count) {
        Ok(done) => Ok((done.r0, times)),
        Err(fault) => bail!("{fault}"),
    }
}

/// Runs it in pieces of one instruction, of three, and as a whole.
pub fn go_through(alloc: Global, findings: &mut Findings) -> anyhow::Result<()> {
    // the first answer is 16 + 5, and the second one 32 + 7
    let wanted = (21 * 256 + 39, 2);
    let single = asked(asks_twice(alloc)?, 1)?;
    findings.holds(single == wanted, "pieces of one instruction");
    let three = asked(asks_twice(alloc)?, 3)?;
    findings.holds(three == wanted, "pieces of three instructions");
    let whole = asked(asks_twice(alloc)?, u32::MAX)?;
    findings.holds(whole == wanted, "one piece");
    Ok(())
}
