//! What is answered to a row.
//!
//! | Question | Answer |
//! |---|---|
//! | `order` | the graph's order, of a long one the first 16 numbers and the last; or its refusal |
//! | `lists SLOT ..` | whether these are an order of the program's instructions |
//! | `task CREDIT MEMORY` | a job of one task by the reference: R0, what was used, its memory |
//! | `alone STEPS CREDIT MEMORY ARITY ..` | the same of a program alone, or its trap |
//! | `kept NEED` | how many states a verified program keeps, and its cost |
//! | `turns` | what a machine answers to calls, with semicolons between them |
//! | `arities ID/ARITY ..` | the helper table with these, and behind a semicolon the copy |

use crate::alone::{alone, as_job};
use crate::graphs::{is_order, order};
use crate::kept::kept;
use crate::parts::arities;
use crate::row::{Row, bytes_of};
use crate::turns::answers;
use std::alloc::Global;

/// What is answered of a program.
fn of_program(alloc: Global, question: &[&str], code: &[u8]) -> anyhow::Result<String> {
    match question {
        ["order"] => order(alloc, code),
        ["lists", slots @ ..] => is_order(alloc, slots, code),
        ["kept", need] => kept(alloc, need, code),
        ["task", credit, memory] => as_job(alloc, credit, memory, code),
        ["alone", steps, credit, memory, arities @ ..] => {
            alone(alloc, steps, credit, memory, arities, code)
        }
        _ => Ok(String::from_str(alloc, "no such question")?),
    }
}

/// What is answered to the row.
pub fn answer(alloc: Global, row: &Row) -> anyhow::Result<String> {
    match row.question.as_slice() {
        ["turns"] => answers(alloc, row.program),
        ["arities", added @ ..] => arities(alloc, added),
        question => of_program(alloc, question, &bytes_of(alloc, row.program)?),
    }
}
