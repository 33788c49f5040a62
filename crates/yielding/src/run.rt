//! A run whose pieces are answered by a function of the host's.

ghost use Rattle.std.specs.Prelude.{◌≡◌, ◌<◌, ◌≤◌, length, Some, MatchResult};
ghost use Rattle.std.specs.Arc.{arc_value};
ghost use Rattle.machine_model.specs.Limits.{max_part, max_credit};
ghost use Rattle.virtual_machine.specs.Executes.{ExecutesOn, IsUnrunnable};
ghost use Rattle.yielding.specs.Answering.{may_answer_by};
ghost use Rattle.yielding.specs.Asking.{RunsAsking};

use crate::event::{PieceEnd, Question};
use crate::task::HostedTask;
use std::alloc::Global;
use std::sync::Arc;
use verifier::Verified;
use virtual_machine::{Executed, VmFault};

/// Runs a program alone from its entry to its end, in pieces of `limit` instructions at most, and
/// answers each call of a helper of the host's by the function. Whatever the limit is, the pieces
/// come to the run of the definition under what the function may answer. The function is called
/// once for each of that run's calls, in their order, and for nothing else.
///
/// The refusals are those of [`HostedTask::start`], after which the memory is as it was, and the
/// function wasn't called.
pub fn run_with_answers<F: FnMut(Question) -> u64>(
    program: Arc<Verified, Global>,
    memory: &mut [u8],
    argument: u64,
    credit: u32,
    limit: u32,
    answer: &mut F,
) -> Result<Executed, VmFault>
    requires callable { F.IsAlwaysCallable answer.old }
    requires some { 0 < limit }
    requires small { length memory.old ≤ max_part }
    requires limit { credit ≤ max_credit }
    ensures runs { MatchResult result
        (λ done. ExecutesOn (Some (arc_value program)) (may_answer_by F.step) argument credit
        memory.old done.r0 done.used memory.new)
        (λ fault. IsUnrunnable (Some (arc_value program)) credit (length memory.old) fault
        × (memory.new ≡ memory.old)) }
    ensures asks { MatchResult result
        (λ done. RunsAsking (arc_value program) F.step answer.old argument credit memory.old done.r0
        done.used memory.new answer.new)
        (λ _. answer.new ≡ answer.old) }
{
    let mut task = match HostedTask::start(program, credit, argument, memory.len()) {
        Ok(task) => task,
        Err(fault) => return Err(fault),
    };
    let mut word = 0;
    'pieces: loop {
        match task.go(word, memory, limit) {
            Ok(event) => match event {
                PieceEnd::AtLimit => {}
                PieceEnd::Asks(question) => word = answer(question),
                PieceEnd::Ended(r0) => {
                    return Ok(Executed {
                        r0,
                        used: task.used(),
                    });
                }
            },
            Err(_) => unreachable!(),
        }
    }
}
