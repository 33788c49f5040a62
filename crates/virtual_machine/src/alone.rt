//! The run of a single program.

ghost use Rattle.std.specs.Prelude.{◌≡◌, ◌≤◌, length};
ghost use Rattle.verifier.specs.Checked.{IsVerified, cost_at};
ghost use Rattle.virtual_machine.specs.Functions.{HaveFunctions, call_answers};
ghost use Rattle.virtual_machine.specs.Executes.{RunsOn};
ghost use Rattle.machine_model.specs.Limits.{max_part, max_credit};

use crate::executed::Executed;
use crate::functions::Functions;
use interpreter::{ControlPoint, Credit, Frame};
use verifier::Verified;

/// Runs a program alone on these bytes, with this argument, from its entry to its end.
pub fn run_alone(
    code: &Verified,
    bytes: &mut [u8],
    arg: u64,
    credit: u32,
    functions: &mut Functions,
) -> Executed
    requires verified { IsVerified code.now }
    requires functions { HaveFunctions code.now.helpers functions.old.places.items }
    requires need { code.now.need ≤ length bytes.old }
    requires small { length bytes.old ≤ max_part }
    requires cost { cost_at code.now 0 ≤ credit }
    requires limit { credit ≤ max_credit }
    ensures runs { RunsOn code.now (call_answers functions.old.places.items) arg credit bytes.old
        result.r0
        result.used bytes.new }
    ensures functions { functions.new ≡ functions.old }
{
    let mut frame = Frame::zeroed();
    frame.enter(bytes.len() as u32, arg);
    let mut credit = Credit {
        held: credit,
        used: 0,
    };
    let mut slot = 0;
    loop {
        let ran = frame.run_on(code, slot, usize::MAX, bytes, &mut credit, functions);
        match ran.next {
            ControlPoint::At(next) => slot = next,
            ControlPoint::Ended(r0) => {
                return Executed {
                    r0,
                    used: credit.used,
                };
            }
        }
    }
}
