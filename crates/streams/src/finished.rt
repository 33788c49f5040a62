//! Finished jobs, passed from a runner to a desk.

ghost use Rattle.streams.specs.Passing.{Passes};

use crate::runner::Runner;
use accounts::Desk;

/// Passes every finished job from the runner to the desk. One that the desk doesn't have open is
/// passed over.
pub fn pass_finished<N: Runner>(desk: &mut Desk, runner: &mut N)
    requires { N.ready runner.old }
    ensures ready { N.ready runner.new }
    ensures passed { Passes N.takes desk.old runner.old desk.new runner.new }
{
    'jobs: loop {
        match runner.take() {
            Some((number, outcome)) => {
                let _ = desk.finish(number, outcome);
            }
            None => return,
        }
    }
}
