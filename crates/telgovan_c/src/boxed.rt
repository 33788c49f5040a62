//! What a handle holds.

ghost use Rattle.std.specs.Prelude.{◌≡◌, ◌≢◌, None, Some, IfOk, option_map, true, false};
ghost use Rattle.std.specs.Arc.{arc_value};
ghost use Rattle.std.proofs.Props.{props};
ghost use Rattle.helpers.specs.Table.{job_table};

use refusal::NoMemory;
use std::alloc::Global;
use std::sync::Arc;
use verifier::Verified;
use yielding::HostedTask;

/// A program that several handles may hold, in several threads, and the task that runs it, where a
/// handle holds one. It was verified with the helpers of a job, or with helpers of the host's
/// beside them.
#[derive(Drop)]
pub struct Boxed {
    program: Arc<Verified, Global>,
    hosted: bool,
    pub(crate) task: Option<Box<HostedTask>>,
    ghost own: { hosted ≡ false → (arc_value program).helpers ≡ job_table } by { Prim.hlevel
        props },
    ghost beside: { hosted ≡ true → (arc_value program).helpers ≢ job_table } by { Prim.hlevel
        props },
}

impl Boxed {
    /// A program that is owned here alone, and may call helpers of the host's or not.
    pub(crate) fn of(
        alloc: Global,
        program: Verified,
        hosted: bool,
    ) -> Result<Box<Boxed, Global>, NoMemory>
        requires own { hosted ≡ false → program.helpers ≡ job_table }
        requires beside { hosted ≡ true → program.helpers ≢ job_table }
        ensures { IfOk result (λ boxed. arc_value boxed.value.program ≡ program) }
    {
        let program = Arc::new(alloc, program)?;
        let boxed = Boxed {
            program,
            hosted,
            task: None,
        };
        Ok(Box::new(alloc, boxed)?)
    }

    /// The same program, for one more owner.
    pub(crate) fn share(&self, alloc: Global) -> Result<Box<Boxed, Global>, NoMemory>
        ensures { IfOk result (λ boxed.
            arc_value boxed.value.program ≡ arc_value self.now.program) }
    {
        let boxed = Boxed {
            program: self.owner()?,
            hosted: self.hosted,
            task: None,
        };
        Ok(Box::new(alloc, boxed)?)
    }

    /// The same program, with a task that runs it.
    pub(crate) fn running(
        &self,
        alloc: Global,
        task: HostedTask,
    ) -> Result<Box<Boxed, Global>, NoMemory>
        ensures { IfOk result (λ boxed.
            option_map (λ b. b.value) boxed.value.task ≡ Some task) }
    {
        let boxed = Boxed {
            program: self.owner()?,
            hosted: self.hosted,
            task: Some(Box::new(alloc, task)?),
        };
        Ok(Box::new(alloc, boxed)?)
    }

    /// One more owner of the program.
    pub(crate) fn owner(&self) -> Result<Arc<Verified, Global>, NoMemory>
        ensures { IfOk result (λ owner. arc_value owner ≡ arc_value self.now.program) }
    {
        Ok(Arc::try_clone(&self.program)?)
    }

    /// The program.
    pub(crate) fn program(&self) -> &Verified
        ensures program { result.now ≡ arc_value self.now.program }
        ensures own { self.now.hosted ≡ false → result.now.helpers ≡ job_table }
    {
        let _ = &self.program;
        &self.program
    }

    /// Whether the program may call helpers of the host's.
    pub(crate) fn is_hosted(&self) -> bool
        ensures hosted { result ≡ self.now.hosted }
        ensures own { result ≡ false → (arc_value self.now.program).helpers ≡ job_table }
        ensures beside { result ≡ true → (arc_value self.now.program).helpers ≢ job_table }
    {
        let _ = &self.program;
        self.hosted
    }
}
