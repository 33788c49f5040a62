//! A machine for single programs.

ghost use Rattle.std.specs.Prelude.{◌≡◌, ◌≢◌, ◌↔◌, ℕ, ◌==◌, ◌≤◌, ◌<◌, [], length, if◌then◌else◌, IsTrue, IsSome, IfOk, OnOk, OnErr, None, Some, MatchOption, MatchResult, option_map, IfErr};
ghost use Rattle.helpers.specs.Table.{arity_in, job_table};
ghost use Rattle.verifier.specs.Checked.{Checked};
ghost use Rattle.verifier.specs.Refusals.{RefusesProgram};
ghost use Rattle.std.proofs.Props.{props};
ghost use Rattle.virtual_machine.specs.Functions.{AreSameHelpers, HaveFunctions, call_answers, function_of};
ghost use Rattle.virtual_machine.specs.Executes.{Executes, ExecutesOn, IsUnrunnable, IsProgramOf};
ghost use Rattle.virtual_machine.specs.Registering.{IsRegistrable, IsUnregistrable};

use crate::alone::run_alone;
use crate::executed::Executed;
use crate::functions::Functions;
use crate::register_fault::RegisterFault;
use crate::registered::{Function, Registered};
use crate::vm_fault::VmFault;
use helpers::HelperTable;
use refusal::NoMemory;
use std::alloc::Global;
use verifier::{Refusal, Verified, verify};

/// A machine for single programs: the program that is set, if one is, the helpers that a program
/// may call, and the functions of those that the caller registered.
#[derive(Drop)]
pub struct Vm {
    program: Option<Verified>,
    helpers: HelperTable,
    functions: Functions,
    /// The program was verified with the same helpers.
    ghost same: { (p : Checked) → program ≡ Some p
        → AreSameHelpers p.helpers helpers } by { Prim.hlevel props },
    /// Each helper that was registered has its function.
    ghost have: { HaveFunctions helpers functions.places.items },
}

impl Vm {
    ghost use Rattle.virtual_machine.specs.Holding.{program_in, helpers_in, functions_in};
    ghost use Rattle.machine_model.specs.Limits.{max_part, max_credit};

    /// A machine with the program of this need and code, if they are given, and with the helpers of
    /// a job. The program's refusal is [`Refusal`]'s.
    pub fn new(alloc: Global, program: Option<(u32, &[u8])>) -> Result<Vm, Refusal>
        ensures program { MatchResult result
            (λ vm. MatchOption program.entry (program_in vm
            ≡ None) (λ given. IsProgramOf given.0 given.1.now job_table (program_in vm)))
            (λ refusal. MatchOption program.entry ⊥
            (λ given. RefusesProgram given.0 given.1.now job_table refusal)) }
        ensures helpers { IfOk result (λ vm. (helpers_in vm ≡ job_table) × (functions_in vm ≡ [])) }
    {
        let helpers = HelperTable::job();
        let program = match program {
            Some((need, code)) => Some(verify(alloc, need, code, &helpers)?),
            None => None,
        };
        Ok(Vm {
            program,
            helpers,
            functions: Functions::none(alloc),
        })
    }

    /// Sets the program of this need and code, verified with the machine's helpers. Where it is
    /// refused, by the refusals of [`Refusal`], the program that was set stays.
    pub fn set_program(&mut self, alloc: Global, need: u32, code: &[u8]) -> Result<(), Refusal>
        ensures program { MatchResult result
            (λ _. IsProgramOf need code.now (helpers_in self.old) (program_in self.new))
            (λ refusal. RefusesProgram need code.now (helpers_in self.old) refusal
            × (program_in self.new ≡ program_in self.old)) }
        ensures helpers { (helpers_in self.new ≡ helpers_in self.old)
            × (functions_in self.new ≡ functions_in self.old) }
    {
        self.program = Some(verify(alloc, need, code, &self.helpers)?);
        Ok(())
    }

    /// Sets a program that was verified before, which asks that it was with the machine's helpers:
    /// by each id a helper with as many arguments, or none.
    pub fn set_verified(&mut self, program: Verified)
        requires { AreSameHelpers program.helpers (helpers_in self.old) }
        ensures program { program_in self.new ≡ Some program }
        ensures helpers { (helpers_in self.new ≡ helpers_in self.old)
            × (functions_in self.new ≡ functions_in self.old) }
    {
        self.program = Some(program);
    }

    /// The program that is set, if one is: what it needs and costs at most stands in it.
    pub fn program(&self) -> Option<&Verified>
        ensures { option_map (λ p. p.now) result ≡ program_in self.now }
    {
        self.program.as_ref()
    }

    /// Whether a program is set.
    pub fn has_program(&self) -> bool
        ensures { IsTrue result ↔ IsSome (program_in self.now) }
    {
        self.program.is_some()
    }

    /// Registers the caller's helper of this id: its function, and how many arguments that takes. A
    /// function that the id had before is no longer called. Arguments past that many are 0 when the
    /// function is called.
    ///
    /// The call asks for an id of 64 to 127, for at most 5 arguments, for a function that may be
    /// called on any five numbers, and that no program is set. The refusal, 99, leaves all as it
    /// was.
    pub fn register_helper(
        &mut self,
        alloc: Global,
        id: u32,
        arity: u32,
        function: Function,
    ) -> Result<(), NoMemory>
        requires id { (64 ≤ id) × (id < 128) }
        requires arity { arity ≤ 5 }
        requires unset { program_in self.old ≡ None }
        requires callable { Function.IsAlwaysCallable function }
        ensures arity { OnOk result ((other : ℕ) →
            arity_in (helpers_in self.new) other
            ≡ (if other == id then Some arity else arity_in (helpers_in self.old) other)) }
        ensures function { OnOk result ((f : _) × (function_of (functions_in self.new) id ≡ Some f)
            × (f.function ≡ function)) }
        ensures others { OnOk result ((other : ℕ) → other ≢ id →
            function_of (functions_in self.new) other ≡ function_of (functions_in self.old) other) }
        ensures err { OnErr result ((helpers_in self.new ≡ helpers_in self.old)
            × ((other : ℕ)
            → function_of (functions_in self.new) other
            ≡ function_of (functions_in self.old) other)) }
        ensures program { program_in self.new ≡ None }
    {
        self.functions.make_room(alloc)?;
        self.helpers.add(alloc, id, arity)?;
        self.functions.put(id, Registered::of(function));
        Ok(())
    }

    /// Registers the caller's helper of this id, as [`Vm::register_helper`] does, which asks for
    /// what is tested here. Of the function alone it asks that it may be called on any five
    /// numbers.
    ///
    /// The refusals, in this order, after which all is as it was: 44 the id isn't one of 64 to 127,
    /// 45 there are more than 5 arguments, 46 a program is set, and 99.
    pub fn try_register_helper(
        &mut self,
        alloc: Global,
        id: u32,
        arity: u32,
        function: Function,
    ) -> Result<(), RegisterFault>
        requires callable { Function.IsAlwaysCallable function }
        ensures may { OnOk result (IsRegistrable id arity (program_in self.old)) }
        ensures may_not { IfErr result (λ fault.
            IsUnregistrable id arity (program_in self.old) fault) }
        ensures arity { OnOk result ((other : ℕ) →
            arity_in (helpers_in self.new) other
            ≡ (if other == id then Some arity else arity_in (helpers_in self.old) other)) }
        ensures function { OnOk result ((f : _) × (function_of (functions_in self.new) id ≡ Some f)
            × (f.function ≡ function)) }
        ensures others { OnOk result ((other : ℕ) → other ≢ id →
            function_of (functions_in self.new) other ≡ function_of (functions_in self.old) other) }
        ensures err { OnErr result ((helpers_in self.new ≡ helpers_in self.old)
            × ((other : ℕ)
            → function_of (functions_in self.new) other
            ≡ function_of (functions_in self.old) other)) }
        ensures program { program_in self.new ≡ program_in self.old }
    {
        if id < 64 {
            return Err(RegisterFault::BadId);
        }
        if id > 127 {
            return Err(RegisterFault::BadId);
        }
        if arity > 5 {
            return Err(RegisterFault::TooManyArguments);
        }
        if self.has_program() {
            return Err(RegisterFault::ProgramSet);
        }
        match self.register_helper(alloc, id, arity, function) {
            Ok(()) => Ok(()),
            Err(NoMemory) => Err(RegisterFault::NoMemory),
        }
    }

    /// Runs the program alone from its entry to its end, with the memory as its part, this argument
    /// and this credit, and gives R0 and what it used of the credit. Otherwise it is
    /// [`Vm::execute_program`].
    pub fn execute(&mut self, mem: &mut [u8], arg: u64, credit: u32) -> Result<Executed, VmFault>
        requires small { length mem.old ≤ max_part }
        requires limit { credit ≤ max_credit }
        ensures runs { MatchResult result
            (λ done. ExecutesOn (program_in self.old)
            (call_answers (functions_in self.old)) arg credit
            mem.old done.r0 done.used mem.new)
            (λ fault. IsUnrunnable (program_in self.old) credit (length mem.old) fault
            × (mem.new ≡ mem.old)) }
        ensures kept { (program_in self.new ≡ program_in self.old)
            × (helpers_in self.new ≡ helpers_in self.old)
            × (functions_in self.new ≡ functions_in self.old) }
    {
        let Some(program) = &self.program else {
            return Err(VmFault::NoProgram);
        };
        if credit < program.cost() {
            return Err(VmFault::CreditLow {
                wanted: program.cost(),
                given: credit,
            });
        }
        if mem.len() < program.need() as usize {
            return Err(VmFault::MemoryShort {
                wanted: program.need(),
                given: mem.len() as u32,
            });
        }
        Ok(run_alone(program, mem, arg, credit, &mut self.functions))
    }

    /// Runs the program alone from its entry to its end, with argument 0, the memory as its part,
    /// and this credit, and gives R0. The run works on the memory in place. Each spawn is answered
    /// 1. The call asks for at most 65,536 bytes of memory and for a credit of at most
    /// 2,147,483,647.
    ///
    /// The refusals, in this order, after which the memory is as it was: 41 no program is set, 42
    /// the credit is under the program's cost, 43 the memory is shorter than the program's need.
    /// The run takes no memory of its own, so that 99 never comes.
    pub fn execute_program(&mut self, mem: &mut [u8], credit: u32) -> Result<u64, VmFault>
        requires small { length mem.old ≤ max_part }
        requires limit { credit ≤ max_credit }
        ensures runs { MatchResult result
            (λ r0. Executes (program_in self.old)
            (call_answers (functions_in self.old)) credit mem.old r0
            mem.new)
            (λ fault. IsUnrunnable (program_in self.old) credit (length mem.old) fault
            × (mem.new ≡ mem.old)) }
        ensures kept { (program_in self.new ≡ program_in self.old)
            × (helpers_in self.new ≡ helpers_in self.old)
            × (functions_in self.new ≡ functions_in self.old) }
    {
        match self.execute(mem, 0, credit) {
            Ok(done) => Ok(done.r0),
            Err(fault) => Err(fault),
        }
    }
}
