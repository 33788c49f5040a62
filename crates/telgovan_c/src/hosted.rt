//! Programs that may call helpers of their host's.

ghost use Rattle.std.specs.Prelude.{◌≡◌, ◌≢◌, ◌≤◌, ◌<◌, ◌==◌, ℕ, IfErr, IfOk, None, Some, MatchResult, false, if◌then◌else◌, length, true};
ghost use Rattle.std.proofs.Props.{props};
ghost use Rattle.helpers.specs.Table.{arity_in, job_table};
ghost use Rattle.telgovan_c.specs.Hosted.{AreAritiesTo, AreHelpersTo, IsLoadedOver, IsLoadedWith, no_helper};
ghost use Rattle.telgovan_c.specs.HelperFaults.{AreNoHelpers, IsWordFault, code_of_helper_fault};
ghost use Rattle.telgovan_c.specs.Programs.{held_program};
ghost use Rattle.telgovan_c.specs.Verdicts.{refused_at};

use crate::boxed::Boxed;
use crate::helper_fault::HelperFault;
use crate::program_handle::ProgramHandle;
use crate::verdicts::{Verdict, accepted_verdict, refused_verdict};
use helpers::HelperTable;
use std::alloc::Global;
use verifier::{Refusal, verify};

// No helper is of this id.
const NO_HELPER: u32 = 4294967295;
// The first id of a helper of the host's.
const FIRST_OF_HOST: u32 = 64;
// How many ids there are.
const IDS: usize = 64;

/// The helpers that a program may call, and whether any of them is the host's.
#[derive(Drop)]
struct Helpers {
    table: HelperTable,
    hosted: bool,
    ghost own: { hosted ≡ false → table ≡ job_table } by { Prim.hlevel props },
    ghost beside: { hosted ≡ true → table ≢ job_table } by { Prim.hlevel props },
}

// Adds the helper of this id that a word says, if it says one, and answers whether the table has
// any of the host's.
fn add_told(
    alloc: Global,
    table: &mut HelperTable,
    hosted: bool,
    id: u32,
    word: u32,
) -> Result<bool, HelperFault>
    requires least { 64 ≤ id }
    requires most { id < 128 }
    requires own { hosted ≡ false → table.old ≡ job_table }
    requires beside { hosted ≡ true → table.old ≢ job_table }
    ensures none { IfOk result (λ _. word ≡ no_helper → table.new ≡ table.old) }
    ensures some { IfOk result (λ _. word ≢ no_helper → (word ≤ 5) × ((other : ℕ)
        → arity_in table.new other
        ≡ (if other == id then Some word else arity_in table.old other))) }
    ensures own { IfOk result (λ any. any ≡ false → table.new ≡ job_table) }
    ensures beside { IfOk result (λ any. any ≡ true → table.new ≢ job_table) }
    ensures err { IfErr result (λ fault. IsWordFault word fault) }
{
    if word == NO_HELPER {
        return Ok(hosted);
    }
    if word > 5 {
        return Err(HelperFault::TooManyArguments);
    }
    match table.add(alloc, id, word) {
        Ok(()) => Ok(true),
        Err(_) => Err(HelperFault::NoMemory),
    }
}

// The helpers of a job, and those that the words say.
fn helpers_told(alloc: Global, words: &[u32]) -> Result<Helpers, HelperFault>
    ensures { MatchResult result
        (λ told. (length words.now ≤ 64) × AreAritiesTo words.now (length words.now)
        × AreHelpersTo words.now (length words.now) told.table)
        (λ fault. AreNoHelpers words.now fault) }
{
    if words.len() > IDS {
        return Err(HelperFault::BadId);
    }
    let mut table = HelperTable::job();
    let mut hosted = false;
    let mut place = 0;
    while place < words.len() {
        let id = FIRST_OF_HOST + place as u32;
        match add_told(alloc, &mut table, hosted, id, words[place]) {
            Ok(any) => hosted = any,
            Err(fault) => return Err(fault),
        }
        place += 1;
    }
    Ok(Helpers { table, hosted })
}

// Loads a program over these helpers into the handle, in place of the one that it held.
fn load_over(
    alloc: Global,
    need: u32,
    code: &[u8],
    helpers: &Helpers,
    program: &mut ProgramHandle,
) -> Verdict
    ensures { IsLoadedOver need code.now helpers.now.table (held_program program.old)
        (held_program program.new) result }
{
    match verify(alloc, need, code, &helpers.table) {
        Ok(verified) => {
            let verdict = accepted_verdict(&verified);
            match Boxed::of(alloc, verified, helpers.hosted) {
                Ok(boxed) => {
                    *program = ProgramHandle::of(boxed);
                    verdict
                }
                Err(_) => refused_verdict(&Refusal::NoMemory),
            }
        }
        Err(refusal) => refused_verdict(&refusal),
    }
}

// The verdict where the host's helpers aren't taken.
fn refused_helpers(fault: HelperFault) -> Verdict
    ensures { result ≡ refused_at (code_of_helper_fault fault) None }
{
    Verdict {
        status: fault.code(),
        cost: 0,
        slot: 0,
        has_slot: false,
    }
}

// Loads a program over the helpers that the words say.
fn load_with(
    alloc: Global,
    need: u32,
    code: &[u8],
    words: &[u32],
    program: &mut ProgramHandle,
) -> Verdict
    ensures { IsLoadedWith need code.now words.now (held_program program.old)
        (held_program program.new) result }
{
    match helpers_told(alloc, words) {
        Ok(helpers) => load_over(alloc, need, code, &helpers, program),
        Err(fault) => refused_helpers(fault),
    }
}

/// As `telgovan_program_load`, with helpers of the host's beside those of a job. The words say how
/// many arguments each of them takes, by its id from 64 on, 0 to 5, or 4,294,967,295 where there is
/// none of this id. The first refusals are 44 for more than 64 words, and 45 for another word.
#[unsafe(no_mangle)]
pub extern "C" fn telgovan_program_load_with(
    alloc: Global,
    need: u32,
    code: &[u8],
    words: &[u32],
    program: &mut ProgramHandle,
    verdict: &mut Verdict,
) -> u32
    ensures loaded { IsLoadedWith need code.now words.now (held_program program.old)
        (held_program program.new) verdict.new }
    ensures status { result ≡ verdict.new.status }
{
    *verdict = load_with(alloc, need, code, words, program);
    verdict.status
}
