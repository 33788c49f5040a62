//! A job that is taken and started, with the changes that this makes.

ghost use Rattle.std.specs.Prelude.{◌≡◌, ℕ, List, [], IfErr, IfOk, MatchResult, None, Ok, OnErr, OnOk, Option, false, length, option_map};
ghost use Rattle.accounts.specs.Ahead.{IsAdmissionOf};
ghost use Rattle.accounts.specs.Ledgers.{Ledger, RefusesSubmit, Takes};
ghost use Rattle.job_core.specs.Admission.{IsAdmittedFrom};
ghost use Rattle.job_core.specs.declared.admission.ProgramBytes.{ProgramBytes};
ghost use Rattle.streams.specs.Answering.{Framed, Replies, StartsTaken, submit_refused};
ghost use Rattle.streams.specs.Refusing.{IsJustTaken, SaysRefusal, TellsRefusal};
ghost use Rattle.streams.specs.Submits.{submit_asked};
ghost use Rattle.server_state.specs.Changing.{Records};
ghost use Rattle.server_handler.specs.Recording.{IsRecordedAdmission, keyed_taken};

use crate::made_changes::{add_made, taken_change};
use crate::recorded_ends::note_start;
use accounts::{Desk, SubmitFault};
use job_core::{AdmitFault, Job, ProgramBytes};
use refusal::NoMemory;
use server_state::{ChangeSink, DeskChange};
use sessions::JobKey;
use std::alloc::Global;
use streams::{AdmittedSubmit, PendingReply, Runner, SubmitParts, SubmitRefusal, answer_taken};

// The change of a job that was admitted, and room for it; none where changes are not kept. Want of
// memory refuses the job.
fn record_ahead<C: ChangeSink>(
    alloc: Global,
    changes: &mut C,
    place: u16,
    key: Option<&JobKey>,
    tenant: &str,
    programs: Vec<ProgramBytes>,
    credit: u32,
    admitted: Result<Job, AdmitFault>,
    copy: Result<Vec<u8>, NoMemory>,
) -> Result<(Job, Option<DeskChange>), AdmitFault>
    ensures admission { (buffer : List ℕ) → IsAdmissionOf programs.items credit buffer admitted
        → IfOk copy (λ bytes. bytes.items ≡ buffer)
        → IsRecordedAdmission place (option_map (λ k. k.now) key.entry) tenant.now programs.items credit
        buffer result }
    ensures kept { IfOk result (λ made. made.1 ≡ None → C.sound changes.new ≡ false) }
    ensures records { (desk : Ledger)
        → Records C.ChangeSink place changes.old changes.new desk desk [] }
{
    let job = match admitted {
        Ok(job) => job,
        Err(fault) => return Err(fault),
    };
    if !changes.are_kept() {
        return Ok((job, None));
    }
    let buffer = match copy {
        Ok(buffer) => buffer,
        Err(NoMemory) => return Err(AdmitFault::NoMemory),
    };
    let change = match taken_change(alloc, place, key, tenant, programs, credit, buffer) {
        Ok(change) => change,
        Err(NoMemory) => return Err(AdmitFault::NoMemory),
    };
    match changes.reserve() {
        Ok(()) => Ok((job, Some(change))),
        Err(NoMemory) => Err(AdmitFault::NoMemory),
    }
}

// Takes a job as the desk does, and adds that.
fn take_recorded<C: ChangeSink>(
    alloc: Global,
    desk: &mut Desk,
    changes: &mut C,
    place: u16,
    tenant: &str,
    credit: u32,
    admission: Result<(Job, Option<DeskChange>), AdmitFault>,
) -> Result<(u64, Job), SubmitFault>
    ensures taken { OnOk result (Takes desk.old tenant.now credit desk.new) }
    ensures number { IfOk result (λ taken. taken.0 ≡ length desk.new.jobs) }
    ensures admitted { (key : Option (List ℕ)) (programs : List ProgramBytes) (buffer : List ℕ)
        → IsRecordedAdmission place key tenant.now programs credit buffer admission
        → IfOk result (λ taken. IsAdmittedFrom programs credit buffer taken.1) }
    ensures refused { (key : Option (List ℕ)) (programs : List ProgramBytes) (buffer : List ℕ)
        → IsRecordedAdmission place key tenant.now programs credit buffer admission
        → IfErr result (λ e. RefusesSubmit desk.old tenant.now programs credit buffer e) }
    ensures unchanged { OnErr result (desk.new ≡ desk.old) }
    ensures records { (key : Option (List ℕ)) (programs : List ProgramBytes) (buffer : List ℕ)
        → IsRecordedAdmission place key tenant.now programs credit buffer admission
        → Records C.ChangeSink place changes.old changes.new desk.old desk.new
        (keyed_taken key desk.old desk.new) }
{
    let (job, change) = match admission {
        Ok(made) => made,
        Err(fault) => return desk.take(alloc, tenant, credit, Err(fault)),
    };
    match desk.take(alloc, tenant, credit, Ok(job)) {
        Ok(taken) => {
            add_made(changes, place, change);
            Ok(taken)
        }
        Err(fault) => Err(fault),
    }
}

// Starts a job that was taken, or tells why it was not. Adds the end of a job whose start was
// refused.
fn start_recorded<N: Runner, C: ChangeSink>(
    alloc: Global,
    desk: &mut Desk,
    runner: &mut N,
    changes: &mut C,
    place: u16,
    taken: Result<(u64, Job), SubmitFault>,
) -> (Option<SubmitRefusal>, Result<PendingReply, NoMemory>)
    requires ready { N.ready runner.old }
    requires last { IfOk taken (λ t. IsJustTaken desk.old t.0) }
    ensures ready { N.ready runner.new }
    ensures done { Framed result.1 (λ told. MatchResult taken
        (λ t. StartsTaken N.starts desk.old runner.old t.0 t.1 told desk.new runner.new)
        (λ fault. (desk.new ≡ desk.old) × (runner.new ≡ runner.old)
        × (told ≡ submit_refused fault))) }
    ensures refusal { IfOk result.1 (λ frame. SaysRefusal desk.new result.0 frame) }
    ensures count { length desk.new.jobs ≡ length desk.old.jobs }
    ensures records { Records C.ChangeSink place changes.old changes.new desk.old desk.new [] }
{
    match taken {
        Ok(job) => {
            let (refusal, reply) = answer_taken(alloc, desk, runner, Ok(job));
            note_start(changes, place, refusal);
            (refusal, reply)
        }
        Err(fault) => answer_taken(alloc, desk, runner, Err(fault)),
    }
}

/// Takes a job that was admitted or refused ahead, adds that with the key that it came by, starts
/// it, and tells its number. Want of memory for the change refuses it by 99, behind 74 and 75.
pub fn answer_admitted_recorded<N: Runner, C: ChangeSink>(
    alloc: Global,
    desk: &mut Desk,
    runner: &mut N,
    changes: &mut C,
    place: u16,
    key: Option<&JobKey>,
    submit: AdmittedSubmit,
) -> (Option<SubmitRefusal>, Result<PendingReply, NoMemory>)
    requires { N.ready runner.old }
    ensures ready { N.ready runner.new }
    ensures done { Framed result.1
        (λ told. Replies N.starts N.looks desk.old runner.old (Ok submit) told desk.new runner.new) }
    ensures refusal { TellsRefusal desk.new (Ok submit) result.0 result.1 }
    ensures records { Records C.ChangeSink place changes.old changes.new desk.old desk.new
        (keyed_taken (option_map (λ k. k.now) key.entry) desk.old desk.new) }
{
    let SubmitParts {
        tenant,
        programs,
        credit,
        admitted,
        copy,
        ..
    } = submit.into_parts();
    let name = tenant.as_str();
    let admission = record_ahead(
        alloc, changes, place, key, name, programs, credit, admitted, copy,
    );
    let taken = take_recorded(alloc, desk, changes, place, name, credit, admission);
    start_recorded(alloc, desk, runner, changes, place, taken)
}

/// The same of a job that is admitted now, unless the desk refuses it whatever it is.
pub fn answer_submit_recorded<N: Runner, C: ChangeSink>(
    alloc: Global,
    desk: &mut Desk,
    runner: &mut N,
    changes: &mut C,
    place: u16,
    key: Option<&JobKey>,
    tenant: String,
    programs: Vec<ProgramBytes>,
    credit: u32,
    buffer: Vec<u8>,
) -> (Option<SubmitRefusal>, Result<PendingReply, NoMemory>)
    requires { N.ready runner.old }
    ensures ready { N.ready runner.new }
    ensures done { Framed result.1 (λ told. Replies N.starts N.looks desk.old runner.old
        (Ok (submit_asked tenant programs.items credit buffer.items)) told desk.new runner.new) }
    ensures refusal { TellsRefusal desk.new
        (Ok (submit_asked tenant programs.items credit buffer.items)) result.0 result.1 }
    ensures records { Records C.ChangeSink place changes.old changes.new desk.old desk.new
        (keyed_taken (option_map (λ k. k.now) key.entry) desk.old desk.new) }
{
    match desk.may_submit(&tenant, credit) {
        Ok(()) => {
            let submit = AdmittedSubmit::admit(alloc, tenant, programs, credit, buffer);
            answer_admitted_recorded(alloc, desk, runner, changes, place, key, submit)
        }
        Err(fault) => answer_taken(alloc, desk, runner, Err(fault)),
    }
}
