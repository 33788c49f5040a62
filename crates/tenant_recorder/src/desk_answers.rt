//! The answer at one of many desks, with the records of what it changes.

ghost use Rattle.std.specs.Prelude.{◌≡◌, ◌≤◌, ◌+◌, ℕ, IfOk, List, OnErr, false, length, map, option_map, string_bytes};
ghost use Rattle.accounts.specs.Ledgers.{KeepsWithin};
ghost use Rattle.streams.specs.Prepared.{asked_of};
ghost use Rattle.tenant_desks.specs.Answering.{AnswersAlone, DeskAnswer};
ghost use Rattle.tenant_desks.specs.PlacedRunners.{looks_placed, starts_placed};
ghost use Rattle.tenant_desks.specs.Routing as routing;
ghost use Rattle.desk_recorder.specs.Recording.{keyed_taken};
ghost use Rattle.tenant_recorder.specs.Recorders.{AreRecorded, HaveForgotten, TakesKeyed, TakesRecords};

use crate::desk_ends::pass_ends;
use accounts::{Desk, KeepLimits};
use desk_recorder::{ChangeRecorder, RecordQueue, keep_recorded, reply_recorded};
use refusal::NoMemory;
use sessions::JobKey;
use shared_desk::Passage;
use std::alloc::Global;
use streams::{PendingReply, PreparedRequest, Runner, SubmitRefusal};
use tenant_desks::{PlacedRunner, desk_for, place_behind, refuse, refused_at};

// Answers at one desk, which then forgets, unless nothing has changed since it last did. Records what
// that changes. Beside the reply it tells why a job doesn't run.
fn answer_at<N: Runner, Q: RecordQueue>(
    alloc: Global,
    desk: &mut Desk,
    runner: &mut PlacedRunner<N>,
    recorder: &mut ChangeRecorder<Q>,
    keep: KeepLimits,
    key: Option<&JobKey>,
    request: PreparedRequest,
) -> (Option<SubmitRefusal>, Result<PendingReply, NoMemory>)
    requires { N.ready runner.old.runner }
    ensures ready { N.ready runner.new.runner }
    ensures ok { IfOk result.1 (λ reply.
        (recorder.old.has_changed ≡ false → KeepsWithin keep desk.old desk.old)
        → AnswersAlone (starts_placed N.starts) (looks_placed N.looks) keep runner.old runner.new
        (asked_of request) reply desk.old desk.new) }
    ensures err { OnErr result.1 ((reply : List ℕ)
        × ((recorder.old.has_changed ≡ false → KeepsWithin keep desk.old desk.old)
        → AnswersAlone (starts_placed N.starts) (looks_placed N.looks) keep runner.old runner.new
        (asked_of request) reply desk.old desk.new)) }
    ensures forgotten { (recorder.old.has_changed ≡ false → KeepsWithin keep desk.old desk.old)
        → KeepsWithin keep desk.new desk.new }
    ensures records { TakesRecords Q.taken Q.has_failed recorder.old recorder.new desk.old desk.new
        (keyed_taken (option_map (λ k. k.now) key.entry) desk.old desk.new) }
{
    let told = reply_recorded(alloc, desk, runner, recorder, key, request);
    keep_recorded(alloc, desk, recorder, keep);
    recorder.begin();
    told
}

/// Passes every finished job to its own desk, and answers at the desk that the request goes to. Each
/// change of a desk is recorded in its queue, a job that is taken with the key that it came by.
pub(crate) fn answer_among<N: Runner, Q: RecordQueue>(
    alloc: Global,
    names: &[String],
    desks: &mut Vec<Desk>,
    runner: &mut PlacedRunner<N>,
    recorders: &mut Vec<ChangeRecorder<Q>>,
    keep: KeepLimits,
    passage: Passage,
    key: Option<&JobKey>,
    request: PreparedRequest,
) -> (Option<SubmitRefusal>, Result<PendingReply, NoMemory>)
    requires ready { N.ready runner.old.runner }
    requires names { length names.now ≤ 256 }
    requires desks { length desks.old.items ≡ length names.now + 1 }
    requires paired { length recorders.old.items ≡ length desks.old.items }
    ensures ready { N.ready runner.new.runner }
    ensures ok { IfOk result.1 (λ reply. HaveForgotten keep desks.old.items recorders.old.items
        → DeskAnswer N.starts N.looks N.takes keep
        (routing.desk_for (map string_bytes names.now) passage (asked_of request))
        (asked_of request) desks.old.items runner.old.runner reply desks.new.items
        runner.new.runner) }
    ensures err { OnErr result.1 ((reply : List ℕ)
        × (HaveForgotten keep desks.old.items recorders.old.items
        → DeskAnswer N.starts N.looks N.takes keep
        (routing.desk_for (map string_bytes names.now) passage (asked_of request))
        (asked_of request) desks.old.items runner.old.runner reply desks.new.items
        runner.new.runner)) }
    ensures forgotten { HaveForgotten keep desks.old.items recorders.old.items
        → HaveForgotten keep desks.new.items recorders.new.items }
    ensures records { AreRecorded Q.taken Q.has_failed recorders.old.items recorders.new.items
        desks.old.items desks.new.items }
    ensures kept { TakesKeyed Q.taken Q.has_failed passage.door (option_map (λ k. k.now) key.entry)
        recorders.old.items recorders.new.items desks.old.items desks.new.items }
{
    pass_ends(alloc, desks, &mut runner.runner, recorders);
    let place = match desk_for(names, passage, &request) {
        Ok(place) => place,
        Err(code) => return (None, refuse(alloc, code)),
    };
    runner.place = place as u16;
    let own_key = if place == place_behind(passage.door) {
        key
    } else {
        None
    };
    let (refusal, reply) = answer_at(
        alloc,
        &mut desks[place],
        runner,
        &mut recorders[place],
        keep,
        own_key,
        request,
    );
    (refused_at(refusal, place as u16), reply)
}
