//! The answers to what a door hears beyond the plain protocol.

ghost use Rattle.std.specs.Prelude.{◌≡◌, None, Some};
ghost use Rattle.sessions.specs.declared.door_forms.DoorForm.TheVariants.{Jobs, Keyed, Server};
ghost use Rattle.shared_desk.specs.Answered.{query_by};
ghost use Rattle.tenant_desks.specs.AtDoors.{AsksNothing, GivesReply, answers_at_doors, jobs_behind, keys_behind};
ghost use Rattle.sessions.specs.JobKeys.{job_among};

use crate::desks::TenantDesks;
use crate::door_keys::DoorKeys;
use crate::job_lists::list_jobs;
use crate::keyed_handler::KeyedHandler;
use crate::routing::place_behind;
use crate::tenant_handler::refuse;
use refusal::NoMemory;
use sessions::{DoorForm, JobKey, Reply};
use shared_desk::{Door, Passage};
use std::alloc::Global;
use streams::{PendingReply, PreparedRequest};

// The number of the refusal of what is no request.
const NO_REQUEST: u8 = 73;

// How many jobs a door's own desk has taken.
fn count_at(desks: &TenantDesks, door: Door) -> u64
    ensures { result ≡ jobs_behind desks.now.desks door }
{
    match desks.desks.get(place_behind(door)) {
        Some(desk) => desk.job_count(),
        None => 0,
    }
}

// Has the handler pass finished jobs to their desks, as it does ahead of each answer: it is asked what
// is no request.
fn ask_nothing<H: KeyedHandler>(
    alloc: Global,
    handler: &mut H,
    desk: &mut TenantDesks,
    passage: Passage,
)
    requires { H.ready handler.old }
    ensures ready { H.ready handler.new }
    ensures asked { AsksNothing H.answers passage (desk.old, handler.old) (desk.new, handler.new) }
    ensures kept { H.keeps_key (desk.old, handler.old) passage.door None (desk.new, handler.new) }
{
    let nothing = PreparedRequest::AsItCame(Err(NO_REQUEST));
    drop(handler.answer_keyed(alloc, desk, passage, nothing, None));
}

// Tells the jobs of the door's own desk.
fn tell_jobs<H: KeyedHandler>(
    alloc: Global,
    handler: &mut H,
    keys: &DoorKeys,
    desk: &mut TenantDesks,
    passage: Passage,
    request: PreparedRequest,
    from: u64,
) -> Result<PendingReply, NoMemory>
    requires { H.ready handler.old }
    ensures ready { H.ready handler.new }
    ensures answered { GivesReply (λ reply. answers_at_doors H.answers H.keeps_key
        (desk.old, record { handler = handler.old; keys = keys.now })
        (query_by passage request (Some (Jobs from))) reply
        (desk.new, record { handler = handler.new; keys = keys.now })) result }
{
    drop(request);
    ask_nothing(alloc, handler, desk, passage);
    list_jobs(alloc, desk, passage.door, from, keys.at(passage.door))
}

// Refuses a submit whose key is none.
fn refuse_key<H: KeyedHandler>(
    alloc: Global,
    handler: &mut H,
    keys: &DoorKeys,
    desk: &mut TenantDesks,
    passage: Passage,
    request: PreparedRequest,
) -> Result<PendingReply, NoMemory>
    requires { H.ready handler.old }
    ensures ready { H.ready handler.new }
    ensures answered { GivesReply (λ reply. answers_at_doors H.answers H.keeps_key
        (desk.old, record { handler = handler.old; keys = keys.now })
        (query_by passage request (Some (Keyed None))) reply
        (desk.new, record { handler = handler.new; keys = keys.now })) result }
{
    drop(request);
    ask_nothing(alloc, handler, desk, passage);
    refuse(alloc, NO_REQUEST)
}

// Refuses what is asked of the server itself.
fn refuse_server<H: KeyedHandler>(
    alloc: Global,
    handler: &mut H,
    keys: &DoorKeys,
    desk: &mut TenantDesks,
    passage: Passage,
    request: PreparedRequest,
    stops: bool,
) -> Result<PendingReply, NoMemory>
    requires { H.ready handler.old }
    ensures ready { H.ready handler.new }
    ensures answered { GivesReply (λ reply. answers_at_doors H.answers H.keeps_key
        (desk.old, record { handler = handler.old; keys = keys.now })
        (query_by passage request (Some (Server stops))) reply
        (desk.new, record { handler = handler.new; keys = keys.now })) result }
{
    drop(request);
    ask_nothing(alloc, handler, desk, passage);
    refuse(alloc, NO_REQUEST)
}

// Tells the number of a key's job once more.
fn tell_again<H: KeyedHandler>(
    alloc: Global,
    handler: &mut H,
    keys: &DoorKeys,
    desk: &mut TenantDesks,
    passage: Passage,
    request: PreparedRequest,
    key: JobKey,
    job: u64,
) -> Result<PendingReply, NoMemory>
    requires ready { H.ready handler.old }
    requires known { job_among (keys_behind keys.now passage.door) key ≡ Some job }
    ensures ready { H.ready handler.new }
    ensures answered { GivesReply (λ reply. answers_at_doors H.answers H.keeps_key
        (desk.old, record { handler = handler.old; keys = keys.now })
        (query_by passage request (Some (Keyed (Some key)))) reply
        (desk.new, record { handler = handler.new; keys = keys.now })) result }
{
    drop(request);
    drop(key);
    ask_nothing(alloc, handler, desk, passage);
    PendingReply::of_reply(alloc, &Reply::Submit { job })
}

// Has the handler answer a submit by a new key, which is remembered if the door's own desk takes a job.
fn submit_by_key<H: KeyedHandler>(
    alloc: Global,
    handler: &mut H,
    keys: &mut DoorKeys,
    desk: &mut TenantDesks,
    passage: Passage,
    request: PreparedRequest,
    key: JobKey,
) -> Result<PendingReply, NoMemory>
    requires ready { H.ready handler.old }
    requires unknown { job_among (keys_behind keys.old passage.door) key ≡ None }
    ensures ready { H.ready handler.new }
    ensures answered { GivesReply (λ reply. answers_at_doors H.answers H.keeps_key
        (desk.old, record { handler = handler.old; keys = keys.old })
        (query_by passage request (Some (Keyed (Some key)))) reply
        (desk.new, record { handler = handler.new; keys = keys.new })) result }
{
    let before = count_at(desk, passage.door);
    let reply = handler.answer_keyed(alloc, desk, passage, request, Some(&key));
    let after = count_at(desk, passage.door);
    if before < after {
        keys.note(passage.door, after, key);
    }
    reply
}

// Answers a submit by a key.
fn answer_by_key<H: KeyedHandler>(
    alloc: Global,
    handler: &mut H,
    keys: &mut DoorKeys,
    desk: &mut TenantDesks,
    passage: Passage,
    request: PreparedRequest,
    key: JobKey,
) -> Result<PendingReply, NoMemory>
    requires { H.ready handler.old }
    ensures ready { H.ready handler.new }
    ensures answered { GivesReply (λ reply. answers_at_doors H.answers H.keeps_key
        (desk.old, record { handler = handler.old; keys = keys.old })
        (query_by passage request (Some (Keyed (Some key)))) reply
        (desk.new, record { handler = handler.new; keys = keys.new })) result }
{
    match keys.job_at(passage.door, &key) {
        Some(job) => tell_again(alloc, handler, keys, desk, passage, request, key, job),
        None => submit_by_key(alloc, handler, keys, desk, passage, request, key),
    }
}

// Answers a submit that has a member `key`.
fn answer_keyed<H: KeyedHandler>(
    alloc: Global,
    handler: &mut H,
    keys: &mut DoorKeys,
    desk: &mut TenantDesks,
    passage: Passage,
    request: PreparedRequest,
    key: Option<JobKey>,
) -> Result<PendingReply, NoMemory>
    requires { H.ready handler.old }
    ensures ready { H.ready handler.new }
    ensures answered { GivesReply (λ reply. answers_at_doors H.answers H.keeps_key
        (desk.old, record { handler = handler.old; keys = keys.old })
        (query_by passage request (Some (Keyed key))) reply
        (desk.new, record { handler = handler.new; keys = keys.new })) result }
{
    match key {
        Some(key) => answer_by_key(alloc, handler, keys, desk, passage, request, key),
        None => refuse_key(alloc, handler, keys, desk, passage, request),
    }
}

/// Answers what a door hears beyond the plain protocol. A listing, a submit whose key is none and one
/// whose key is remembered it tells by itself: the handler is asked what is no request then. A submit
/// by a new key the handler answers. What is asked of the server itself is refused by 73.
pub(crate) fn answer_form<H: KeyedHandler>(
    alloc: Global,
    handler: &mut H,
    keys: &mut DoorKeys,
    desk: &mut TenantDesks,
    passage: Passage,
    request: PreparedRequest,
    form: DoorForm,
) -> Result<PendingReply, NoMemory>
    requires { H.ready handler.old }
    ensures ready { H.ready handler.new }
    ensures answered { GivesReply (λ reply. answers_at_doors H.answers H.keeps_key
        (desk.old, record { handler = handler.old; keys = keys.old })
        (query_by passage request (Some form)) reply
        (desk.new, record { handler = handler.new; keys = keys.new })) result }
{
    match form {
        DoorForm::Jobs { from } => { tell_jobs(alloc, handler, keys, desk, passage, request, from) }
        DoorForm::Keyed { key } => {
            answer_keyed(alloc, handler, keys, desk, passage, request, key)
        }
        DoorForm::Server { stops } => {
            refuse_server(alloc, handler, keys, desk, passage, request, stops)
        }
    }
}
