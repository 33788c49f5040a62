//! The journals that the replies of a connection rest on.

ghost use Rattle.std.specs.Prelude.{◌≡◌, ◌≤◌, ◌<◌, length};
ghost use Rattle.job_server.specs.ReplyJournals as replies;
ghost use Rattle.tenant_desks.specs.Routing as routing;

use shared_desk::{Door, Passage};

// The place of the desk that a door belongs to, and of its journal.
fn place_behind(door: Door) -> usize
    ensures { result ≡ routing.place_behind door }
{
    match door {
        Door::Port => 0,
        Door::Socket => 0,
        Door::Grants => 0,
        Door::Tenant(number) => usize::from(number) + 1,
    }
}

// The one at this place, as a list.
fn one_at<J>(journals: &[J], place: usize) -> &[J]
    requires { place < length journals.now }
    ensures { result.now ≡ replies.one_at journals.now place }
{
    journals.split_at(place).1.split_at(1).0
}

/// The journals of the desks that replies to a connection of this passage may tell of: all where it
/// may grant, and else the one of the desk behind its door. A door without a desk has all.
pub(crate) fn journals_behind<J>(journals: &[J], passage: Passage) -> &[J]
    ensures { result.now ≡ replies.journals_behind journals.now passage }
{
    let place = place_behind(passage.door);
    if passage.may_grant || journals.len() <= place {
        return journals;
    }
    one_at(journals, place)
}
