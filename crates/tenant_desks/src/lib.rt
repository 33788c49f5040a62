//! Tenants with a desk of their own: each is answered by it alone, and one runner runs all jobs.
#![tactic(auto)]

// the desks, and which of them a request goes to
mod desks;
mod first_desks;
mod routing;

pub use desks::TenantDesks;
pub use routing::{desk_for, place_behind};

// the runner that all desks share
mod ends;
mod placed_runner;

pub use placed_runner::{PlacedRunner, own_number, placed_number};

// what answers
mod tenant_handler;
mod told_grants;

pub use tenant_handler::{TenantHandler, refuse, refused_at, wants_admission_among};
pub use told_grants::{granted_among, noted_grant_among};

// by whose name
mod own_names;
mod own_naming;

pub use own_names::own_named;
pub use own_naming::OwnNaming;

// what doors hear beyond the plain protocol
mod door_answers;
mod door_keys;
mod job_lists;
mod key_table;
mod keyed_handler;
mod tenant_doors;

pub use door_keys::DoorKeys;
pub use keyed_handler::KeyedHandler;
pub use tenant_doors::TenantDoors;

// what each tenant has of it
mod laws;

pub use laws::{
    each_part_is_plain, each_tenant_is_alone, forms_are_put_aside, one_key_one_job,
    others_are_not_told, own_names_are_put_in,
};
