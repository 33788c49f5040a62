//! Desks of tenants whose changes are recorded, those of each desk in a queue of its own.
#![tactic(auto)]

// the recorders of the desks, and what they record
mod desk_answers;
mod desk_credits;
mod desk_ends;
mod desk_restarts;
mod recorders;

// what answers
mod recording_tenants;

pub use recording_tenants::RecordingTenantHandler;

// what the records lead to
mod laws;

pub use laws::{
    recorded_names_are_put_in, recorders_change_no_answer, records_lead_to_desks,
    remembered_keys_are_recorded,
};
