//! What a task comes to with all that it spawns, and that a job comes to this whatever its
//! schedule.
#![tactic(auto)]

mod laws;

pub use laws::{
    each_ran_alone, evaluates_by_itself_first, evaluates_once, keeps_parents, one_answer,
    places_differ, plays_to_answer, runs_once_alone, schedules_agree, steps_keep_answer,
};
