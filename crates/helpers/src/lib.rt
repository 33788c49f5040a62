//! What a task has besides its frame: the helpers that it may call, its part of the buffer, and
//! whom it asks for a spawn.
#![tactic(auto)]

mod answer;
mod part;
mod spawner;
mod table;

pub use answer::spawn_answer;
pub use machine_model::Entry;
pub use part::Part;
pub use spawner::{SpawnRecord, Spawner};
pub use table::HelperTable;
