//! A store that threads share: changes are added in order while another thread commits.
#![tactic(auto)]

mod change_queue;
mod commit_fault;
mod history;
mod share_fault;
mod sharing;
mod store_keeper;

pub use change_queue::{AddFault, ChangeQueue};
pub use commit_fault::CommitFault;
pub use history::{EmptyHistory, HistoryFront, HistoryName, HistoryWord};
pub use share_fault::ShareFault;
pub use sharing::{add_change, commit_both, commit_changes};
pub use store_keeper::StoreKeeper;
