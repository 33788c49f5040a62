//! The changes of a desk with the keys that its jobs came by, and the desk and the keys that they
//! lead to.
#![tactic(auto)]

// changes
mod keyed_change;

pub use keyed_change::KeyedChange;

// the desk and the keys that they lead to
mod keyed_desk;
mod keys_snapshot;
mod opening;

pub use keyed_desk::KeyedDesk;
pub use opening::open_keyed_journal;

// what they are to the desk alone
mod laws;

pub use laws::plain_changes_lead_to_desks;
