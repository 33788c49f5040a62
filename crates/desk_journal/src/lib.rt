//! The changes of a desk, as records of a journal, and the desk that they lead to.
#![tactic(auto)]

// values as bytes
mod bytes;
mod encoded;
mod lists;
mod numbers;
mod pairs;
mod parts;
mod whole;

pub use bytes::{Blob, write_bytes};
pub use encoded::{Encoded, ReadFault};
pub use whole::read_whole;

// changes
mod change;

pub use change::DeskChange;

// the desk that they lead to
mod journaled_desk;
mod opening;
mod putting_back;
mod snapshot;

pub use journaled_desk::{JournaledDesk, OpenJob};
pub use opening::open_desk_journal;
