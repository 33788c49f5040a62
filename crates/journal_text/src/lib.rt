//! A journal's records as text, and the verdict on a journal: for an operator who reads it.
#![tactic(auto)]

// the line of a change
mod change_text;
mod change_value;

pub use change_text::change_line;

// the lines of a journal, and what ends them
mod journal_lines;

pub use journal_lines::{JournalEnd, write_changes};

// the verdict
mod checking;

pub use checking::{RecordCount, check_journal};
