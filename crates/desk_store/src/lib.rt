//! Rows by number in the tables of one SQLite file, changed a batch at a time.
//!
//! Rows are put into the store's trees by themselves, and no SQL text is run for them. The file is
//! SQLite's, with a log beside it, and `sqlite3` reads the tables by name.
#![tactic(auto)]

// tables, and values that are a row each
mod fault;
mod record;
mod table;

pub use fault::{LoadFault, StoreOpenFault};
pub use record::{Record, read_record};
pub use table::{ColumnForm, StoreTable};

// the rows of a file
mod file;
mod file_kinds;
mod open;
mod row_calls;
mod row_store;
mod system_files;

pub use file::{open_again, open_store};
pub use file_kinds::{FileKind, STORE_VERSION, file_kind};
pub use row_store::RowStore;
pub use system_files::{StoreFiles, SystemFiles};
