//! A journal: records one behind the other in a log, each with its length and a checksum.
//!
//! A crash may leave a torn tail behind the whole records. It is found and dropped, never read.
#![tactic(auto)]

// records as bytes
mod checksum;
mod reading;
mod writing;

pub use checksum::crc32;
pub use reading::{DecodedRecords, HEADER_LEN, decode_all, first_record};
pub use writing::encode_record;

// what stands behind the whole records
mod inspection;

pub use inspection::{Inspection, TailKind, inspect, inspect_tail};

// what records mean
mod laws;

pub use laws::{cut_anywhere, one_reading, one_tail_kind, round_trip, whole_first, zeros_are_torn};

// logs
mod log;
mod memory_log;

pub use log::{Log, LogFault};
pub use memory_log::MemoryLog;
