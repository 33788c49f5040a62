//! The log of a server: what it counts, what its lines tell, and the queue from the server's
//! threads to the log's writer; and the flag by which a server is stopped.
#![tactic(auto)]

mod counting_handler;
mod grant_note;
mod log_line;
mod log_queue;
mod logged_handler;
mod reply_events;
mod server_counts;
mod stop_flag;

pub use counting_handler::{CountingHandler, counts_are_put_aside};
pub use grant_note::{GrantNote, noted_grant};
pub use log_line::{ConnectionEnd, LogEvent, LogForm, LogLine};
pub use log_queue::{LogLines, ServerLog, millis_since, open_log, write_lines};
pub use logged_handler::{LoggedHandler, event_of_refusal, tell_answer};
pub use server_counts::Counter;
pub use stop_flag::StopFlag;
