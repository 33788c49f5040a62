//! One desk and one handler that many connections share, under one lock, which a connection holds
//! for one request at a time.
//!
//! One history has every answer in order. It leads to the desk and the handler, and each connection
//! knows its own part of it. The history exists in proofs alone.
#![tactic(auto)]

// the history, and what each seat knows of it
mod closed;
mod seats;
mod shared_history;

pub use closed::ClosedConnection;
pub use seats::{ClosingRule, EntryRule, HistoryId, LogEntry, Origin};
pub use shared_history::{ClientSeat, NewHistory, Opener, Recorder, SharedHistory};

// what lies under the lock, and one connection's way to it
mod client;
mod desk;
mod door;
mod passage;
mod shared_handler;
mod way;

pub use client::{Client, serve_client, serve_opened};
pub use desk::SharedDesk;
pub use door::Door;
pub use passage::{Passage, PassageId};
pub use shared_handler::SharedHandler;
pub use way::{DeskWay, LentDesk};

// many connections at once
mod connections;

pub use connections::{Connection, ServedConnection, serve_all, serve_connection};

// one desk and its connections, from the first request to the last
mod serving;

pub use serving::{ServedEnds, serve_clients};
