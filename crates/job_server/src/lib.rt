//! A server of jobs: everything that needs a thread or a socket. It hands on the types of
//! `streams`.
#![tactic(auto)]

// the streams that it answers, and what runs their jobs
pub use streams::{
    Failed, Handler, InlineRunner, Runner, Sink, Source, StreamFault, Tap, pass_finished,
    serve_stream,
};

// streams over TCP, on this machine alone
mod address;
mod fault;
mod listener;

pub use address::address_of;
pub use fault::{ServeFault, status_of};
pub use listener::Listener;

// what a host bounds
mod bounds;
mod frame_place;
mod keeping_handler;
mod noted_ends;
mod stop_flag;
mod timed_reader;
mod timed_stream;
mod timed_writer;

pub use bounds::Bounds;
pub use keeping_handler::KeepingHandler;
pub use server_log::StopFlag;
pub use timed_reader::Waiting;

// many connections at once
mod accept_faults;
mod at_once;
mod entrance;
mod plan;
mod reply_journals;
mod serving;
mod serving_desks;
mod serving_pooled;
mod serving_recorded;
mod serving_tenants_recorded;
mod shares;
mod tenant_door;
mod tenant_recording;

pub use at_once::serve_at_once;
pub use plan::Plan;
pub use serving::{serve_listener, serve_port, serve_sockets};
pub use tenant_door::TenantDoor;

// the meaning of the replies, from a submit to its result
mod laws;
mod tenant_laws;

pub use laws::{
    numbers_rise, payloads_lead_to_payloads, results_come_from_submits, results_outlive_restarts,
};
pub use tenant_laws::{
    own_results_outlive_restarts, payloads_lead_to_own_payloads, results_come_from_own_submits,
};

// where a server listens: the sockets in the file system, and their names
mod opening;
mod own_socket;
mod socket_listener;

pub use opening::{ListenFault, OpenSockets, SocketErrorWords, open_sockets, remove_names};
pub use own_socket::{OwnSocket, SocketAccess, listen_at};
pub use socket_listener::{AskedSocket, SocketListener};
