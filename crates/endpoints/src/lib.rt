//! The endpoints of a server: its sockets, the one listener over them, streams whose reads and writes
//! have limits of time, the flag that stops, and the places that each endpoint has at most.
#![tactic(auto)]

// where a server listens, and the connections that come there
mod accept_faults;
mod address;
mod endpoint;
mod listen_fault;
mod listener;
mod socket;
mod taking_turns;

pub use accept_faults::{AcceptRetry, retry_after};
pub use address::address_of;
pub use endpoint::{Endpoint, Place, SocketMode};
pub use listen_fault::{ListenFault, SocketErrorText};
pub use listener::Listener;
pub use socket::{Socket, System};

// the system itself
mod host_socket;
mod host_system;
mod socket_name;

pub use host_socket::HostSocket;
pub use host_system::HostSystem;

// streams that wait no longer than a host allows
mod flag_watch;
mod limits;
mod stop_flag;
mod stream_ends;
mod timed_ends;
mod timed_reader;
mod timed_writer;

pub use flag_watch::FlagWatch;
pub use limits::Timer;
pub use stop_flag::StopFlag;
pub use stream_ends::{ReadEnd, WriteEnd};
pub use timed_ends::{TimedRead, TimedWrite};
pub use timed_reader::TimedReader;
pub use timed_writer::TimedWriter;

// the connections that are taken, and the places that each endpoint has at most
mod entrance;
mod shares;

pub use entrance::{Entrance, TakenConnection};
pub use shares::{MOST_TENANTS, Shares, TakenPlace, shares_of};

#[cfg(test)]
mod tests;
