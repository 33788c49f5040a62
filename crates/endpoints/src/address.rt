//! The addresses of ports.

ghost use Rattle.endpoints.specs.Addresses.{IsLoopback};

use std::net::{Ipv4Addr, SocketAddr, SocketAddrV4};

/// This port of 127.0.0.1, which nobody but this machine reaches.
pub fn address_of(port: u16) -> SocketAddr
    ensures { IsLoopback port result }
{
    SocketAddr::V4(SocketAddrV4::new(Ipv4Addr::new(127, 0, 0, 1), port))
}
