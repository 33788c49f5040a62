//! Sockets of the system, of which no contract speaks: paths, names and wakes.

use crate::endpoint::{Endpoint, Place};
use crate::host_system::HostSystem;
use crate::listener::Listener;
use server_state::Access;
use sessions::DoorForms;
use std::fmt::Write;
use std::os::unix::net::UnixStream;
use std::test::Fail;
use std::{fs, process};

// An endpoint at a path, whose connections ask this desk.
fn endpoint_at(path: String, desk: u16) -> Endpoint {
    let access = Access {
        desk,
        may_grant: false,
        forms: DoorForms::Plain,
    };
    Endpoint {
        place: Place::Path(path),
        access,
    }
}

#[test]
fn a_connection_comes_by_its_path(rt: HostRuntime) -> Result<(), Fail> {
    let id = process::id(rt.process());
    let one = format!(in rt.alloc(); "/tmp/endpoints-{id}-one")?;
    let two = format!(in rt.alloc(); "/tmp/endpoints-{id}-two")?;
    let mut endpoints = Vec::new(rt.alloc());
    endpoints.push(endpoint_at(one.clone()?, 1))?;
    endpoints.push(endpoint_at(two.clone()?, 2))?;
    let mut again = Vec::new(rt.alloc());
    again.push(endpoint_at(two.clone()?, 3))?;
    let system = HostSystem::new(&rt, rt.alloc())?;
    let other = HostSystem::new(&rt, rt.alloc())?;
    let waker = system.waker();
    let mut listener = match Listener::open(system, &rt, rt.alloc(), endpoints) {
        Ok(listener) => listener,
        Err(fault) => return Err(Fail::from(fault.error)),
    };
    let near = UnixStream::connect(&rt, &two);
    let wakes = matches!(&waker, Ok(waker) if waker.wake().is_ok());
    let came = listener.accept(&rt);
    let woken = listener.accept(&rt);
    let mut words = String::new(rt.alloc());
    let told = match Listener::open(other, &rt, rt.alloc(), again) {
        Ok(second) => {
            second.close(&rt, rt.alloc());
            Ok(())
        }
        Err(fault) => write!(words, "{fault}"),
    };
    listener.close(&rt, rt.alloc());
    drop(near);
    assert!(rt; wakes);
    assert!(rt; matches!(&came, Ok(Some((_, access))) if access.desk == 2));
    assert!(rt; matches!(&woken, Ok(None)));
    let want = format!(in rt.alloc(); "cannot listen on {two}: address already in use")?;
    assert!(rt; told.is_ok() && words.as_str() == want.as_str());
    assert!(rt; fs::symlink_metadata(&rt, &one).is_err());
    assert!(rt; fs::symlink_metadata(&rt, &two).is_err());
    Ok(())
}
