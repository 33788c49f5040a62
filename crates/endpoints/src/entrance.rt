//! The entrance of a server, where its connections are taken.

ghost use Rattle.std.specs.Prelude.{◌≡◌, ◌≤◌, ◌+◌, ◌⊎◌, ℕ, false, IfErr, IfNone, IfOk, IfSome, OnErr, is_some, true};
ghost use Rattle.endpoints.specs.Listening.{CameBy, WasAsked};

use crate::flag_watch::FlagWatch;
use crate::listener::Listener;
use crate::shares::{Shares, TakenPlace};
use crate::socket::{Socket, System};
use crate::stop_flag::StopFlag;
use server_state::Access;
use std::alloc::Global;
use std::fs::{File, Files};
use std::io;
use std::marker::Model;
use std::net::{Net, TcpListener, TcpStream};
use std::sync::{Mutex, Wait};

/// A connection that was taken.
pub struct TakenConnection<T> {
    pub stream: T,
    /// The access of the endpoint where it came.
    pub access: Access,
    /// Its place of that endpoint's share, where endpoints have shares. It is to be given back.
    pub place: Option<TakenPlace>,
    /// Its number, from 1 on.
    pub number: u64,
}

// An endpoint has its share of places.
#[derive(Clone, Copy)]
struct NoPlaceLeft;

/// A listener of which so many connections are taken. It lies under a lock. Contracts see its
/// endpoints, with the place of the one that gave the last connection, how many are taken in all, and
/// how many were.
pub struct Entrance<Y: System> {
    listener: Listener<Y>,
    sessions: u64,
    taken: u64,
}

impl<Y: System> Model for Entrance<Y> {
    ghost use Rattle.std.specs.Prelude.{◌≤◌, ℕ, List};
    ghost use Rattle.endpoints.specs.declared.endpoint.Endpoint.{Endpoint};

    ghost Value = { (List Endpoint × ℕ) × (ℕ × ℕ) };

    ghost view = { λ e. (e.listener, (e.sessions, e.taken)) };

    ghost invariant = { λ e. e.taken ≤ e.sessions };
}

// A place for a connection of an endpoint, where there are shares.
fn place_at<R: Wait>(
    rt: &R,
    shares: Option<&Mutex<Shares>>,
    endpoint: usize,
) -> Result<Option<TakenPlace>, NoPlaceLeft>
    ensures place { IfOk result (λ place. (is_some place ≡ is_some shares.entry)
        × IfSome place (λ taken. taken.endpoint ≡ endpoint)) }
    ensures full { OnErr result (is_some shares.entry ≡ true) }
{
    let Some(shares) = shares else {
        return Ok(None);
    };
    match shares.lock(rt).enter(endpoint) {
        Some(place) => Ok(Some(place)),
        None => Err(NoPlaceLeft),
    }
}

impl<Y: System> Entrance<Y> {
    /// An entrance where so many connections are taken, and none was; `u64::MAX`: any number.
    pub fn new(listener: Listener<Y>, sessions: u64) -> Entrance<Y>
        ensures { result ≡ (listener, (sessions, 0)) }
    {
        Entrance {
            listener,
            sessions,
            taken: 0,
        }
    }

    /// Takes no more connections.
    pub fn cancel(&mut self)
        ensures { self.new ≡ (self.old.0, (self.old.1.1, self.old.1.1)) }
    {
        self.sessions = self.taken;
    }

    /// Listens no more. Tells how many connections were taken.
    pub fn close<R>(self, rt: &R, alloc: Global) -> u64
    where
        Y: Drop,
        R: Net<Stream = TcpStream, Listener = TcpListener> + Files<File = File>,
        ensures count { result ≡ self.1.1 }
        ensures few { result ≤ self.1.0 }
    {
        let Entrance {
            listener,
            sessions: _,
            taken,
        } = self;
        listener.close(rt, alloc);
        taken
    }
}

impl<Y: System> Entrance<Y>
where
    <Y::Socket as Socket>::Stream: Drop,
{
    /// Waits for the next connection, and takes it: with the access of the endpoint where it came, and
    /// a place of that endpoint's share, if there are shares. `None` once all were taken, or the flag is
    /// up. One that comes while the flag is up, or whose endpoint has its share, is let go.
    pub fn next<R: Wait>(
        &mut self,
        rt: &R,
        stop: Option<&StopFlag>,
        shares: Option<&Mutex<Shares>>,
    ) -> io::Result<Option<TakenConnection<<Y::Socket as Socket>::Stream>>>
        ensures same { (self.new.0.0 ≡ self.old.0.0) × (self.new.1.0 ≡ self.old.1.0) }
        ensures came { IfOk result (λ next. IfSome next (λ taken. CameBy Y.Socket.listens_at
            Y.Socket.admits Y.Socket.gave self.new.0.0 self.new.0.1 taken.stream taken.access)) }
        ensures place { IfOk result (λ next. IfSome next (λ taken.
            (is_some taken.place ≡ is_some shares.entry)
            × IfSome taken.place (λ place. place.endpoint ≡ self.new.0.1))) }
        ensures number { IfOk result (λ next. IfSome next (λ taken.
            (taken.number ≡ self.old.1.1 + 1) × (self.new.1.1 ≡ self.old.1.1 + 1))) }
        ensures over { IfOk result (λ next. IfNone next ((self.new.1.1 ≡ self.old.1.1)
            × (is_some stop.entry ≡ false → self.new.1.1 ≡ self.new.1.0))) }
        ensures failed { IfErr result (λ error. (self.new.1.1 ≡ self.old.1.1) × (Y.wait_failed error
            ⊎ ((place : ℕ) × WasAsked Y.Socket.listens_at Y.Socket.admits
            (λ s. Y.Socket.failed s error) self.new.0.0 place))) }
    {
        let mut watch = FlagWatch::new(stop);
        'taking: for _ in rt.forever() {
            if self.taken >= self.sessions || watch.is_up() {
                return Ok(None);
            }
            let (stream, access) = match self.listener.accept(rt) {
                Ok(Some(came)) => came,
                Ok(None) => continue,
                Err(error) => return Err(error),
            };
            if watch.is_up() {
                return Ok(None);
            }
            if let Ok(place) = place_at(rt, shares, self.listener.last_place()) {
                self.taken += 1;
                return Ok(Some(TakenConnection {
                    stream,
                    access,
                    place,
                    number: self.taken,
                }));
            }
        }
        unreachable!()
    }
}
