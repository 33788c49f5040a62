//! One listener over all endpoints of a server.

ghost use Rattle.std.specs.Prelude.{◌≡◌, ◌<◌, ◌⊎◌, ◌++◌, ◌∷◌, [], ℕ, IfErr, IfNone, IfOk, IfSome, List, OnErr, OnOk, length, slice_get, take};
ghost use Rattle.std.specs.IoError.{error_kind};
ghost use Rattle.endpoints.specs.Listening.{AllHadNone, AreListening, CameBy, CannotOpen, GaveInTurn, IsRefusedEndpoint, IsSocketOf, WasAsked};

use crate::endpoint::Endpoint;
use crate::listen_fault::ListenFault;
use crate::socket::{Socket, System};
use crate::taking_turns::ask_in_turn;
use server_state::Access;
use std::alloc::Global;
use std::fs::{File, Files};
use std::io;
use std::io::ErrorKind;
use std::marker::Model;
use std::net::{Net, TcpListener, TcpStream};
use std::sync::Wait;

/// Listens at endpoints. Contracts see these, and the place of the one that gave the last connection.
///
/// It has to be closed: nothing else removes the names of its sockets.
pub struct Listener<Y: System> {
    system: Y,
    endpoints: Vec<Endpoint>,
    sockets: Vec<Y::Socket>,
    last: usize,
}

impl<Y: System> Model for Listener<Y> {
    ghost use Rattle.std.specs.Prelude.{ℕ, List};
    ghost use Rattle.endpoints.specs.declared.endpoint.Endpoint.{Endpoint};
    ghost use Rattle.endpoints.specs.Listening.{AreListening};

    ghost Value = { List Endpoint × ℕ };

    ghost view = { λ l. (l.endpoints.items, l.last) };

    ghost invariant = { λ l. AreListening Y.Socket.listens_at Y.Socket.admits l.endpoints.items
        l.sockets.items };
}

// Listens at the next endpoint.
fn listen_also<Y: System, R>(
    system: &mut Y,
    rt: &R,
    alloc: Global,
    endpoint: &Endpoint,
    sockets: &mut Vec<Y::Socket>,
) -> io::Result<()>
where
    R: Net<Stream = TcpStream, Listener = TcpListener> + Files<File = File>,
    ensures opened { OnOk result ((socket : Y.Socket)
        × (sockets.new.items ≡ sockets.old.items ++ socket ∷ [])
        × IsSocketOf Y.Socket.listens_at Y.Socket.admits socket endpoint.now) }
    ensures same { OnErr result (sockets.new.items ≡ sockets.old.items) }
    ensures refused { IfErr result (λ error. Y.refused endpoint.now.place error
        ⊎ (error_kind error ≡ ErrorKind.OutOfMemory)) }
{
    let Ok(()) = sockets.try_reserve(1) else {
        return Err(io::Error::from(ErrorKind::OutOfMemory));
    };
    match system.listen(rt, alloc, &endpoint.place, endpoint.mode()) {
        Ok(socket) => {
            sockets.push_reserved(socket);
            Ok(())
        }
        Err(error) => Err(error),
    }
}

// Listens at all of the endpoints, one after the other, up to the first at which it can't. Gives the
// place of that one, and why.
fn listen_at_each<Y: System, R>(
    system: &mut Y,
    rt: &R,
    alloc: Global,
    endpoints: &[Endpoint],
    sockets: &mut Vec<Y::Socket>,
) -> Result<(), (usize, io::Error)>
where
    R: Net<Stream = TcpStream, Listener = TcpListener> + Files<File = File>,
    requires { sockets.old.items ≡ [] }
    ensures opened { OnOk result (AreListening Y.Socket.listens_at Y.Socket.admits endpoints.now
        sockets.new.items) }
    ensures refused { IfErr result (λ fault. IsRefusedEndpoint Y.refused endpoints.now fault.0 fault.1
        × AreListening Y.Socket.listens_at Y.Socket.admits (take fault.0 endpoints.now)
        sockets.new.items) }
{
    let mut place = 0;
    'endpoints: while place < endpoints.len() {
        match listen_also(system, rt, alloc, &endpoints[place], sockets) {
            Ok(()) => place += 1,
            Err(error) => return Err((place, error)),
        }
    }
    Ok(())
}

// The fault of the endpoint at a place.
fn fault_at(endpoints: Vec<Endpoint>, place: usize, error: io::Error) -> ListenFault
    requires { place < length endpoints.items }
    ensures place { IfSome (slice_get endpoints.items place) (λ e. result.place ≡ e.place) }
    ensures error { result.error ≡ error }
{
    let mut endpoints = endpoints;
    let Endpoint { place, .. } = endpoints.swap_remove(place);
    ListenFault { place, error }
}

impl<Y: System + Drop> Listener<Y> {
    /// Listens at each of these endpoints, in order. Where it can't at one, that one is named, and it
    /// listens at none.
    pub fn open<R>(
        system: Y,
        rt: &R,
        alloc: Global,
        endpoints: Vec<Endpoint>,
    ) -> Result<Listener<Y>, ListenFault>
    where
        R: Net<Stream = TcpStream, Listener = TcpListener> + Files<File = File>,
        ensures opened { IfOk result (λ listener. listener.0 ≡ endpoints.items) }
        ensures fault { IfErr result (CannotOpen Y.Socket.listens_at Y.Socket.admits Y.refused Y.closed
            endpoints.items) }
    {
        let mut system = system;
        let mut sockets = Vec::new(alloc);
        match listen_at_each(&mut system, rt, alloc, &endpoints, &mut sockets) {
            Ok(()) => Ok(Listener {
                system,
                endpoints,
                sockets,
                last: 0,
            }),
            Err((place, error)) => {
                system.close(rt, alloc, sockets);
                Err(fault_at(endpoints, place, error))
            }
        }
    }

    /// Listens no more.
    pub fn close<R>(self, rt: &R, alloc: Global)
    where
        R: Net<Stream = TcpStream, Listener = TcpListener> + Files<File = File>,
        ensures { (sockets : List Y.Socket) × Y.closed sockets
            × AreListening Y.Socket.listens_at Y.Socket.admits self.0 sockets }
    {
        let Listener {
            mut system,
            endpoints: _,
            sockets,
            last: _,
        } = self;
        system.close(rt, alloc, sockets);
    }
}

impl<Y: System> Listener<Y> {
    // The next connection of any socket, if one waits, with the access of its endpoint.
    fn ask(&mut self) -> io::Result<Option<(<Y::Socket as Socket>::Stream, Access)>>
        ensures same { self.new.0 ≡ self.old.0 }
        ensures came { IfOk result (λ found. IfSome found (λ came. CameBy Y.Socket.listens_at
            Y.Socket.admits Y.Socket.gave self.new.0 self.new.1 came.0 came.1)) }
        ensures fair { IfOk result (λ found. IfSome found (λ _. GaveInTurn Y.Socket.listens_at
            Y.Socket.admits Y.Socket.had_none self.new.0 self.old.1 self.new.1)) }
        ensures none { IfOk result (λ found. IfNone found ((self.new.1 ≡ self.old.1) × AllHadNone
            Y.Socket.listens_at Y.Socket.admits Y.Socket.had_none self.new.0)) }
        ensures failed { IfErr result (λ error. (place : ℕ) × WasAsked Y.Socket.listens_at
            Y.Socket.admits (λ s. Y.Socket.failed s error) self.new.0 place) }
    {
        match ask_in_turn(&self.sockets, self.last) {
            Ok(Some((place, stream))) => {
                self.last = place;
                Ok(Some((stream, self.endpoints[place].access)))
            }
            Ok(None) => Ok(None),
            Err(error) => Err(error),
        }
    }

    /// The place of the endpoint that gave the last connection.
    pub fn last_place(&self) -> usize
        ensures { result ≡ self.now.1 }
    {
        self.last
    }

    /// Waits for the next connection, and gives it with the access of the endpoint where it came;
    /// `None` where a host ended the wait. The endpoint that gave the last is asked last.
    pub fn accept<R: Wait>(
        &mut self,
        rt: &R,
    ) -> io::Result<Option<(<Y::Socket as Socket>::Stream, Access)>>
        ensures same { self.new.0 ≡ self.old.0 }
        ensures came { IfOk result (λ found. IfSome found (λ came. CameBy Y.Socket.listens_at
            Y.Socket.admits Y.Socket.gave self.new.0 self.new.1 came.0 came.1)) }
        ensures fair { IfOk result (λ found. IfSome found (λ _. GaveInTurn Y.Socket.listens_at
            Y.Socket.admits Y.Socket.had_none self.new.0 self.old.1 self.new.1)) }
        ensures woken { IfOk result (λ found. IfNone found (Y.was_woken × AllHadNone
            Y.Socket.listens_at Y.Socket.admits Y.Socket.had_none self.new.0)) }
        ensures failed { IfErr result (λ error. Y.wait_failed error ⊎ ((place : ℕ)
            × WasAsked Y.Socket.listens_at Y.Socket.admits (λ s. Y.Socket.failed s error)
            self.new.0 place)) }
    {
        'waiting: for _ in rt.forever() {
            match self.ask() {
                Ok(Some(came)) => return Ok(Some(came)),
                Ok(None) => {}
                Err(error) => return Err(error),
            }
            match self.system.wait() {
                Ok(woken) => {
                    if woken {
                        return Ok(None);
                    }
                }
                Err(error) => return Err(error),
            }
        }
        unreachable!()
    }
}
