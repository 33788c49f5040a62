//! The system's part: sockets that listen, and what waits for their connections.

ghost use Rattle.std.specs.Prelude.{◌≡◌, ◌≢◌, true, IfErr, IfNone, IfOk, IfSome, List};
ghost use Rattle.std.specs.IoError.{error_kind};
ghost use Rattle.std.specs.declared.io.Error.{Error};
ghost use Rattle.std.specs.declared.io.ErrorKind.TheVariants as ErrorKind;
ghost use Rattle.endpoints.specs.declared.endpoint.Place.{Place};
ghost use Rattle.endpoints.specs.declared.endpoint.SocketMode.{SocketMode};

use crate::endpoint::{Place, SocketMode};
use std::alloc::Global;
use std::fs::{File, Files};
use std::io;
use std::net::{Net, TcpListener, TcpStream};

/// A socket that listens.
pub trait Socket {
    type Stream;

    // It listens at this place.
    ghost listens_at: { Self → Place → Type 0 };

    // Those may connect whom this mode lets.
    ghost admits: { Self → SocketMode → Type 0 };

    // It gave this connection.
    ghost gave: { Self → Self.Stream → Type 0 };

    // It was asked, and no connection waited.
    ghost had_none: { Self → Type 0 };

    // It was asked, and failed by this.
    ghost failed: { Self → Error → Type 0 };

    /// The next connection, if one waits.
    fn accept(&self) -> io::Result<Option<Self::Stream>>
        ensures gave { IfOk result (λ found. IfSome found (λ stream. gave self.now stream)) }
        ensures none { IfOk result (λ found. IfNone found (had_none self.now)) }
        ensures failed { IfErr result (λ error. failed self.now error) };
}

/// Makes sockets, and waits for their connections.
pub trait System {
    type Socket: Socket;

    // It refused to listen at this place, by this.
    ghost refused: { Place → Error → Type 0 };

    // These sockets listen no more, and have no names.
    ghost closed: { List Self.Socket → Type 0 };

    // Its wait was ended from outside.
    ghost was_woken: { Type 0 };

    // It couldn't wait, by this.
    ghost wait_failed: { Error → Type 0 };

    /// A socket that listens at this place, to which those may connect whom the mode lets.
    fn listen<R>(
        &mut self,
        rt: &R,
        alloc: Global,
        place: &Place,
        mode: SocketMode,
    ) -> io::Result<Self::Socket>
    where
        R: Net<Stream = TcpStream, Listener = TcpListener> + Files<File = File>,
        ensures listens { IfOk result (λ socket. Self.Socket.listens_at socket place.now
            × Self.Socket.admits socket mode) }
        ensures refused { IfErr result (λ error. refused place.now error) };

    /// Closes sockets, and removes their names.
    fn close<R>(&mut self, rt: &R, alloc: Global, sockets: Vec<Self::Socket>)
    where
        R: Net<Stream = TcpStream, Listener = TcpListener> + Files<File = File>,
        ensures { closed sockets.items };

    /// Waits until a socket may have a connection, or a host ends the wait. Tells whether one did. A
    /// signal is no error.
    fn wait(&mut self) -> io::Result<bool>
        ensures woken { IfOk result (λ woken. woken ≡ true → was_woken) }
        ensures failed { IfErr result (λ error. wait_failed error
            × (error_kind error ≢ ErrorKind.Interrupted)) };
}
