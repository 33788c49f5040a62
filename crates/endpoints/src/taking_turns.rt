//! Sockets that are asked for a connection in turn.

ghost use Rattle.std.specs.Prelude.{◌≡◌, ◌<◌, ◌≤◌, ◌+◌, IfErr, IfNone, IfOk, IfSome, Some, length, slice_get};
ghost use Rattle.endpoints.specs.Turns.{FailedOne, SocketGave, HadNoneBetween, IsFairTurn};

use crate::socket::Socket;
use std::io;

// The connection of the first of these sockets that has one, and the socket's place.
fn ask_between<S: Socket>(
    sockets: &[S],
    first: usize,
    end: usize,
) -> io::Result<Option<(usize, S::Stream)>>
    requires { end ≤ length sockets.now }
    ensures gave { IfOk result (λ found. IfSome found (λ came. (first ≤ came.0) × (came.0 < end)
        × SocketGave S.gave sockets.now came.0 came.1
        × HadNoneBetween S.had_none sockets.now first came.0)) }
    ensures none { IfOk result (λ found. IfNone found
        (HadNoneBetween S.had_none sockets.now first end)) }
    ensures failed { IfErr result (λ error. FailedOne (λ s. S.failed s error) sockets.now) }
{
    let mut place = first;
    'asking: while place < end {
        match sockets[place].accept() {
            Ok(Some(stream)) => return Ok(Some((place, stream))),
            Ok(None) => place += 1,
            Err(error) => return Err(error),
        }
    }
    Ok(None)
}

/// The next connection of any of the sockets, if one waits, and the socket's place. Those behind the
/// one that gave the last are asked first, and this one last.
pub(crate) fn ask_in_turn<S: Socket>(
    sockets: &[S],
    last: usize,
) -> io::Result<Option<(usize, S::Stream)>>
    ensures gave { IfOk result (λ found. IfSome found
        (λ came. SocketGave S.gave sockets.now came.0 came.1)) }
    ensures fair { IfOk result (λ found. IfSome found
        (λ came. IsFairTurn S.had_none sockets.now last came.0)) }
    ensures none { IfOk result (λ found. IfNone found
        (HadNoneBetween S.had_none sockets.now 0 (length sockets.now))) }
    ensures failed { IfErr result (λ error. FailedOne (λ s. S.failed s error) sockets.now) }
{
    let behind = last.saturating_add(1).min(sockets.len());
    match ask_between(sockets, behind, sockets.len()) {
        Ok(Some(came)) => Ok(Some(came)),
        Ok(None) => ask_between(sockets, 0, behind),
        Err(error) => Err(error),
    }
}
